//! The program: threads for each camera, and orders meanwhile.

use crate::events::LastReported;
use crate::orders::{Reload, Station, status, take_orders};
use crate::paths::{Fixed, NotBegun};
use crate::printer::{run_printer, stop_saves};
use crate::reload::run_crews;
use crate::watch::run_watch;
use loop_script::MAX_LINE;
use loop_station_camera::{CameraState, Common, Fleet, MOST_SAVES, Saves, begin, run_saves};
use loop_station_core::Numbers;
use loop_station_outside::{PathKind, Places, Timeline};
use loop_station_shared::{LineForm, Message, Outlet, Post, Posts, Tap, run_outlet, run_tap};
use loop_station_words::{AnswersForm, CameraConfig, Config, Lines, WhenFull};
use std::alloc::{AllocGlobal, Global};
use std::fs::OpenFile;
use std::io::{BufReader, Read, Write};
use std::os::unix::fs::{FileTypeExt, MetadataExt};
use std::sync::atomic::{AtomicBool, AtomicU64, Ordering};
use std::sync::{Arc, Mutex, Wait};
use std::thread;
use std::thread::{JoinHandle, Scope, Threads};
use std::time::{Clock, Duration};

// How many times the state of the cameras is looked at for each status that is shown.
const STATUS_STEPS: u32 = 10;

// How often, and every how many milliseconds, a stop looks whether the orders before it are done: for a minute.
const FINISH_STEPS: u32 = 12_000;

const FINISH_AGAIN: u64 = 5;

// How many orders to read the configuration anew may wait.
const MOST_RELOADS: usize = 256;

// How many milliseconds pass before a pipe of orders without a writer is read again.
const NEXT_WRITER: u64 = 5;

// After so many such reads it is looked whether the pipe still has its name.
const ORDER_ENDS: u32 = 100;

/// Records from each camera of a configuration into its store, and does orders until one says `stop`. `path` is the
/// path of the configuration's file. Orders come from the input, or from the pipe or file that the configuration names;
/// the end of the input doesn't end the recording. Lines are printed to `out`. Where someone watches, a line for each
/// camera below them shows its status, every second. Returns whether everything could be printed.
pub fn run_station<
    R: AllocGlobal + Places + Threads + Wait + Clock + Clone + Drop + Send + Sync + 'static,
    I: Read + Drop,
    W: Write + Drop + Send + 'static,
>(rt: &R, path: &str, config: Config, input: I, out: W, watched: bool) -> Result<bool, NotBegun> {
    let alloc = rt.alloc();
    let fixed = Fixed::of(alloc, path, &config)?;
    fixed.check(rt, config.cameras.as_slice())?;
    let (station, tap, orders) = station_of(rt, fixed, config, out)?;
    start_saves(rt, &station)?;
    start_outlet(rt, &station)?;
    start_tap(rt, &station, &tap)?;
    let line = Vec::with_capacity(alloc, MAX_LINE + 1)?;
    let Ok(input) = BufReader::new(alloc, input) else {
        return Err(NotBegun::NoMemory);
    };
    let reader = OrderReader {
        path: orders,
        input,
        line,
    };
    if !run_behind(rt, &station, reader, watched) {
        return Err(NotBegun::NoMemory);
    }
    station.tell_end(rt);
    station.outlet.end(rt);
    Ok(!station.outlet.has_failed())
}

// What a station is by its configuration, before any of its threads runs: with the tap of its answers, and the path of
// its orders.
fn station_of<R: AllocGlobal + Places + Wait + Clock, W: Write + Drop>(
    rt: &R,
    fixed: Fixed,
    config: Config,
    out: W,
) -> Result<(Station<W>, Option<Arc<Tap>>, Option<String>), NotBegun> {
    let alloc = rt.alloc();
    let taken = fixed.taken(alloc, config.cameras.as_slice())?;
    let Config {
        orders,
        answers,
        answers_form,
        saves,
        times,
        events,
        when_full,
        cameras,
    } = config;
    let json = answers.is_some() && answers_form == AnswersForm::Json;
    let timeline = timeline_of(rt)?;
    let saves = shared(alloc, Saves::new(alloc, taken, saves)?)?;
    let posts = shared(alloc, Posts::new(alloc)?)?;
    let common = Common {
        json,
        timeline,
        posts,
        saves,
    };
    let cameras = states_of(alloc, cameras, when_full, &common)?;
    let times = times.then_some(timeline);
    let tap = tap_of(rt, answers, LineForm { json, times })?;
    let outlet = outlet_of(alloc, out, times, &tap, json)?;
    let station = Station {
        alloc,
        timeline,
        cameras: shared(alloc, Fleet::new(alloc, cameras))?,
        outlet: shared(alloc, outlet)?,
        saves: common.saves,
        posts: common.posts,
        json,
        events,
        numbers: Mutex::new(Numbers::after(0)),
        last: Mutex::new(None),
        fixed,
        reloads: Post::new(alloc, MOST_RELOADS)?,
        reloading: AtomicU64::new(0),
        started: Post::new(alloc, 1)?,
        over: AtomicBool::new(false),
        looks: AtomicU64::new(0),
    };
    Ok((station, tap, orders))
}

// What prints the lines of a station, and gives them to its tap.
fn outlet_of<W: Write + Drop>(
    alloc: Global,
    out: W,
    times: Option<Timeline>,
    tap: &Option<Arc<Tap>>,
    json: bool,
) -> Result<Outlet<W>, NotBegun> {
    let ours = match tap {
        Some(tap) => Some(Arc::try_clone(tap)?),
        None => None,
    };
    Ok(Outlet::new(alloc, out, times, ours, json)?)
}

// The timeline of the frames, which begins now.
fn timeline_of<R: Clock>(rt: &R) -> Result<Timeline, NotBegun> {
    match Timeline::new(rt) {
        Ok(timeline) => Ok(timeline),
        Err(_) => Err(NotBegun::NoClock),
    }
}

// What the threads of each camera share; `when_full`: what those do where every block is locked that don't say.
fn states_of(
    alloc: Global,
    cameras: Vec<CameraConfig>,
    when_full: Option<WhenFull>,
    common: &Common,
) -> Result<Vec<Arc<CameraState>>, NotBegun> {
    let mut states = Vec::new(alloc);
    let mut place = 0usize;
    for mut camera in cameras {
        camera.when_full = camera.when_full.or(when_full);
        let state = CameraState::new(alloc, place, camera, common.share()?)?;
        if states.push(shared(alloc, state)?).is_err() {
            return Err(NotBegun::NoMemory);
        }
        place = place.saturating_add(1);
    }
    Ok(states)
}

// Starts the threads that write clips. A pipe that nobody reads may keep one waiting for ever, so they end with the
// program.
fn start_saves<
    R: AllocGlobal + Places + Threads + Wait + Clock + Clone + Drop + Send + Sync + 'static,
    W: Write + Drop + Send + 'static,
>(rt: &R, station: &Station<W>) -> Result<(), NotBegun> {
    for at in 0..MOST_SAVES {
        let fleet = Arc::try_clone(&station.cameras)?;
        let saves = Arc::try_clone(&station.saves)?;
        let Ok(theirs) = rt.clone() else {
            return Err(NotBegun::NoMemory);
        };
        let work = move || run_saves(&theirs, &saves, &fleet, at);
        if thread::spawn(rt, work).is_err() {
            return Err(NotBegun::NoMemory);
        }
    }
    Ok(())
}

// The tap for the file or pipe of a path, if there is one.
fn tap_of<R: AllocGlobal + Places>(
    rt: &R,
    answers: Option<String>,
    form: LineForm,
) -> Result<Option<Arc<Tap>>, NotBegun> {
    let Some(path) = answers else {
        return Ok(None);
    };
    let is_pipe = rt.path_kind(path.as_str()) == PathKind::Pipe;
    let tap = shared(rt.alloc(), Tap::new(rt.alloc(), path, is_pipe, form)?)?;
    Ok(Some(tap))
}

// Starts the thread that writes to the output. A reader may keep it waiting for ever, so it ends with the program.
fn start_outlet<
    R: AllocGlobal + Threads + Wait + Clock + Clone + Drop + Send + Sync + 'static,
    W: Write + Drop + Send + 'static,
>(rt: &R, station: &Station<W>) -> Result<(), NotBegun> {
    let outlet = Arc::try_clone(&station.outlet)?;
    let Ok(theirs) = rt.clone() else {
        return Err(NotBegun::NoMemory);
    };
    match thread::spawn(rt, move || run_outlet(&theirs, &outlet)) {
        Ok(_) => Ok(()),
        Err(_) => Err(NotBegun::NoMemory),
    }
}

// Starts the thread of a tap. A pipe may keep it waiting for ever, so it ends with the program.
fn start_tap<
    R: AllocGlobal + Places + Threads + Wait + Clock + Clone + Drop + Send + Sync + 'static,
    W: Write + Drop + Send + 'static,
>(rt: &R, station: &Station<W>, tap: &Option<Arc<Tap>>) -> Result<(), NotBegun> {
    let Some(tap) = tap else {
        return Ok(());
    };
    let (tap, outlet) = (Arc::try_clone(tap)?, Arc::try_clone(&station.outlet)?);
    let Ok(theirs) = rt.clone() else {
        return Err(NotBegun::NoMemory);
    };
    match thread::spawn(rt, move || run_tap(&theirs, &tap, &outlet)) {
        Ok(_) => Ok(()),
        Err(_) => Err(NotBegun::NoMemory),
    }
}

// A value that threads share.
fn shared<T: Drop>(alloc: Global, value: T) -> Result<Arc<T>, NotBegun> {
    match Arc::new(alloc, value) {
        Ok(shared) => Ok(shared),
        Err(_) => Err(NotBegun::NoMemory),
    }
}

// Where orders come from: the pipe or file of a path, or else the input; and the memory of a line.
#[derive(Drop)]
struct OrderReader<I: Read + Drop> {
    path: Option<String>,
    input: BufReader<I>,
    line: Vec<u8>,
}

// The scope that the cameras' threads run in.
fn run_behind<
    R: AllocGlobal + Places + Threads + Wait + Clock + Clone + Drop + Send + Sync + 'static,
    I: Read + Drop,
    W: Write + Drop + Send + 'static,
>(rt: &R, station: &Station<W>, reader: OrderReader<I>, watched: bool) -> bool {
    let (rt, station) = (&*rt, &*station);
    thread::scope(thread::scope_env(), rt, move |scope| -> bool {
        run_in(rt, scope, station, reader, watched)
    })
}

// Starts the cameras' threads, does orders until one says `stop`, and joins the threads. Returns whether all threads
// could be started.
fn run_in<
    's,
    E,
    R: AllocGlobal + Places + Threads + Wait + Clock + Clone + Drop + Send + Sync + 'static,
    I: Read + Drop,
    W: Write + Drop + Send + 'static,
>(
    rt: &'s R,
    scope: &Scope<'s, E>,
    station: &'s Station<W>,
    reader: OrderReader<I>,
    watched: bool,
) -> bool {
    let mut handles = Vec::new(station.alloc);
    let Ok(printer) = scope.spawn(move || run_printer(rt, station)) else {
        return false;
    };
    let Ok(crews) = scope.spawn(move || run_crews(rt, station)) else {
        station.posts.printer.put(rt, Message::End);
        printer.join(rt);
        return false;
    };
    let all = station.started.take(rt) == Some(true)
        && start_watches(rt, scope, station, &mut handles, watched);
    if !all || serve(rt, station, reader) {
        finish_orders(rt, station);
        stop_saves(rt, station);
        station.over.store(true, Ordering::SeqCst);
        station.reloads.put(rt, Reload::End);
    }
    crews.join(rt);
    for handle in handles {
        handle.join(rt);
    }
    station.posts.printer.put(rt, Message::End);
    printer.join(rt);
    all
}

// Waits until the orders that came before a `stop` are done, but no longer than a keep waits for frames.
fn finish_orders<R: Wait + Clock, W: Write + Drop>(rt: &R, station: &Station<W>) {
    for _ in 0..FINISH_STEPS {
        let is_idle = match station.cameras.all(rt, station.alloc) {
            Ok(cameras) => cameras.iter().all(|state| state.is_idle(rt)),
            Err(_) => false,
        };
        let is_read = station.reloading.load(Ordering::SeqCst) == 0;
        if is_idle && is_read && station.posts.printer.is_empty(rt) {
            break;
        }
        thread::sleep(rt, Duration::from_millis(FINISH_AGAIN));
    }
}

// Starts the threads that look at the cameras, and print what happens to them. Returns whether all could be started.
fn start_watches<
    's,
    E,
    R: AllocGlobal + Places + Threads + Wait + Clock + Sync + 'static,
    W: Write + Drop + Send + 'static,
>(
    rt: &'s R,
    scope: &Scope<'s, E>,
    station: &'s Station<W>,
    handles: &mut Vec<JoinHandle<()>>,
    watched: bool,
) -> bool {
    let Ok(handle) = scope.spawn(move || run_watch(rt, station)) else {
        return false;
    };
    if handles.push(handle).is_err() {
        return false;
    }
    let Ok(handle) = scope.spawn(move || watch(rt, station, watched)) else {
        return false;
    };
    handles.push(handle).is_ok()
}

// Tells events of the cameras, wakes the threads that an open event or a release waits for, tries saves again, and
// shows the status of each camera every second where someone watches, until the program ends.
fn watch<R: AllocGlobal + Wait + Clock, W: Write + Drop>(
    rt: &R,
    station: &Station<W>,
    watched: bool,
) {
    let mut reported = Vec::new(rt.alloc());
    for _ in rt.forever() {
        for _ in 0..STATUS_STEPS {
            let over = station.is_over();
            look(rt, station, &mut reported);
            station.looks.fetch_add(1, Ordering::SeqCst);
            if over {
                return;
            }
            thread::sleep(rt, Duration::from_millis(100));
        }
        if watched && !station.is_over() {
            show(rt, station);
        }
    }
}

// Looks at each camera once. Where memory is refused, it is looked at the next time.
fn look<R: AllocGlobal + Wait + Clock, W: Write + Drop>(
    rt: &R,
    station: &Station<W>,
    reported: &mut Vec<(usize, LastReported)>,
) {
    let Ok(cameras) = station.cameras.watched(rt, station.alloc) else {
        return;
    };
    for state in cameras.as_slice() {
        state.wake_to_go_on(rt);
        if station.events {
            tell_events(rt, station, state, &mut *reported);
        }
    }
    forget_ended(&mut *reported, &cameras);
    if let Some(save) = station.saves.due(rt, station.timeline.now(rt)) {
        if let Some(state) = station.cameras.at(rt, save.camera()) {
            begin(rt, &state, save);
        }
    }
}

// Tells what has changed of a camera since it was last looked at.
fn tell_events<R: AllocGlobal + Wait + Clock, W: Write + Drop>(
    rt: &R,
    station: &Station<W>,
    state: &CameraState,
    reported: &mut Vec<(usize, LastReported)>,
) {
    if !reported.iter().any(|known| known.0 == state.place) {
        let first = LastReported::new(state.timeline.now(rt));
        if reported.push((state.place, first)).is_err() {
            return;
        }
    }
    for known in reported.as_mut_slice() {
        if known.0 == state.place {
            let mut lines = station.lines();
            // Where memory for the lines is refused, they aren't printed.
            if known.1.tell_changes(rt, state, &mut lines).is_ok() {
                station.outlet.put(rt, &lines);
            }
        }
    }
}

// Forgets what was told of cameras that have ended.
fn forget_ended(reported: &mut Vec<(usize, LastReported)>, cameras: &[Arc<CameraState>]) {
    for _ in 0..reported.len() {
        let gone = reported.iter().position(|known| !cameras
            .iter()
            .any(|state| state.place == known.0));
        match gone {
            Some(at) if at < reported.len() => {
                reported.remove(at);
            }
            _ => break,
        }
    }
}

// Shows the status of each camera.
fn show<R: AllocGlobal + Wait + Clock, W: Write + Drop>(rt: &R, station: &Station<W>) {
    let mut lines = Lines::new(rt.alloc(), false);
    let mut text = Vec::new(rt.alloc());
    // Where memory for the lines is refused, the next look has them.
    if status(rt, station, &mut lines).is_ok() && text.extend_from_slice(lines.text()).is_ok() {
        station.outlet.show(rt, text);
    }
}

// Does orders, from the pipe or file that is named or from the input. A pipe is opened again and again. Returns whether
// an order said `stop`.
fn serve<
    R: AllocGlobal + Places + Threads + Wait + Clock + Clone + Drop + Send + Sync + 'static,
    I: Read + Drop,
    W: Write + Drop + Send + 'static,
>(rt: &R, station: &Station<W>, reader: OrderReader<I>) -> bool {
    let OrderReader {
        path,
        mut input,
        mut line,
    } = reader;
    let Some(path) = path else {
        return take_orders(rt, station, &mut input, &mut line);
    };
    for _ in rt.forever() {
        match serve_file(rt, station, path.as_str(), &mut line) {
            Served::Stop => return true,
            Served::Once => break,
            Served::Again => thread::sleep(rt, Duration::from_millis(100)),
        }
    }
    false
}

// How the orders of a pipe or file ended.
enum Served {
    // One said `stop`.
    Stop,
    // It is a file, which is read once.
    Once,
    // It is a pipe, which may bring more orders, or it isn't there yet.
    Again,
}

// Does the orders of a pipe or file. A file ends; a pipe is at its end as long as it has no writer, and a line without
// its end is an order then.
fn serve_file<
    R: AllocGlobal + Places + Threads + Wait + Clock + Clone + Drop + Send + Sync + 'static,
    W: Write + Drop + Send + 'static,
>(rt: &R, station: &Station<W>, path: &str, line: &mut Vec<u8>) -> Served {
    let Ok(file) = rt.open_orders(path) else {
        return Served::Again;
    };
    let Ok(metadata) = file.metadata() else {
        return Served::Again;
    };
    let Ok(mut input) = BufReader::new(rt.alloc(), file) else {
        return Served::Again;
    };
    let place = (metadata.dev(), metadata.ino());
    let mut ends = 0u32;
    for _ in rt.forever() {
        if take_orders(rt, station, &mut input, line) {
            return Served::Stop;
        }
        if metadata.is_file() {
            return Served::Once;
        }
        ends = ends.wrapping_add(1);
        if !metadata.file_type().is_fifo()
            || ends % ORDER_ENDS == 0 && rt.place_of(path).ok() != Some(Some(place))
        {
            return Served::Again;
        }
        thread::sleep(rt, Duration::from_millis(NEXT_WRITER));
    }
    unreachable!()
}
