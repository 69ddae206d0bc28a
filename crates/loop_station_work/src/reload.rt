//! The configuration is read anew while cameras record. Those whose words are the same go on; one that is removed ends,
//! one that is added begins, and one whose words changed ends and begins, as loop_station_core decides. A configuration
//! that can't be used changes nothing.
//!
//! All that may be refused is got before the first camera ends. An order that comes meanwhile is done by the new camera
//! of that name, once its store is open.

use crate::crew::Crew;
use crate::orders::{Reload, Station};
use crate::paths::NotBegun;
use crate::source::held_pipe;
use loop_station_camera::{CameraState, Common, TakenPaths};
use loop_station_core::{Fate, fate_of};
use loop_station_outside::Places;
use loop_station_words::{CameraConfig, Config, ConfigFault, Lines, SETTINGS, read_config};
use std::alloc::{AllocError, AllocGlobal, Global};
use std::fmt::{Display, Formatter};
use std::io::Write;
use std::sync::atomic::Ordering;
use std::sync::{Arc, Wait};
use std::thread::Threads;
use std::time::{Clock, Duration};
use std::{fmt, io, thread};

// How many times, and every how many milliseconds, it is looked whether the orders of a camera that ends are done: for a
// minute.
const FINISH_STEPS: u32 = 12_000;

const LOOK_AGAIN: u64 = 5;

// How many milliseconds pass before a thread that was refused is started again.
const START_AGAIN: u64 = 1_000;

// Why the configuration isn't read anew.
#[derive(Drop)]
enum NotRead {
    // Its file can't be read.
    NoFile,
    // What it says is wrong.
    Wrong(ConfigFault),
    // It can't be so.
    Refused(NotBegun),
}

impl From<NotBegun> for NotRead {
    fn from(why: NotBegun) -> Self {
        NotRead::Refused(why)
    }
}

impl From<AllocError> for NotRead {
    fn from(_: AllocError) -> Self {
        NotRead::Refused(NotBegun::NoMemory)
    }
}

impl Display for NotRead {
    fn fmt<W: fmt::Write>(&self, f: &mut Formatter<W>) -> fmt::Result {
        match self {
            NotRead::NoFile => f.write_str("it can't be read"),
            NotRead::Wrong(fault) => write!(f, "{fault}"),
            NotRead::Refused(NotBegun::NoMemory) => f.write_str("no memory"),
            NotRead::Refused(NotBegun::NoClock) => f.write_str("the clock can't be read"),
            NotRead::Refused(NotBegun::AnswersInUse(answers)) => write!(
                f,
                "answers {answers} is a store, a source, the configuration or the pipe of orders"
            ),
            NotRead::Refused(NotBegun::TooManyMinutes(camera, tenths)) => {
                let (whole, tenth) = (tenths / 10, tenths % 10);
                write!(
                    f,
                    "camera {camera}: no store holds so many frames: {whole}.{tenth} minutes fit"
                )
            }
        }
    }
}

// What becomes of the cameras.
#[derive(Drop)]
struct Plan {
    // Those that record from now on, in the order of the configuration.
    cameras: Vec<Arc<CameraState>>,
    // Those that end, twice.
    leaving: Vec<Arc<CameraState>>,
    last: Vec<Arc<CameraState>>,
    // Those that begin.
    beginning: Vec<Crew>,
    // What is told of them.
    told: Lines,
}

// The threads of the cameras that record, and the cameras that have ended whose source's threads may still read.
#[derive(Drop)]
struct Crews {
    now: Vec<Crew>,
    ended: Vec<Arc<CameraState>>,
}

/// The thread that starts the cameras, reads the configuration anew where an order asks for it, and ends the cameras
/// with the program.
pub(crate) fn run_crews<
    R: AllocGlobal + Places + Threads + Wait + Clock + Clone + Drop + Send + Sync + 'static,
    W: Write + Drop + Send + 'static,
>(rt: &R, station: &Station<W>) {
    let mut crews = Crews {
        now: Vec::new(station.alloc),
        ended: Vec::new(station.alloc),
    };
    station
        .started
        .put(rt, start_first(rt, station, &mut crews.now));
    for _ in rt.forever() {
        match station.reloads.take(rt) {
            Some(Reload::Asked(answering)) => {
                let mut lines = station.lines();
                // Where memory for the lines is refused, they aren't printed.
                let _ = reload(rt, station, &mut crews, &mut lines);
                station.posts.answer(rt, answering, 0, lines);
                station.reloading.fetch_sub(1, Ordering::SeqCst);
            }
            Some(Reload::End) => break,
            None => {}
        }
    }
    for crew in crews.now.as_slice() {
        crew.state.stop(rt);
    }
    for crew in crews.now {
        crew.join(rt, false);
    }
}

// Starts the threads of the first cameras. Returns whether all could be started.
fn start_first<
    R: AllocGlobal + Places + Threads + Wait + Clock + Clone + Drop + Send + Sync + 'static,
    W: Write + Drop + Send + 'static,
>(rt: &R, station: &Station<W>, crews: &mut Vec<Crew>) -> bool {
    let Ok(cameras) = station.cameras.all(rt, station.alloc) else {
        return false;
    };
    let mut all = true;
    for state in cameras {
        let mut crew = Crew::of(state, None);
        all = crew.start(rt, &station.outlet, &[]) && all;
        if crews.push(crew).is_err() {
            return false;
        }
    }
    all
}

// Reads the configuration anew, follows it, and tells what becomes of the cameras.
fn reload<
    R: AllocGlobal + Places + Threads + Wait + Clock + Clone + Drop + Send + Sync + 'static,
    W: Write + Drop + Send + 'static,
>(rt: &R, station: &Station<W>, crews: &mut Crews, lines: &mut Lines) -> io::Result<()> {
    let path = station.fixed.path.as_str();
    let (wanted, taken, refused) = match read_anew(rt, station, &mut *lines) {
        Ok((wanted, taken)) => (wanted, Some(taken), None),
        Err(why) => (Vec::new(station.alloc), None, Some(why)),
    };
    let plan = match plan_of(rt, station, &mut *crews, wanted, refused.is_some()) {
        Ok(plan) => plan,
        Err(why) => return lines.not_reloaded(path, &why),
    };
    let counts = (
        plan.cameras.len() as u64,
        plan.leaving.len() as u64,
        plan.beginning.len() as u64,
    );
    if let Some(taken) = taken {
        station.saves.set_taken(rt, taken);
    }
    let told = lines.add(&plan.told);
    follow(rt, station, &mut *crews, plan);
    told?;
    match refused {
        Some(why) => lines.not_reloaded(path, &why),
        None => lines.reloaded(path, counts),
    }
}

// The cameras that the configuration has now, and what no clip may be written to. Tells which of its words need a
// restart.
fn read_anew<R: AllocGlobal + Places + Wait, W: Write + Drop>(
    rt: &R,
    station: &Station<W>,
    lines: &mut Lines,
) -> Result<(Vec<CameraConfig>, Arc<TakenPaths>), NotRead> {
    let fixed = &station.fixed;
    let Ok(text) = rt.read_text(fixed.path.as_str()) else {
        return Err(NotRead::NoFile);
    };
    let config = match read_config(station.alloc, text.as_str()) {
        Ok(config) => config,
        Err(fault) => return Err(NotRead::Wrong(fault)),
    };
    fixed.check(rt, config.cameras.as_slice())?;
    let taken = fixed.taken(station.alloc, config.cameras.as_slice())?;
    for place in 0..SETTINGS {
        if let Some(word) = fixed.settings.changed(&config, place) {
            // Where memory for the line is refused, it isn't printed.
            let _ = lines.not_changed(word);
        }
    }
    Ok((wanted_of(station.alloc, config)?, taken))
}

// What becomes of the cameras by a configuration that has these, or is refused.
fn plan_of<R: AllocGlobal + Places + Wait, W: Write + Drop>(
    rt: &R,
    station: &Station<W>,
    crews: &mut Crews,
    wanted: Vec<CameraConfig>,
    refused: bool,
) -> Result<Plan, NotRead> {
    let alloc = station.alloc;
    let running = station.cameras.all(rt, alloc)?;
    let mut plan = Plan {
        cameras: Vec::new(alloc),
        leaving: Vec::new(alloc),
        last: Vec::new(alloc),
        beginning: Vec::new(alloc),
        told: station.lines(),
    };
    for state in running.as_slice() {
        let fate = fate_of(refused, Some(0), said_of(state, &wanted));
        let name = state.config.name.as_str();
        // Where memory for the line is refused, it isn't printed.
        let _ = match fate {
            Fate::Ends => plan.told.camera_ended(name, "removed"),
            Fate::Changes => plan.told.camera_ended(name, "changed"),
            _ if refused => {
                add(&mut plan.cameras, Arc::try_clone(state)?)?;
                continue;
            }
            _ => continue,
        };
        add(&mut plan.leaving, Arc::try_clone(state)?)?;
        add(&mut plan.last, Arc::try_clone(state)?)?;
    }
    for camera in wanted {
        enter(rt, station, &running, camera, &mut plan)?;
    }
    crews.now.reserve(plan.beginning.len())?;
    crews.ended.reserve(plan.leaving.len())?;
    Ok(plan)
}

// The cameras of a configuration, each with what it does where every block is locked.
fn wanted_of(alloc: Global, config: Config) -> Result<Vec<CameraConfig>, NotRead> {
    let Config {
        when_full,
        cameras,
        ..
    } = config;
    let mut wanted = Vec::new(alloc);
    for mut camera in cameras {
        camera.when_full = camera.when_full.or(when_full);
        if wanted.push(camera).is_err() {
            return Err(NotRead::from(AllocError));
        }
    }
    Ok(wanted)
}

// Adds a camera to others.
fn add(list: &mut Vec<Arc<CameraState>>, state: Arc<CameraState>) -> Result<(), NotRead> {
    match list.push(state) {
        Ok(()) => Ok(()),
        Err(_) => Err(NotRead::from(AllocError)),
    }
}

// A number for the words that cameras have for one that records: 0 where they are its own.
fn said_of(state: &CameraState, cameras: &[CameraConfig]) -> Option<u64> {
    for camera in cameras {
        if camera.name.as_str() == state.config.name.as_str() {
            return Some(if camera.has_words_of(&state.config) {
                0
            } else {
                1
            });
        }
    }
    None
}

// Adds a camera of the configuration to a plan: as it records, or made anew.
fn enter<R: AllocGlobal + Places + Wait, W: Write + Drop>(
    rt: &R,
    station: &Station<W>,
    running: &[Arc<CameraState>],
    camera: CameraConfig,
    plan: &mut Plan,
) -> Result<(), NotRead> {
    let before = running
        .iter()
        .find(|state| state.config.name.as_str() == camera.name.as_str());
    let runs = match before {
        Some(state) => Some(if camera.has_words_of(&state.config) {
            0
        } else {
            1
        }),
        None => None,
    };
    let fate = fate_of(false, runs, Some(0));
    let (Fate::GoesOn, Some(state)) = (fate, before) else {
        let why = if fate == Fate::Changes {
            "changed"
        } else {
            "added"
        };
        // Where memory for the line is refused, it isn't printed.
        let _ = plan.told.camera_started(camera.name.as_str(), why);
        let state = made(rt, station, camera)?;
        let held = held_pipe(rt, &state, &plan.leaving);
        add(&mut plan.cameras, Arc::try_clone(&state)?)?;
        return match plan.beginning.push(Crew::of(state, held)) {
            Ok(()) => Ok(()),
            Err(_) => Err(NotRead::from(AllocError)),
        };
    };
    add(&mut plan.cameras, Arc::try_clone(state)?)
}

// What the threads of a camera share that begins.
fn made<R: Wait, W: Write + Drop>(
    rt: &R,
    station: &Station<W>,
    camera: CameraConfig,
) -> Result<Arc<CameraState>, NotRead> {
    let common = Common {
        json: station.json,
        timeline: station.timeline,
        posts: Arc::try_clone(&station.posts)?,
        saves: Arc::try_clone(&station.saves)?,
    };
    let place = station.cameras.place(rt);
    match Arc::new(
        station.alloc,
        CameraState::new(station.alloc, place, camera, common)?,
    ) {
        Ok(state) => Ok(state),
        Err(_) => Err(NotRead::from(AllocError)),
    }
}

// Ends the cameras that end, and then begins those that begin.
fn follow<
    R: AllocGlobal + Places + Threads + Wait + Clock + Clone + Drop + Send + Sync + 'static,
    W: Write + Drop + Send + 'static,
>(rt: &R, station: &Station<W>, crews: &mut Crews, plan: Plan) {
    let Plan {
        cameras,
        leaving,
        last,
        beginning,
        told: _,
    } = plan;
    station.cameras.set(rt, cameras, last);
    end_all(rt, station, &mut crews.now, &leaving);
    for state in leaving {
        // It is reserved.
        let _there = crews.ended.push(state);
    }
    for crew in beginning {
        let crew = begin_one(rt, station, &crews.ended, crew);
        // As above.
        let _there = crews.now.push(crew);
    }
    wait_looked(rt, station);
    station.cameras.forget_ended(rt);
    forget_ended(&mut crews.ended);
}

// Forgets cameras whose sources' threads have ended.
fn forget_ended(ended: &mut Vec<Arc<CameraState>>) {
    for _ in 0..ended.len() {
        match ended.iter().position(|state| state.has_source_ended()) {
            Some(at) if at < ended.len() => {
                ended.remove(at);
            }
            _ => break,
        }
    }
}

// Ends cameras, once what they were asked for is done, and waits until they have.
fn end_all<R: Wait + Clock + Threads, W: Write + Drop>(
    rt: &R,
    station: &Station<W>,
    crews: &mut Vec<Crew>,
    leaving: &[Arc<CameraState>],
) {
    for _ in 0..FINISH_STEPS {
        if station.is_over() || leaving.iter().all(|state| state.is_idle(rt)) {
            break;
        }
        thread::sleep(rt, Duration::from_millis(LOOK_AGAIN));
    }
    for state in leaving {
        state.stop(rt);
    }
    for state in leaving {
        let place = state.place;
        match crews.iter().position(|crew| crew.state.place == place) {
            Some(at) if at < crews.len() => crews.remove(at).join(rt, true),
            _ => {}
        }
    }
}

// Waits until what has become of each camera is told.
fn wait_looked<R: Wait + Clock, W: Write + Drop>(rt: &R, station: &Station<W>) {
    let before = station.looks.load(Ordering::SeqCst);
    for _ in 0..FINISH_STEPS {
        let looks = station.looks.load(Ordering::SeqCst).wrapping_sub(before);
        if station.is_over() || looks >= 2 {
            break;
        }
        thread::sleep(rt, Duration::from_millis(LOOK_AGAIN));
    }
}

// Begins a camera. A thread that is refused is started a second later.
fn begin_one<
    R: AllocGlobal + Places + Threads + Wait + Clock + Clone + Drop + Send + Sync + 'static,
    W: Write + Drop + Send + 'static,
>(rt: &R, station: &Station<W>, ended: &[Arc<CameraState>], crew: Crew) -> Crew {
    let mut crew = crew;
    for _ in rt.forever() {
        if station.is_over() || crew.start(rt, &station.outlet, ended) {
            break;
        }
        thread::sleep(rt, Duration::from_millis(START_AGAIN));
    }
    crew
}
