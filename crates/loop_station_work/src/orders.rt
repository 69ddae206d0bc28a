//! Orders: they are read line by line, and handed to the cameras that they mean. The thread that reads them waits for
//! no camera, no disk and no reader: what a line says of time is said of the moment at which it was read.

ghost use Rattle.std.specs.Prelude.{◌≡◌, ◌≢◌, IfSome, None};
ghost use Rattle.loop_station_core.specs.Keeps.{asked_time};
ghost use Rattle.loop_station_words.specs.declared.choices.TimesFrom.TheVariants.{Arrival};

use crate::paths::Fixed;
use loop_script::{MAX_LINE, next_line};
use loop_station_camera::{CameraState, Fleet, Saves, shown_at, tell_status};
use loop_station_core::{KeepPeriod, Numbers, asked_time, is_too_far, tag_of};
use loop_station_outside::{Places, Timeline};
use loop_station_shared::{Answering, AskedKeep, Job, NotTaken, Outlet, Post, Posts, Request};
use loop_station_words::{Lines, Name, Order, label_of, read_order};
use std::alloc::{AllocError, AllocGlobal, Global};
use std::io::{BufRead, Write};
use std::sync::atomic::{AtomicBool, AtomicU64, Ordering};
use std::sync::{Arc, Mutex, Wait};
use std::time::Clock;
use std::{io, str};

/// The cameras, where lines are printed, and the clips that are being saved.
#[derive(Drop)]
pub(crate) struct Station<W: Write + Drop> {
    pub alloc: Global,
    pub timeline: Timeline,
    pub cameras: Arc<Fleet>,
    pub outlet: Arc<Outlet<W>>,
    pub saves: Arc<Saves>,
    pub posts: Arc<Posts>,
    /// Answers are wanted as JSON too.
    pub json: bool,
    /// Events are printed: what happens without an order.
    pub events: bool,
    /// The numbers of keeps.
    pub numbers: Mutex<Numbers>,
    /// The label of the order that ends the program.
    pub last: Mutex<Option<String>>,
    /// What doesn't change where the configuration is read anew.
    pub fixed: Fixed,
    /// The orders to read it anew, and how many of them aren't answered.
    pub reloads: Post<Reload>,
    pub reloading: AtomicU64,
    /// Whether the first cameras could be started, once that is known.
    pub started: Post<bool>,
    /// The program ends.
    pub over: AtomicBool,
    /// How often the cameras were looked at for what is told of them.
    pub looks: AtomicU64,
}

/// What the thread is told that reads the configuration anew.
#[derive(Drop)]
pub(crate) enum Reload {
    /// An order asks for it.
    Asked(Arc<Answering>),
    /// The program ends.
    End,
}

impl<W: Write + Drop> Station<W> {
    /// No lines yet, in the forms that are wanted.
    pub fn lines(&self) -> Lines {
        Lines::new(self.alloc, self.json)
    }

    // Stores the label of the order that ends the program. Where memory is refused, the end is printed without it.
    fn keep_label<R: Wait>(&self, rt: &R, label: Option<&str>) {
        if let Some(label) = label {
            *self.last.lock(rt) = String::from_str(self.alloc, label).ok();
        }
    }

    /// Prints that the program ends.
    pub fn tell_end<R: Wait + Clock>(&self, rt: &R) {
        self.outlet.show(rt, Vec::new(self.alloc));
        let last = self.last.lock(rt).take();
        let mut lines = self.lines();
        // Where memory for the lines is refused, they aren't printed.
        let _ = lines.stopped();
        if last.is_some() {
            let _ = lines.done();
        }
        self.outlet.answer(rt, last.as_deref(), &lines);
    }

    // An order that so many cameras have to answer.
    fn answering(
        &self,
        label: Option<&str>,
        event: u64,
        cameras: usize,
    ) -> Result<Arc<Answering>, AllocError> {
        let label = match label {
            Some(label) => Some(String::from_str(self.alloc, label)?),
            None => None,
        };
        let answering = Answering::new(self.alloc, label, event, cameras)?;
        match Arc::new(self.alloc, answering) {
            Ok(answering) => Ok(answering),
            Err(_) => Err(AllocError),
        }
    }

    // Answers an order that no camera has to answer. Where memory is refused, it isn't answered.
    fn answer<R: Wait>(&self, rt: &R, label: Option<&str>, lines: Lines) {
        if let Ok(answering) = self.answering(label, 0, 1) {
            self.posts.answer(rt, answering, 0, lines);
        }
    }

    /// Whether the program ends.
    pub fn is_over(&self) -> bool {
        self.over.load(Ordering::SeqCst)
    }
}

/// Does the orders of an input until it ends, or until one ends the program. Returns whether one did.
pub(crate) fn take_orders<R: AllocGlobal + Places + Wait + Clock, I: BufRead, W: Write + Drop>(
    rt: &R,
    station: &Station<W>,
    input: &mut I,
    line: &mut Vec<u8>,
) -> bool {
    for _ in 0..u64::MAX {
        match next_line(input, line) {
            Ok(true) => {}
            Ok(false) => break,
            Err(_) if line.len() > MAX_LINE => {
                bad_order(rt, station, line);
                skip_line(input, line);
                continue;
            }
            Err(_) => break,
        }
        if do_line(rt, station, line) {
            return true;
        }
    }
    false
}

// Does the order of a line. Returns whether it ends the program.
fn do_line<R: AllocGlobal + Places + Wait + Clock, W: Write + Drop>(
    rt: &R,
    station: &Station<W>,
    line: &[u8],
) -> bool {
    let read = station.timeline.now(rt);
    let Ok(text) = str::from_utf8(line) else {
        bad_order(rt, station, line);
        return false;
    };
    let (label, said) = labelled(text);
    match read_order(said) {
        Some(Order::Stop) => {
            station.keep_label(rt, label);
            return true;
        }
        // Where memory is refused, the order isn't answered.
        Some(order) => {
            let _unanswered = hand_out(rt, station, read, label, order);
        }
        None => bad_order(rt, station, line),
    }
    false
}

// The label of a line, and what it asks for.
fn labelled<'a>(text: &'a str) -> (Option<&'a str>, &'a str) {
    match label_of(text) {
        Some((label, said)) => (Some(label.text()), said.text()),
        None => (None, text),
    }
}

// Skips the rest of a line that is too long.
fn skip_line<I: BufRead>(input: &mut I, line: &mut Vec<u8>) {
    for _ in 0..u64::MAX {
        if next_line(input, line).is_ok() || line.len() <= MAX_LINE {
            break;
        }
    }
}

// Answers a line that can't be read, with its label where it has one.
fn bad_order<R: Wait, W: Write + Drop>(rt: &R, station: &Station<W>, line: &[u8]) {
    let readable = match str::from_utf8(line) {
        Ok(_) => line.len(),
        Err(fault) => fault.valid_up_to(),
    };
    let text = match str::from_utf8(line.get(..readable).unwrap_or(&[])) {
        Ok(text) => text,
        Err(_) => "",
    };
    let (label, said) = labelled(text);
    let head = text.len().saturating_sub(said.len());
    let mut lines = station.lines();
    // Where memory for the line is refused, nothing is printed.
    if lines.bad_order(line.get(head..).unwrap_or(&[])).is_ok() {
        station.answer(rt, label, lines);
    }
}

// Hands an order to the cameras that it means, or answers it.
fn hand_out<R: AllocGlobal + Places + Wait + Clock, W: Write + Drop>(
    rt: &R,
    station: &Station<W>,
    read: u64,
    label: Option<&str>,
    order: Order<'_>,
) -> Result<(), AllocError> {
    match order {
        Order::Keep {
            camera,
            seconds,
            after,
            tag,
        } => {
            let asked = KeepOrder {
                camera: &camera,
                period: KeepPeriod::Around(seconds, after),
                tag,
            };
            keep(rt, station, read, label, asked)
        }
        Order::KeepBetween {
            camera,
            since,
            until,
            tag,
        } => {
            let asked = KeepOrder {
                camera: &camera,
                period: KeepPeriod::Between(since, until),
                tag,
            };
            keep(rt, station, read, label, asked)
        }
        Order::List => list(rt, station, label),
        Order::Reload => ask_reload(rt, station, label),
        Order::Status | Order::Help | Order::Stop => {
            tell_all(rt, station, label, matches!(order, Order::Help));
            Ok(())
        }
        order => hand_out_for_clip(rt, station, label, order),
    }
}

// Hands an order about a clip to the clip's camera, or answers it.
fn hand_out_for_clip<R: Wait, W: Write + Drop>(
    rt: &R,
    station: &Station<W>,
    label: Option<&str>,
    order: Order<'_>,
) -> Result<(), AllocError> {
    match order {
        Order::Release { camera, id, first } => {
            ask_one(
                rt,
                station,
                label,
                camera.text(),
                Request::Release(id, first),
            )
        }
        Order::Save {
            camera,
            id,
            out,
            replace,
        } => {
            let out = String::from_str(station.alloc, out.text())?;
            let request = Request::Save(id, out, replace);
            ask_one(rt, station, label, camera.text(), request)
        }
        Order::SaveEvent {
            camera,
            tag,
            out,
            replace,
        } => {
            let out = String::from_str(station.alloc, out.text())?;
            let request = Request::SaveEvent(tag, out, replace);
            ask_one(rt, station, label, camera.text(), request)
        }
        Order::Cancel { camera, id } => cancel(rt, station, label, camera.text(), id),
        _ => Ok(()),
    }
}

// Lets the configuration be read anew.
fn ask_reload<R: Wait, W: Write + Drop>(
    rt: &R,
    station: &Station<W>,
    label: Option<&str>,
) -> Result<(), AllocError> {
    let answering = station.answering(label, 0, 1)?;
    station.reloading.fetch_add(1, Ordering::SeqCst);
    station.reloads.put(rt, Reload::Asked(answering));
    Ok(())
}

// Answers with the status of each camera, or with each order's line.
fn tell_all<R: Wait, W: Write + Drop>(
    rt: &R,
    station: &Station<W>,
    label: Option<&str>,
    help: bool,
) {
    let mut lines = station.lines();
    let told = if help {
        lines.help()
    } else {
        status(rt, station, &mut lines)
    };
    // Where memory for the lines is refused, nothing is printed.
    if told.is_ok() {
        station.answer(rt, label, lines);
    }
}

// Whether an order that names a camera, or none, means this one.
fn is_meant(state: &CameraState, camera: Option<&str>) -> bool {
    match camera {
        Some(name) => state.config.name.as_str() == name,
        None => true,
    }
}

// How many cameras an order means that names one, or none.
fn count_meant(cameras: &[Arc<CameraState>], camera: Option<&str>) -> usize {
    let mut count = 0usize;
    for state in cameras {
        if is_meant(state, camera) {
            count = count.saturating_add(1);
        }
    }
    count
}

// What a keep asks a camera for: with the camera's own seconds and tag where none are given.
fn asked_keep<R: Wait + Clock>(
    rt: &R,
    state: &CameraState,
    event: u64,
    read: u64,
    period: KeepPeriod,
    tag: Option<u64>,
) -> AskedKeep
    ensures times { (result.since, result.until)
        ≡ asked_time period result.read state.now.config.seconds state.now.config.after }
    ensures read { state.now.config.times_from ≡ Arrival → result.read ≡ read }
    ensures event { result.event ≡ event }
    ensures said { IfSome tag (λ own. result.tag ≡ own) }
    ensures own { tag ≡ None → state.now.config.tag ≢ 0 → result.tag ≡ state.now.config.tag }
    ensures unsaid { tag ≡ None → state.now.config.tag ≡ 0 → result.tag ≡ event }
{
    let shown = shown_at(rt, state, read, read);
    let (since, until) = asked_time(period, shown, state.config.seconds, state.config.after);
    let read = match period {
        // A time that the station's clock has passed isn't waited for.
        KeepPeriod::Between(_, _) if until <= read => shown.max(until),
        _ => shown,
    };
    AskedKeep {
        event,
        since,
        until,
        tag: tag_of(tag, state.config.tag, event),
        read,
        come: state.feed.come(rt, read.min(until)),
    }
}

// What a line asks to keep: of one camera, or of all, with this tag or their own.
struct KeepOrder<'a> {
    camera: &'a Option<Name<'a>>,
    period: KeepPeriod,
    tag: Option<u64>,
}

// Locks what one camera, or all, held in a time. Each camera is asked before any has to answer.
fn keep<R: Wait + Clock, W: Write + Drop>(
    rt: &R,
    station: &Station<W>,
    read: u64,
    label: Option<&str>,
    asked: KeepOrder<'_>,
) -> Result<(), AllocError> {
    let KeepOrder {
        camera,
        period,
        tag,
    } = asked;
    let name = match camera {
        Some(name) => Some(name.text()),
        None => None,
    };
    let cameras = station.cameras.all(rt, station.alloc)?;
    let meant = count_meant(&cameras, name);
    if meant == 0 {
        return no_camera(rt, station, label, name.unwrap_or(""));
    }
    if is_far(rt, &cameras, name, read, period) {
        let mut lines = station.lines();
        // Where memory for the line is refused, nothing is printed.
        if lines.too_far().is_ok() {
            station.answer(rt, label, lines);
        }
        return Ok(());
    }
    let event = station.numbers.lock(rt).next(read);
    let answering = station.answering(label, event, meant)?;
    let mut place = 0usize;
    for state in cameras.as_slice() {
        if is_meant(state, name) {
            let asked = asked_keep(rt, state, event, read, period, tag);
            hand(
                rt,
                state,
                Arc::try_clone(&answering)?,
                place,
                Request::Keep(asked),
            );
            place = place.saturating_add(1);
        }
    }
    Ok(())
}

// Whether a keep ends too far ahead for one of the cameras that it means.
fn is_far<R: Wait>(
    rt: &R,
    cameras: &[Arc<CameraState>],
    name: Option<&str>,
    read: u64,
    period: KeepPeriod,
) -> bool {
    for state in cameras {
        if is_meant(state, name) {
            let shown = shown_at(rt, state, read, read);
            let (_, until) = asked_time(period, shown, state.config.seconds, state.config.after);
            let seen = match period {
                KeepPeriod::Between(_, _) => shown.max(read),
                KeepPeriod::Around(_, _) => shown,
            };
            if is_too_far(seen, until) {
                return true;
            }
        }
    }
    false
}

// Gives a camera an order, or answers for it that it can't do any.
fn hand<R: Wait>(
    rt: &R,
    state: &CameraState,
    answering: Arc<Answering>,
    place: usize,
    request: Request,
) {
    let Ok(ours) = Arc::try_clone(&answering) else {
        return;
    };
    let job = Job {
        request,
        answering,
        place,
    };
    match state.jobs.add(rt, job) {
        Ok(()) => state.threads.wake(rt),
        Err(NotTaken::Absent(why)) => state.answer_absent(rt, ours, place, why),
        Err(NotTaken::TooMany) => {
            let mut lines = state.lines(state.alloc);
            // Where memory for the line is refused, nothing is printed.
            let _ = lines.too_many_orders(state.config.name.as_str());
            state.posts.answer(rt, ours, place, lines);
        }
    }
}

// Gives the camera of a name an order.
fn ask_one<R: Wait, W: Write + Drop>(
    rt: &R,
    station: &Station<W>,
    label: Option<&str>,
    name: &str,
    request: Request,
) -> Result<(), AllocError> {
    let Some(state) = station.cameras.named(rt, name) else {
        return no_camera(rt, station, label, name);
    };
    let answering = station.answering(label, 0, 1)?;
    hand(rt, &state, answering, 0, request);
    Ok(())
}

// Answers that no camera has a name.
fn no_camera<R: Wait, W: Write + Drop>(
    rt: &R,
    station: &Station<W>,
    label: Option<&str>,
    name: &str,
) -> Result<(), AllocError> {
    let mut lines = station.lines();
    // Where memory for the line is refused, nothing is printed.
    if lines.no_camera(name).is_ok() {
        station.answer(rt, label, lines);
    }
    Ok(())
}

// Ends a save of a camera's clip: one that is there already at once, or else one that an order before this one begins.
fn cancel<R: Wait, W: Write + Drop>(
    rt: &R,
    station: &Station<W>,
    label: Option<&str>,
    name: &str,
    id: u32,
) -> Result<(), AllocError> {
    let Some(state) = station.cameras.named(rt, name) else {
        return no_camera(rt, station, label, name);
    };
    if !state.cancel_save(rt, id) {
        return ask_one(rt, station, label, name, Request::Cancel(id));
    }
    let mut lines = station.lines();
    // Where memory for the line is refused, nothing is printed.
    if lines.cancelled(name, id).is_ok() {
        state.answer(rt, station.answering(label, 0, 1)?, 0, lines, None);
    }
    Ok(())
}

// Lists what each camera holds.
fn list<R: Wait, W: Write + Drop>(
    rt: &R,
    station: &Station<W>,
    label: Option<&str>,
) -> Result<(), AllocError> {
    let cameras = station.cameras.all(rt, station.alloc)?;
    let answering = station.answering(label, 0, cameras.len())?;
    let mut place = 0usize;
    for state in cameras.as_slice() {
        hand(rt, state, Arc::try_clone(&answering)?, place, Request::List);
        place = place.saturating_add(1);
    }
    Ok(())
}

/// Tells the status of each camera.
pub(crate) fn status<R: Wait, W: Write + Drop>(
    rt: &R,
    station: &Station<W>,
    lines: &mut Lines,
) -> io::Result<()> {
    let cameras = station.cameras.all(rt, station.alloc)?;
    for state in cameras.as_slice() {
        tell_status(rt, state, lines)?;
    }
    Ok(())
}
