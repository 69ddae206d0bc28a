//! A source's thread: it opens the source again and again, and gives its frames to the camera's feed. A source is
//! refused where its frames aren't as the store has them, and that is printed once; its frames are dropped until they
//! are.
//!
//! A pipe stays open when its writer has left, so that no frame of the next writer is lost. Each stream in it begins
//! with a header. A frame that isn't whole is dropped, also where the next writer's header stands in the place of its
//! rest.
//!
//! A header may also follow in the line of a frame, or after a frame whose end has its first bytes: then the next frames
//! aren't lost.
//!
//! A writer that went on while the program was begun anew gives no header again. Then its frames are read from their
//! next line on, as the store has them. Where that can't be, the pipe is closed: its writer ends, and comes again.

ghost use Rattle.std.specs.Prelude.{◌≡◌, IfSome, length};

use loop_capture::{FrameSource, Pattern};
use loop_desk::frame_memory;
use loop_record::Geometry;
use loop_station_camera::{CameraState, said_of, tell_other};
use loop_station_core::{Act, SourceEvent};
use loop_station_outside::{Input, Joined, PathKind, Places, find_header, has_frame_line};
use loop_station_shared::{Outlet, Said};
use loop_station_words::{LossesFrom, RingSize, Source, frames_before, size_of};
use loop_y4m::{Depth, FrameLine, GeometryFault, Y4mFault, Y4mReader, write_deep_header};
use std::alloc::{AllocGlobal, Global};
use std::fs::{File, OpenFile};
use std::io::{Read, Write};
use std::os::unix::fs::{FileTypeExt, MetadataExt};
use std::sync::{Arc, Wait};
use std::time::{Clock, Duration};
use std::{io, thread};

// How many milliseconds pass before a source that ended, broke or isn't there is opened again.
const OPEN_AGAIN: u64 = 200;

// A pipe that was closed so that its writer ends is opened again after twice as many milliseconds each time, and so
// many at most: a writer of few frames has to meet it closed.
const CLOSED_MOST: u64 = 60_000;

// How many milliseconds pass before it is looked again whether an ended camera still reads from the source.
const NEXT_READER: u64 = 5;

// How many milliseconds pass before it is looked again whether the store is open, whose frames a source may go on with.
const STORE_AGAIN: u64 = 20;

// How many lines of a frame are looked at that no frame of the store's size follows.
const CANDIDATES: u32 = 16;

// How many bytes of lines may stand between two frames.
const LINES: u64 = 8_192;

// How many milliseconds pass before a pipe without a writer is read again.
const READ_AGAIN: u64 = 20;

// After so many such reads it is looked whether the pipe still has its name.
const READS: u32 = 10;

// Where a frame ends with so many bytes of a header's beginning, or more, it isn't whole. Fewer may be pixels.
const BEGUN: usize = 6;

// How many bytes tell that a frame's bytes begin with the line of another one.
const LINE_BEGUN: usize = 6;

/// A ring of any size: the store's own is chosen elsewhere.
const ANY_RING: RingSize = RingSize {
    segments: 2,
    slots: 1,
};

// How many milliseconds a source waits for the memory of an earlier frame where it gets none for the next.
const MEMORY_AGAIN: u64 = 10;

// A source that is later than so many microseconds gives its frames at its rate from now on.
const LATE: u64 = 1_000_000;

/// What the frames of a source are like, where that can be known at the start: those of the pattern, and those of a
/// regular file, by its header. None for a pipe, and where the header can't be read.
pub(crate) fn known_frames<R: AllocGlobal + Places>(rt: &R, source: &Source) -> Option<Geometry> {
    match source {
        Source::Pattern(shape) => Some(shape.geometry(ANY_RING)),
        Source::Path(path) if rt.path_kind(path.as_str()) == PathKind::File => {
            frames_of_file(rt, path.as_str())
        }
        Source::Path(_) => None,
    }
}

// What the header of a file says of its frames.
fn frames_of_file<R: AllocGlobal + Places>(rt: &R, path: &str) -> Option<Geometry> {
    let mut input = Input::new(rt.alloc(), rt.open_input(path).ok()?)?;
    let (reader, _) = Y4mReader::open_deep(&mut input).ok()?;
    reader.geometry(ANY_RING.segments, ANY_RING.slots).ok()
}

/// The pipe of a camera's source, opened at once, where one of these cameras reads from it: none of its writers ends as
/// long as it is open.
pub(crate) fn held_pipe<R: AllocGlobal + Places>(
    rt: &R,
    state: &CameraState,
    readers: &[Arc<CameraState>],
) -> Option<File> {
    let Source::Path(path) = &state.config.source else {
        return None;
    };
    let is_read = readers
        .iter()
        .any(|other| other.config.source.is_that(&state.config.source));
    if !is_read || rt.path_kind(path.as_str()) != PathKind::Pipe {
        return None;
    }
    rt.open_orders(path.as_str()).ok()
}

/// The thread of a source: it gives its frames to a camera's feed once none of these ended cameras reads from the same
/// source any more. `held`: its pipe, which was held open so that its writer doesn't end meanwhile.
pub(crate) fn run_source_after<R: AllocGlobal + Places + Wait + Clock, W: Write + Drop>(
    rt: &R,
    state: &CameraState,
    outlet: &Outlet<W>,
    before: Vec<Arc<CameraState>>,
    held: Option<File>,
) {
    let is_read = |other: &Arc<CameraState>| {
        !other.has_source_ended() && other.config.source.is_that(&state.config.source)
    };
    for _ in rt.forever() {
        if state.is_stopped(rt) || !before.iter().any(is_read) {
            break;
        }
        thread::sleep(rt, Duration::from_millis(NEXT_READER));
    }
    drop(before);
    run_source(rt, state, outlet, held);
    state.end_source();
}

// Gives a source's frames to a camera's feed, and opens it again where it ends or breaks, until the camera is stopped.
fn run_source<R: AllocGlobal + Places + Wait + Clock, W: Write + Drop>(
    rt: &R,
    state: &CameraState,
    outlet: &Outlet<W>,
    held: Option<File>,
) {
    let mut held = held;
    let mut rest = OPEN_AGAIN;
    for _ in rt.forever() {
        if state.is_stopped(rt) {
            break;
        }
        let is_broken = match &state.config.source {
            Source::Pattern(shape) => {
                play_pattern(rt, state, outlet, &shape.geometry(ANY_RING));
                false
            }
            Source::Path(path) => play_file(rt, state, outlet, path.as_str(), held.take()),
        };
        rest = if is_broken {
            rest.saturating_mul(2).min(CLOSED_MOST)
        } else {
            OPEN_AGAIN
        };
        thread::sleep(rt, Duration::from_millis(rest));
    }
}

// When frames are due, of a source that doesn't set the pace itself.
#[derive(Drop)]
struct Beat {
    start: u64,
    count: u64,
    num: u32,
    den: u32,
}

impl Beat {
    // Sleeps until the next frame is due.
    fn wait<R: Clock>(&mut self, rt: &R, state: &CameraState) {
        let now = state.timeline.now(rt);
        let passed = u128::from(self.count) * 1_000_000 * u128::from(self.den)
            / u128::from(self.num.max(1));
        let due = self
            .start
            .saturating_add(u64::try_from(passed).unwrap_or(u64::MAX));
        if due > now {
            thread::sleep(rt, Duration::from_micros(due.saturating_sub(now)));
        } else if now > due.saturating_add(LATE) {
            self.start = now;
            self.count = 0;
        }
        self.count = self.count.saturating_add(1);
    }
}

// A beat that begins now, at a geometry's rate.
fn beat_of<R: Clock>(rt: &R, state: &CameraState, geometry: &Geometry) -> Beat {
    Beat {
        start: state.timeline.now(rt),
        count: 0,
        num: geometry.rate_num,
        den: geometry.rate_den,
    }
}

// Gives the frames of the pattern, each when it is due.
fn play_pattern<R: AllocGlobal + Wait + Clock, W: Write + Drop>(
    rt: &R,
    state: &CameraState,
    outlet: &Outlet<W>,
    geometry: &Geometry,
) {
    let Some(size) = size_of(geometry) else {
        return;
    };
    let mut pattern = Pattern::new();
    let mut beat = beat_of(rt, state, geometry);
    let said = Said {
        by_source: false,
        losses: LossesFrom::Nothing,
        ..said_of(state, geometry, 8)
    };
    for _ in rt.forever() {
        if state.is_stopped(rt) {
            break;
        }
        let epoch = state.feed.epoch(rt);
        let fits = offer(rt, state, outlet, geometry, 8);
        beat.wait(rt, state);
        let Some(mut bytes) = row_for(rt, state, size) else {
            break;
        };
        // The pattern never ends, so its answer says nothing.
        let _more = pattern.next(&mut bytes);
        if fits {
            state.feed.give(rt, &state.timeline, bytes, said, epoch);
        }
    }
}

// Offers what a source's header says, and how many bits its samples have. Returns whether the store takes its frames.
// That it doesn't is printed, but not again while that is still the result.
fn offer<R: AllocGlobal + Wait + Clock, W: Write + Drop>(
    rt: &R,
    state: &CameraState,
    outlet: &Outlet<W>,
    geometry: &Geometry,
    bits: u32,
) -> bool {
    match state.life.offer(rt, *geometry, bits) {
        Act::Take => {
            state
                .feed
                .reserve(rt, frames_before(state.config.memory, geometry));
            true
        }
        Act::Refuse => {
            let mut lines = state.lines(rt.alloc());
            // Where memory for the line is refused, it isn't printed.
            if tell_other(rt, state, geometry, &mut lines).is_ok() {
                outlet.put(rt, &lines);
            }
            false
        }
        _ => false,
    }
}

// Gives the frames of a file or pipe, which may be open already: those of a file each when it is due, those of a pipe as
// they come. Returns whether it is closed so that its writer ends.
fn play_file<R: AllocGlobal + Places + Wait + Clock, W: Write + Drop>(
    rt: &R,
    state: &CameraState,
    outlet: &Outlet<W>,
    path: &str,
    held: Option<File>,
) -> bool {
    let opened = match held {
        Some(file) => Ok(file),
        None => rt.open_input(path),
    };
    let Ok(file) = opened else {
        state.life.on_source(rt, SourceEvent::Missing);
        return false;
    };
    let Ok(metadata) = file.metadata() else {
        return false;
    };
    let place = if metadata.file_type().is_fifo() {
        Some((metadata.dev(), metadata.ino()))
    } else {
        None
    };
    let Some(mut input) = Input::new(rt.alloc(), file) else {
        return false;
    };
    let mut next = Next::Stream;
    for _ in rt.forever() {
        if !waits_for_more(rt, state, &mut input, path, place) {
            break;
        }
        let joined = next == Next::Joined;
        let end = play_stream(rt, state, outlet, &mut input, metadata.is_file(), joined);
        next = goes_on(rt, state, &mut input, end, joined);
        if matches!(next, Next::End | Next::Break) || place.is_none() {
            break;
        }
    }
    state.life.on_source(rt, SourceEvent::Read);
    if next == Next::Break && place.is_some() {
        return true;
    }
    state.life.on_source(rt, SourceEvent::Close);
    false
}

// Waits until an input has more, in a pipe for its next writer. Returns whether it has: not where the camera is
// stopped, where a read fails, at the end of what isn't a pipe, and where the path leads to another pipe by now.
fn waits_for_more<R: Places + Wait + Clock, I: Read + Drop>(
    rt: &R,
    state: &CameraState,
    input: &mut Input<I>,
    path: &str,
    place: Option<(u64, u64)>,
) -> bool {
    let mut reads = 0u32;
    for _ in rt.forever() {
        if state.is_stopped(rt) {
            return false;
        }
        begin_read(rt, state);
        let more = input.has_more();
        state.life.on_source(rt, SourceEvent::Read);
        match more {
            Ok(true) => return true,
            Ok(false) => {
                state.life.on_source(rt, SourceEvent::Close);
            }
            Err(_) => return false,
        }
        reads = reads.wrapping_add(1);
        if place.is_none() || reads % READS == 0 && rt.place_of(path).ok() != Some(place) {
            return false;
        }
        thread::sleep(rt, Duration::from_millis(READ_AGAIN));
    }
    unreachable!()
}

// The source's thread waits for a byte from now on.
fn begin_read<R: Wait + Clock>(rt: &R, state: &CameraState) {
    let now = state.timeline.now(rt);
    state.life.on_source(rt, SourceEvent::Wait(now));
}

// The bytes of a header's beginning with which a frame ended, which were too few to say that it wasn't whole: so many.
#[derive(Clone, Copy)]
struct Begun {
    bytes: [u8; BEGUN - 1],
    count: usize,
}

// None.
const NOT_BEGUN: Begun = Begun {
    bytes: [0; BEGUN - 1],
    count: 0,
};

// How a stream of frames ended.
#[derive(Drop)]
enum StreamEnd {
    // With its writer, or with the camera.
    Ended,
    // A read failed.
    Failed,
    // Its header can't be read, or is of what no store takes: the fault's name.
    Unusable(&'static str),
    // It doesn't begin with a header, of a pipe.
    NoHeader,
    // A line isn't a frame's, and may be the next header, or its rest: the last frame ended with these bytes of one.
    OtherLine(Begun),
    // In the place of a frame the line of another one begins, whose header is in the line before: a header like this
    // stream's, and what came there.
    OtherFrame(Vec<u8>),
    // In the place of a frame's rest the next header begins: what came there.
    OtherHeader(Vec<u8>),
}

// What follows a stream.
#[derive(Clone, Copy, PartialEq, Eq)]
enum Next {
    // Another one, where its writer or the next one goes on.
    Stream,
    // The rest of one whose header isn't there any more.
    Joined,
    // Nothing: a read failed.
    End,
    // Nothing: its writer has to end.
    Break,
}

// Gives the line of a stream back that was read as the one of another; `begun`: what the frame before it may have begun
// of a header. None: the next header follows.
fn take_line<R: Wait, I: Read + Drop>(
    rt: &R,
    state: &CameraState,
    input: &mut Input<I>,
    begun: Begun,
    joined: bool,
) -> Option<Next> {
    input.return_line();
    let bytes = begun.bytes.get(..begun.count).unwrap_or(&[]);
    let is_whole = begun.count == 0 || input.begins_with().ok() == Some(Joined::Header);
    if !is_whole && !input.give_back(bytes) {
        return Some(Next::End);
    }
    if joined && input.begins_with().ok() != Some(Joined::Header) {
        // Its frames aren't as the store has them.
        state.life.set_unusable(rt, fault_name(Y4mFault::NotY4m));
        return Some(Next::Break);
    }
    None
}

// What follows a stream; `joined`: its header isn't its writer's own.
fn goes_on<R: AllocGlobal + Wait + Clock, I: Read + Drop>(
    rt: &R,
    state: &CameraState,
    input: &mut Input<I>,
    end: StreamEnd,
    joined: bool,
) -> Next {
    match end {
        StreamEnd::Ended => return Next::Stream,
        StreamEnd::Failed => return Next::End,
        StreamEnd::NoHeader => return join(rt, state, input),
        StreamEnd::Unusable(why) => {
            state.life.set_unusable(rt, why);
            input.return_rest_of_line();
        }
        StreamEnd::OtherFrame(text) => {
            if input.give_back(&text) {
                return Next::Joined;
            }
            return Next::End;
        }
        StreamEnd::OtherLine(begun) => {
            if let Some(next) = take_line(rt, state, input, begun, joined) {
                return next;
            }
        }
        StreamEnd::OtherHeader(bytes) => {
            if !input.give_back(&bytes) {
                return Next::End;
            }
        }
    }
    begin_read(rt, state);
    let found = input.seek_header();
    state.life.on_source(rt, SourceEvent::Read);
    if found.is_ok() {
        Next::Stream
    } else {
        Next::End
    }
}

// A writer goes on that gave its header before the program began: its frames are as the store has them, from the next
// line of one on. Without a store, or such a line, its writer has to end.
fn join<R: AllocGlobal + Wait + Clock, I: Read + Drop>(
    rt: &R,
    state: &CameraState,
    input: &mut Input<I>,
) -> Next {
    let header = header_of_store(rt, state);
    let size = match &header {
        Some((_, size)) => *size,
        None => 0,
    };
    begin_read(rt, state);
    let found = next_line(input, size);
    state.life.on_source(rt, SourceEvent::Read);
    match (found, header) {
        (Ok(Joined::Header), _) => Next::Stream,
        (Ok(Joined::Frame), Some((text, _))) if input.give_back(&text) => Next::Joined,
        (Ok(Joined::End), _) => {
            state.life.set_unusable(rt, fault_name(Y4mFault::NotY4m));
            Next::Stream
        }
        (Ok(_), _) => {
            state.life.set_unusable(rt, fault_name(Y4mFault::NotY4m));
            Next::Break
        }
        (Err(_), _) => Next::End,
    }
}

// Finds the next header, or the next line of a frame of so many bytes: one with which the input begins, as that of a
// writer that wrote nothing meanwhile, or one that another one follows.
fn next_line<I: Read + Drop>(input: &mut Input<I>, size: u64) -> io::Result<Joined> {
    let most = size.saturating_mul(2).saturating_add(LINES);
    for place in 0..CANDIDATES {
        let (joined, passed) = input.join(most)?;
        if joined != Joined::Frame || place == 0 && passed == 0 || input.is_frame(size)? {
            return Ok(joined);
        }
    }
    Ok(Joined::Other)
}

// The header that the frames of the store have, and the bytes of one, once it is known whether the store is open. None
// where it isn't, or has no frame.
fn header_of_store<R: AllocGlobal + Wait + Clock>(
    rt: &R,
    state: &CameraState,
) -> Option<(Vec<u8>, u64)> {
    for _ in rt.forever() {
        if state.jobs.attended(rt).is_some() || state.is_stopped(rt) {
            break;
        }
        thread::sleep(rt, Duration::from_millis(STORE_AGAIN));
    }
    let geometry = state.life.store(rt)?;
    let depth = Depth::of_bits(state.life.bits(rt).1?)?;
    let mut text = Vec::new(rt.alloc());
    write_deep_header(&geometry, depth, &mut text).ok()?;
    Some((text, u64::from(size_of(&geometry)?)))
}

// The name of the fault of a header.
fn fault_name(fault: Y4mFault) -> &'static str {
    match fault {
        Y4mFault::NotY4m => "NotY4m",
        Y4mFault::BadHeader => "BadHeader",
        Y4mFault::UnsupportedColour => "UnsupportedColour",
        Y4mFault::OddWidth => "OddWidth",
        Y4mFault::UnsupportedInterlace => "UnsupportedInterlace",
        Y4mFault::Truncated => "Truncated",
        Y4mFault::Read => "Read",
    }
}

// Gives the frames of a stream that begins with a header; `joined`: that isn't its writer's own.
fn play_stream<R: AllocGlobal + Wait + Clock, I: Read + Drop, W: Write + Drop>(
    rt: &R,
    state: &CameraState,
    outlet: &Outlet<W>,
    input: &mut Input<I>,
    paced: bool,
    joined: bool,
) -> StreamEnd {
    begin_read(rt, state);
    if !paced {
        if let Some(end) = refused_beginning(input) {
            return end;
        }
    }
    input.begin_line();
    let opened = Y4mReader::open_deep(&mut *input);
    state.life.on_source(rt, SourceEvent::Read);
    let (mut reader, depth) = match opened {
        Ok(opened) => opened,
        Err(Y4mFault::Truncated) => return StreamEnd::Ended,
        Err(fault) => return StreamEnd::Unusable(fault_name(fault)),
    };
    let geometry = match reader.geometry(ANY_RING.segments, ANY_RING.slots) {
        Ok(geometry) => geometry,
        Err(fault) => return StreamEnd::Unusable(geometry_fault_name(fault)),
    };
    let mut beat = beat_of(rt, state, &geometry);
    let said = said_of(state, &geometry, depth.bits());
    let said = if paced { paced_of(said) } else { said };
    state.feed.begin_stream(rt);
    // Its first frame may be one of another size.
    let mut is_doubted = joined;
    let mut begun = NOT_BEGUN;
    for _ in rt.forever() {
        if state.is_stopped(rt) {
            return StreamEnd::Ended;
        }
        if paced {
            beat.wait(rt, state);
        }
        let epoch = state.feed.epoch(rt);
        let fits = offer(rt, state, outlet, &geometry, depth.bits());
        match next_of(rt, state, &mut reader, paced) {
            Ok((bytes, _)) if is_doubted && has_frame_line(&bytes) => {
                return StreamEnd::OtherLine(begun);
            }
            Ok((bytes, line)) if fits => {
                is_doubted = false;
                begun = header_begun(&bytes);
                let said = said_with(said, line.time, line.number);
                state.feed.give(rt, &state.timeline, bytes, said, epoch);
            }
            Ok((bytes, _)) => {
                begun = header_begun(&bytes);
                state.feed.pass(rt);
            }
            Err(end) => return ended(rt.alloc(), &geometry, depth, begun, end),
        }
    }
    unreachable!()
}

// How a stream ends before its header: what waits in the input isn't one. None: it is one.
fn refused_beginning<I: Read + Drop>(input: &mut Input<I>) -> Option<StreamEnd> {
    match input.begins_with() {
        Ok(Joined::Header) => None,
        Ok(Joined::End) => Some(StreamEnd::Ended),
        Ok(Joined::Frame | Joined::Other) => Some(StreamEnd::NoHeader),
        Err(_) => Some(StreamEnd::Failed),
    }
}

// The name of what is wrong with the geometry of a header.
fn geometry_fault_name(fault: GeometryFault) -> &'static str {
    match fault {
        GeometryFault::RateUnknown => "RateUnknown",
        GeometryFault::BadGeometry => "BadGeometry",
    }
}

// What a frame's line says of it, and what its stream says of all.
fn said_with(said: Said, time: Option<u64>, number: Option<u64>) -> Said {
    Said {
        time,
        number,
        ..said
    }
}

// The same of a source whose pace is set here: when its frames come says nothing of those that are lost.
fn paced_of(said: Said) -> Said {
    let losses = match said.losses {
        _ if said.by_source => said.losses,
        LossesFrom::Either | LossesFrom::Numbers => LossesFrom::Numbers,
        LossesFrom::Times | LossesFrom::Nothing => LossesFrom::Nothing,
    };
    Said { losses, ..said }
}

// Memory for a frame of so many bytes: that of an earlier one, or new. Where new memory is refused, it waits for that
// of an earlier frame; None where the camera is stopped before that.
fn row_for<R: AllocGlobal + Wait + Clock>(rt: &R, state: &CameraState, size: u32) -> Option<Vec<u8>>
    ensures { IfSome result (λ bytes. length bytes.items ≡ size) }
{
    for _ in rt.forever() {
        let spare = state.feed.memory(rt);
        if let Ok(bytes) = frame_memory(rt.alloc(), spare, size as usize) {
            return Some(bytes);
        }
        if state.is_stopped(rt) {
            return None;
        }
        thread::sleep(rt, Duration::from_millis(MEMORY_AGAIN));
    }
    unreachable!()
}

// How a stream with this header ends, the last frame of which ended so.
fn ended(
    alloc: Global,
    geometry: &Geometry,
    depth: Depth,
    begun: Begun,
    end: StreamEnd,
) -> StreamEnd {
    match end {
        StreamEnd::OtherLine(_) => StreamEnd::OtherLine(begun),
        StreamEnd::OtherFrame(bytes) => {
            let mut text = Vec::new(alloc);
            // Where memory is refused, what follows is lost up to the next header.
            if write_deep_header(geometry, depth, &mut text).is_ok() {
                let _kept = text.extend_from_slice(&bytes);
            }
            StreamEnd::OtherFrame(text)
        }
        end => end,
    }
}

// The bytes of a header's beginning with which a frame ends.
fn header_begun(bytes: &[u8]) -> Begun {
    let mut begun = NOT_BEGUN;
    let end = bytes
        .get(bytes.len().saturating_sub(BEGUN - 1)..)
        .unwrap_or(&[]);
    if let Some(at) = find_header(end, 1) {
        let rest = end.get(at..).unwrap_or(&[]);
        for place in 0..BEGUN - 1 {
            if let Some(byte) = rest.get(place) {
                begun.bytes[place] = *byte;
                begun.count = place + 1;
            }
        }
    }
    begun
}

// Reads a frame, with what its line says, or how the stream ends instead.
fn next_of<R: AllocGlobal + Wait + Clock, I: Read + Drop>(
    rt: &R,
    state: &CameraState,
    reader: &mut Y4mReader<I>,
    paced: bool,
) -> Result<(Vec<u8>, FrameLine), StreamEnd> {
    let Some(mut bytes) = row_for(rt, state, reader.frame_bytes()) else {
        return Err(StreamEnd::Ended);
    };
    begin_read(rt, state);
    let came = reader.next_timed(&mut bytes);
    state.life.on_source(rt, SourceEvent::Read);
    let line = match came {
        Ok(Some(line)) => line,
        // A frame that breaks off is dropped.
        Ok(None) | Err(Y4mFault::Truncated) => return Err(StreamEnd::Ended),
        Err(Y4mFault::BadHeader) => return Err(StreamEnd::OtherLine(NOT_BEGUN)),
        Err(_) => return Err(StreamEnd::Failed),
    };
    // Several writers are of a pipe alone.
    if paced {
        return Ok((bytes, line));
    }
    if has_frame_line(bytes.get(..LINE_BEGUN).unwrap_or(&[])) {
        return Err(StreamEnd::OtherFrame(bytes));
    }
    match find_header(&bytes, BEGUN) {
        None => Ok((bytes, line)),
        Some(at) => {
            let mut rest = Vec::new(rt.alloc());
            // Where memory is refused, the next writer's frames are lost up to its next header.
            let _kept = rest.extend_from_slice(bytes.get(at..).unwrap_or(&[]));
            Err(StreamEnd::OtherHeader(rest))
        }
    }
}
