// Scripts, run line by line.
ghost use Rattle.std.specs.Prelude.{◌≡◌};
ghost use Rattle.loop_script.specs.Sessions.{stored_since};

use loop_record::Span;
use loop_script::{
    Listing, MAX_LINE, ScriptCommand, ScriptDesk, next_line, print_line, print_parts,
    print_refusal, read_command, upgrade_words,
};
use loop_store::{ReadFrame, StoreFault};
use std::alloc::Allocator;
use std::io::{BufReader, BufWriter, Error, Read, Write};
use std::{io, str};

// The most lines of a script.
const MAX_LINES: u32 = 1_000_000;

// How many bytes of a frame `read` prints.
const SHOWN_BYTES: usize = 8;

// Why a script ends before its last line.
#[derive(Drop)]
enum ScriptFault {
    // The line of this number, from 1, can't be read.
    BadLine(u32),
    // A line couldn't be written.
    Write(Error),
}

impl From<Error> for ScriptFault {
    fn from(error: Error) -> ScriptFault {
        ScriptFault::Write(error)
    }
}

/// Runs a script on a disk in memory and returns the program's status: 0 where each line was run, refused or not; 1
/// where a line can't be read, whose number is then printed on `err`, where `out` or `err` fails, and where memory for
/// the buffers of input and output is refused. Each line is run, and its lines are printed, before the next one is
/// read; and before the program waits for input, `out` has all of them.
pub fn simulate<A: Allocator + Copy, R: Read, W: Write, E: Write>(
    alloc: A,
    input: R,
    out: &mut W,
    err: &mut E,
) -> u8
where
    R: Drop,
{
    let line = Vec::with_capacity(alloc, MAX_LINE + 1);
    let reader = BufReader::new(alloc, input);
    let writer = BufWriter::new(alloc, out);
    match (line, reader, writer) {
        (Ok(mut line), Ok(mut reader), Ok(mut writer)) => {
            let ran = run_script(alloc, &mut reader, &mut line, &mut writer);
            let written = writer.flush();
            status_of(ran, written, err)
        }
        _ => {
            // Dropped: where standard error is closed, only the status reports it.
            let _ = print_refusal(err, StoreFault::NoMemory);
            1
        }
    }
}

// The status of a run, and of the last write of what it printed. A line that can't be read is reported.
fn status_of<E: Write>(ran: Result<(), ScriptFault>, written: io::Result<()>, err: &mut E) -> u8 {
    match (ran, written) {
        (Ok(()), Ok(())) => 0,
        (Err(ScriptFault::BadLine(number)), Ok(())) => {
            // Dropped: the status is the same where this can't be printed.
            let _ = print_bad_line(number, err);
            1
        }
        _ => 1,
    }
}

// Prints which line can't be read.
fn print_bad_line<E: Write>(number: u32, err: &mut E) -> io::Result<()> {
    print_parts(err, "line", &[(" ", u64::from(number))])?;
    print_line(err, ": bad command", &[])
}

// Runs the lines of a script, up to the first that can't be read.
fn run_script<A: Allocator + Copy, R: Read, W: Write>(
    alloc: A,
    input: &mut BufReader<R, A>,
    line: &mut Vec<u8, A>,
    out: &mut W,
) -> Result<(), ScriptFault> {
    let mut simulation = Simulation::new(alloc);
    for number in 1..=MAX_LINES {
        if !run_line(&mut simulation, number, input, line, out)? {
            return Ok(());
        }
    }
    match next_line(input, line) {
        Ok(false) => Ok(()),
        _ => Err(ScriptFault::BadLine(MAX_LINES + 1)),
    }
}

// Runs the next line, of this number; false where no line is left.
fn run_line<A: Allocator + Copy, R: Read, W: Write>(
    simulation: &mut Simulation<A>,
    number: u32,
    input: &mut BufReader<R, A>,
    line: &mut Vec<u8, A>,
    out: &mut W,
) -> Result<bool, ScriptFault> {
    show_before_waiting(input, out)?;
    match next_line(input, line) {
        Err(_) => Err(ScriptFault::BadLine(number)),
        Ok(false) => Ok(false),
        Ok(true) => {
            simulation.run(command_in(line, number)?, out)?;
            Ok(true)
        }
    }
}

// What the line of this number asks for.
fn command_in(line: &[u8], number: u32) -> Result<ScriptCommand, ScriptFault> {
    let Ok(text) = str::from_utf8(line) else {
        return Err(ScriptFault::BadLine(number));
    };
    read_command(text).ok_or(ScriptFault::BadLine(number))
}

// Writes out what was printed, where the buffer has no whole line of input and the next read may wait. Lines that are
// there already are answered first, in one write.
fn show_before_waiting<A: Allocator, R: Read, W: Write>(
    input: &BufReader<R, A>,
    out: &mut W,
) -> io::Result<()> {
    if input.buffer().contains(&b'\n') {
        return Ok(());
    }
    out.flush()
}

// The desk of a script, from its first accepted `format` on, until a `reopen` is refused.
#[derive(Drop)]
struct Simulation<A: Allocator + Copy> {
    alloc: A,
    session: Option<ScriptDesk<A>>,
}

impl<A: Allocator + Copy> Simulation<A> {
    fn new(alloc: A) -> Self {
        Simulation {
            alloc,
            session: None,
        }
    }

    // Does what a line asks for and prints what came of it, refusals too. Only a failed write is an error.
    fn run<W: Write>(&mut self, command: ScriptCommand, out: &mut W) -> io::Result<()> {
        match (command, &mut self.session) {
            (ScriptCommand::Format(geometry), _) => self.begin(
                ScriptDesk::format(self.alloc, geometry),
                out,
            ),
            (ScriptCommand::FormatV1(geometry), _) => {
                self.begin(ScriptDesk::format_v1(self.alloc, geometry), out)
            }
            (ScriptCommand::Reopen(keep), _) => self.reopen(keep, out),
            (_, None) => print_refusal(out, StoreFault::NotFormatted),
            (ScriptCommand::Store(count), Some(session)) => store(session, self.alloc, count, out),
            (ScriptCommand::Submit(count), Some(session)) => submit(
                session, self.alloc, count, out,
            ),
            (ScriptCommand::Flush, Some(session)) => flush(session, out),
            (ScriptCommand::Read(number), Some(session)) => read(session, self.alloc, number, out),
            (ScriptCommand::Lock(span), Some(session)) => lock(session, span, out),
            (ScriptCommand::Unlock(id), Some(session)) => unlock(session, id, out),
            (ScriptCommand::Upgrade, Some(session)) => upgrade(session, out),
            (ScriptCommand::List, Some(session)) => list(session, self.alloc, out),
        }
    }

    // Takes a fresh store in place of the present one; where it was refused, the present one stays.
    fn begin<W: Write>(
        &mut self,
        formatted: Result<ScriptDesk<A>, StoreFault>,
        out: &mut W,
    ) -> io::Result<()> {
        match formatted {
            Err(fault) => print_refusal(out, fault),
            Ok(session) => {
                self.session = Some(session);
                print_line(out, "formatted", &[])
            }
        }
    }

    // Opens the store's disk again, with so many of the newest blocks kept. Where so many can't be, it is opened with
    // the newest one kept, and that is refused. An opening that is refused for want of memory leaves no store.
    fn reopen<W: Write>(&mut self, keep: u32, out: &mut W) -> io::Result<()> {
        let Some(session) = self.session.take() else {
            return print_refusal(out, StoreFault::NotFormatted);
        };
        let (keep, refusal) = if session.can_keep(keep) {
            (keep, None)
        } else {
            (1, Some(StoreFault::BadKeep))
        };
        match session.reopen(self.alloc, keep) {
            Err(fault) => print_refusal(out, fault),
            Ok(session) => {
                self.session = Some(session);
                print_opened(refusal, out)
            }
        }
    }
}

// Prints that a store was opened, or why it wasn't as was asked for.
fn print_opened<W: Write>(refusal: Option<StoreFault>, out: &mut W) -> io::Result<()> {
    match refusal {
        Some(fault) => print_refusal(out, fault),
        None => print_line(out, "opened", &[]),
    }
}

// Submits and flushes so many frames, up to the first refusal, and prints what the flushes stored.
fn store<A: Allocator + Copy, W: Write>(
    session: &mut ScriptDesk<A>,
    alloc: A,
    count: u64,
    out: &mut W,
) -> io::Result<()> {
    let before = session.next();
    let refusal = store_up_to(session, alloc, count);
    print_done("stored", since(before, session), refusal, out)
}

// Stores the first of the frames that wait, and prints which.
fn flush<A: Allocator + Copy, W: Write>(
    session: &mut ScriptDesk<A>,
    out: &mut W,
) -> io::Result<()> {
    let before = session.next();
    let refusal = session.flush().err();
    print_done("stored", since(before, session), refusal, out)
}

// Submits so many frames, up to the first refusal, and prints the numbers that they will have.
fn submit<A: Allocator + Copy, W: Write>(
    session: &mut ScriptDesk<A>,
    alloc: A,
    count: u64,
    out: &mut W,
) -> io::Result<()> {
    let (submitted, refusal) = submit_up_to(session, alloc, count);
    print_done("submitted", submitted, refusal, out)
}

// Prints the first and the last number of what was done, if anything was, or that nothing was; and then the refusal
// that ended it, if one did.
fn print_done<W: Write>(
    done: &str,
    numbers: Option<(u64, u64)>,
    refusal: Option<StoreFault>,
    out: &mut W,
) -> io::Result<()> {
    print_numbers(done, numbers, refusal.is_none(), out)?;
    match refusal {
        Some(fault) => print_refusal(out, fault),
        None => Ok(()),
    }
}

// Prints the first and the last number of what was done; or that nothing was, where all that was asked for is done.
fn print_numbers<W: Write>(
    done: &str,
    numbers: Option<(u64, u64)>,
    is_all: bool,
    out: &mut W,
) -> io::Result<()> {
    match numbers {
        Some((first, last)) => print_line(out, done, &[(" ", first), ("..", last)]),
        None if is_all => print_none(done, out),
        None => Ok(()),
    }
}

// Prints that nothing was done.
fn print_none<W: Write>(done: &str, out: &mut W) -> io::Result<()> {
    print_parts(out, done, &[])?;
    print_line(out, " none", &[])
}

// The first and the last number of what was stored since a number was the next one, if anything was.
fn since<A: Allocator + Copy>(before: u64, session: &ScriptDesk<A>) -> Option<(u64, u64)>
    ensures { result ≡ stored_since before session.now.desk.store.next }
{
    let next = session.next();
    if before < next {
        Some((before, next - 1))
    } else {
        None
    }
}

// Submits and flushes so many frames; returns the refusal that stopped it, if one did.
fn store_up_to<A: Allocator + Copy>(
    session: &mut ScriptDesk<A>,
    alloc: A,
    count: u64,
) -> Option<StoreFault> {
    for _ in 0..count {
        match session.store_next(alloc) {
            // What was stored shows in the store's next number.
            Ok(_) => (),
            Err(fault) => return Some(fault),
        }
    }
    None
}

// The first and the last number of the frames that were submitted, if any, and the refusal that stopped it, if one did.
fn submit_up_to<A: Allocator + Copy>(
    session: &mut ScriptDesk<A>,
    alloc: A,
    count: u64,
) -> (Option<(u64, u64)>, Option<StoreFault>) {
    let mut submitted = None;
    for _ in 0..count {
        match session.submit_next(alloc) {
            Ok(number) => {
                let first = submitted.map_or(number, |(first, _)| first);
                submitted = Some((first, number));
            }
            Err(fault) => return (submitted, Some(fault)),
        }
    }
    (submitted, None)
}

// Reads a frame, and prints it.
fn read<A: Allocator + Copy, W: Write>(
    session: &mut ScriptDesk<A>,
    alloc: A,
    number: u64,
    out: &mut W,
) -> io::Result<()> {
    match session.read(alloc, number) {
        Err(fault) => print_refusal(out, fault),
        Ok(frame) => print_frame(&frame, number, out),
    }
}

// Prints a frame's head and its first bytes.
fn print_frame<A: Allocator, W: Write>(
    frame: &ReadFrame<A>,
    number: u64,
    out: &mut W,
) -> io::Result<()> {
    let sequence = u64::from(frame.head.sequence);
    let time = frame.head.timestamp;
    print_parts(
        out,
        "frame",
        &[(" ", number), (" sequence ", sequence), (" time ", time)],
    )?;
    print_bytes(&frame.bytes, out)
}

// Ends the line of a frame with its first bytes.
fn print_bytes<W: Write>(bytes: &[u8], out: &mut W) -> io::Result<()> {
    print_parts(out, " bytes ", &[])?;
    for byte in bytes.iter().take(SHOWN_BYTES) {
        write!(out, "{byte:02x}")?;
    }
    print_line(out, "", &[])
}

// Locks a clip, and prints its id.
fn lock<A: Allocator + Copy, W: Write>(
    session: &mut ScriptDesk<A>,
    span: Span,
    out: &mut W,
) -> io::Result<()> {
    match session.lock(span.from, span.to, span.tag) {
        Err(fault) => print_refusal(out, fault),
        Ok(id) => print_line(out, "locked", &[(" ", u64::from(id))]),
    }
}

// Unlocks a clip.
fn unlock<A: Allocator + Copy, W: Write>(
    session: &mut ScriptDesk<A>,
    id: u32,
    out: &mut W,
) -> io::Result<()> {
    match session.unlock(id) {
        Err(fault) => print_refusal(out, fault),
        Ok(()) => print_line(out, "unlocked", &[(" ", u64::from(id))]),
    }
}

// Makes version 2 of the layout, and prints whether it did so or that it was there.
fn upgrade<A: Allocator + Copy, W: Write>(
    session: &mut ScriptDesk<A>,
    out: &mut W,
) -> io::Result<()> {
    match session.upgrade() {
        Err(fault) => print_refusal(out, fault),
        Ok(made) => print_line(out, upgrade_words(made), &[]),
    }
}

// Prints what is listed of the desk.
fn list<A: Allocator + Copy, W: Write>(
    session: &ScriptDesk<A>,
    alloc: A,
    out: &mut W,
) -> io::Result<()> {
    match session.outline(alloc) {
        Err(fault) => print_refusal(out, fault),
        Ok(outline) => Listing::of_outline(outline).print(out),
    }
}
