// Recordings into stores in files.
ghost use Rattle.std.specs.Prelude.{◌≡◌, IfOk, length, vec_len};
ghost use Rattle.loop_commands.specs.Recorded.{AreOpened};

use crate::cameras::{Take, Unrecorded, record_stores};
use crate::source::RecordSource;
use crate::undone::{Undone, tell};
use loop_capture::{Pattern, Y4mSource};
use loop_disk::Disk;
use loop_file::{FileDisk, open_to_read};
use loop_record::Geometry;
use loop_script::{
    Likeness, RecordTask, compare_frames, print_line, print_other_geometry, print_other_rate,
};
use loop_store::{OpenRefused, Store, StoreFault};
use loop_y4m::Y4mReader;
use std::alloc::{AllocGlobal, Global};
use std::fs::File;
use std::io;
use std::io::{BufReader, BufWriter, Read, Write};
use std::rt::Files;
use std::sync::Wait;
use std::thread::Threads;
use std::time::Clock;

// The word for the pattern, where other sources have a path.
const PATTERN: &str = "-";

// How many bytes of a source are fetched at once: as many as a pipe holds.
const SOURCE_AT_ONCE: usize = 65_536;

/// Records into the stores in files, prints each camera's next number, and returns the program's status: 0; 1 where a
/// file can't be opened, a store can't be opened or can't keep so many blocks, or a camera can't be set up, which is
/// then printed on `err`, and where `out` or `err` fails. What a store refuses during the recording leaves it at 0;
/// which frames a camera lost is printed on `err`.
pub(crate) fn run_record<
    R: AllocGlobal + Files<File = File> + Threads + Wait + Clock + Sync,
    W: Write,
    E: Write,
>(rt: &R, recording: RecordTask<'_>, out: &mut W, err: &mut E) -> u8 {
    match record_all(rt, &recording, out, err) {
        Ok(()) => 0,
        Err(undone) => tell(undone, err),
    }
}

// Opens each file in the order of the words, records, and prints each camera's next number. Memory to print is taken
// first. That a source has other frames than a store is printed before the recording; where it can't be printed, the
// run has failed.
fn record_all<
    'a,
    R: AllocGlobal + Files<File = File> + Threads + Wait + Clock + Sync,
    W: Write,
    E: Write,
>(rt: &R, recording: &RecordTask<'a>, out: &mut W, err: &mut E) -> Result<(), Undone<'a>> {
    let paths = recording.paths.words();
    let Ok(mut out) = BufWriter::new(rt.alloc(), &mut *out) else {
        return Err(Undone::Refused(StoreFault::NoMemory));
    };
    let sources = open_sources(rt, recording.source, paths.len())?;
    let disks = open_disks(rt, paths)?;
    let stores = find_stores(rt.alloc(), disks, recording.keep)?;
    let told = tell_others(recording.source, &sources, &stores, err);
    let takes = match record_stores(rt, rt.alloc(), sources, stores, recording.frames) {
        Ok(takes) => takes,
        Err(unrecorded) => return Err(blame(unrecorded, paths)),
    };
    let printed = print_all_next(takes.as_slice(), &mut out);
    // Lost frames are told where the output fails, too.
    print_lost(takes.as_slice(), err)?;
    printed?;
    told?;
    Ok(())
}

// Prints each camera's next number, and has it written.
fn print_all_next<W: Write>(takes: &[Take], out: &mut W) -> io::Result<()> {
    print_next(takes, out)?;
    out.flush()
}

// Prints, once, that the source has frames of another size or format than one of the stores, or of another rate.
fn tell_others<D: Disk + Drop, E: Write>(
    name: &str,
    sources: &[RecordSource],
    stores: &[Store<D>],
    err: &mut E,
) -> io::Result<()> {
    let mut other_rate = None;
    for (source, store) in sources.iter().zip(stores) {
        let RecordSource::Footage(_, footage) = source else {
            continue;
        };
        match compare_frames(footage, &store.geometry()) {
            Likeness::OtherGeometry => return print_other_geometry(err, name, footage),
            Likeness::OtherRate => other_rate = Some(footage),
            Likeness::Alike => {}
        }
    }
    match other_rate {
        Some(footage) if footage.rate_den > 0 => print_other_rate(err, name, footage),
        _ => Ok(()),
    }
}

// Why nothing was recorded, with the path of the camera that caused it.
fn blame<'a>(unrecorded: Unrecorded, paths: &[&'a str]) -> Undone<'a> {
    match unrecorded {
        Unrecorded::TooLarge(camera) => match paths.get(camera as usize) {
            Some(path) => Undone::CannotRecord(path),
            None => Undone::Refused(StoreFault::NoMemory),
        },
        Unrecorded::Refused(fault) => Undone::Refused(fault),
    }
}

// Opens a source for each of so many cameras.
fn open_sources<'a, R: AllocGlobal + Files<File = File>>(
    rt: &R,
    source: &'a str,
    count: usize,
) -> Result<Vec<RecordSource>, Undone<'a>>
    ensures { IfOk result (λ sources. vec_len sources ≡ count) }
{
    let mut sources = Vec::with_capacity(rt.alloc(), count)?;
    for _ in 0..count {
        sources.push_reserved(open_source(rt, source)?);
    }
    Ok(sources)
}

// Opens a source and reads its header.
fn open_source<'a, R: AllocGlobal + Files<File = File>>(
    rt: &R,
    source: &'a str,
) -> Result<RecordSource, Undone<'a>> {
    if source == PATTERN {
        return Ok(RecordSource::Pattern(Pattern::new()));
    }
    let Ok(file) = open_to_read(rt, source) else {
        return Err(Undone::CannotOpen(source));
    };
    let Ok(input) = BufReader::with_capacity(rt.alloc(), SOURCE_AT_ONCE, file) else {
        return Err(Undone::Refused(StoreFault::NoMemory));
    };
    match Y4mReader::open(input) {
        Ok(reader) => {
            let geometry = geometry_of(&reader);
            Ok(RecordSource::Footage(Y4mSource::new(reader), geometry))
        }
        Err(_) => Err(Undone::CannotOpen(source)),
    }
}

// The geometry that the header of a source gives, with a ring of any size. A rate that it doesn't give is 0:0.
fn geometry_of<I: Read + Drop>(reader: &Y4mReader<I>) -> Geometry {
    let (rate_num, rate_den) = reader.rate();
    Geometry {
        width: reader.width(),
        height: reader.height(),
        format: reader.format(),
        rate_num,
        rate_den,
        segments: 2,
        slots: 1,
    }
}

// Opens the files, in their order.
fn open_disks<'a, R: AllocGlobal + Files<File = File>>(
    rt: &R,
    paths: &[&'a str],
) -> Result<Vec<FileDisk>, Undone<'a>>
    ensures { IfOk result (λ disks. vec_len disks ≡ length paths.now) }
{
    let mut disks = Vec::with_capacity(rt.alloc(), paths.len())?;
    for path in paths {
        match FileDisk::open(rt, path) {
            Err(_) => return Err(Undone::CannotOpen(path)),
            Ok(disk) => disks.push_reserved(disk),
        }
    }
    Ok(disks)
}

// The store on each disk, which keeps so many of its newest blocks.
fn find_stores<'a, D: Disk + Drop>(
    alloc: Global,
    disks: Vec<D>,
    keep: u32,
) -> Result<Vec<Store<D>>, Undone<'a>>
    ensures count { IfOk result (λ stores. vec_len stores ≡ vec_len disks) }
    ensures opened { IfOk result (λ stores. AreOpened D.medium keep disks.items stores.items) }
{
    let mut stores = Vec::with_capacity(alloc, disks.len())?;
    for disk in disks {
        match Store::open_keeping(alloc, disk, keep) {
            Err(OpenRefused { fault, disk: _ }) => return Err(Undone::Refused(fault)),
            Ok(store) => stores.push_reserved(store),
        }
    }
    Ok(stores)
}

// Prints the number of each camera's next frame.
fn print_next<W: Write>(takes: &[Take], out: &mut W) -> io::Result<()> {
    let mut camera = 0u64;
    for take in takes {
        print_line(out, "camera", &[(" ", camera), (" next ", take.next)])?;
        camera = camera.saturating_add(1);
    }
    Ok(())
}

// Prints how many frames each camera lost, and how, where it lost one.
fn print_lost<E: Write>(takes: &[Take], err: &mut E) -> io::Result<()> {
    let mut camera = 0u64;
    for take in takes {
        if take.has_lost() {
            let counts = [
                (" ", camera),
                (" lost waiting ", take.waiting),
                (" given up ", take.given_up),
                (" left ", take.left),
                (" missed ", take.missed),
                (" failed ", take.failed),
            ];
            print_line(err, "camera", &counts)?;
        }
        camera = camera.saturating_add(1);
    }
    Ok(())
}
