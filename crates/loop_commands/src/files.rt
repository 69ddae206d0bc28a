// Commands on stores in files.
ghost use Rattle.std.specs.Prelude.{IsTrue};
ghost use Rattle.loop_record.specs.Geometry.{is_good};

use crate::on_store::{
    Beneath, ExportTarget, Reported, export_along, export_apart, list, lock, unlock, upgrade,
};
use crate::undone::{Undone, tell};
use loop_disk::Disk;
use loop_file::{AheadDisk, FileDisk, FileFault, FilePlace, TextFile};
use loop_record::Geometry;
use loop_script::{FileCommand, print_line};
use loop_store::{OpenRefused, Store, StoreFault};
use loop_y4m::ExportFault;
use std::alloc::{AllocGlobal, Global};
use std::fs::File;
use std::io::{BufWriter, Write};
use std::os::unix::fs::MetadataExt;
use std::rt::Files;
use std::{fs, io};

// How many bytes of a store are fetched at once where an export reads on in sequence.
const READ_AHEAD: usize = 65_536;

// The program's own output as a path.
const OWN_OUTPUT: &str = "/dev/stdout";

// Where the text of an export is written to, once it is open.
#[derive(Drop)]
enum OpenTarget {
    // Through the program's own output, before what is printed. Where that is a file, its lock is held.
    Own(Option<TextFile>),
    // Elsewhere.
    Apart(TextFile),
}

impl ExportTarget for TextFile {
    fn empty(&mut self) -> io::Result<()> {
        TextFile::empty(self)
    }

    fn settle(&mut self) -> io::Result<()> {
        TextFile::settle(self)
    }
}

impl Beneath for Option<TextFile> {
    fn settle(&self) -> io::Result<()> {
        match self {
            Some(file) => file.settle(),
            None => Ok(()),
        }
    }
}

/// Does a command on the store in the file of this path, and returns the program's status: 0; 1 where the file can't be
/// opened or the store refuses, which is then printed on `err`, and where `out` or `err` fails.
pub fn run_on_file<R: AllocGlobal + Files<File = File>, W: Write, E: Write>(
    rt: &R,
    path: &str,
    command: FileCommand<'_>,
    out: &mut W,
    err: &mut E,
) -> u8 {
    match run_command(rt, path, command, out) {
        Ok(()) => 0,
        Err(undone) => tell(undone, err),
    }
}

// Does a command, and writes all that it prints at once. Memory for that is taken first.
fn run_command<'a, R: AllocGlobal + Files<File = File>, W: Write>(
    rt: &R,
    path: &'a str,
    command: FileCommand<'a>,
    out: &mut W,
) -> Result<(), Undone<'a>> {
    let Ok(mut out) = BufWriter::new(rt.alloc(), &mut *out) else {
        return Err(Undone::Refused(StoreFault::NoMemory));
    };
    print_command(rt, path, command, &mut out)?;
    out.flush()?;
    Ok(())
}

// Does a command, and prints what came of it.
fn print_command<'a, R: AllocGlobal + Files<File = File>, W: Write>(
    rt: &R,
    path: &'a str,
    command: FileCommand<'a>,
    out: &mut W,
) -> Result<(), Undone<'a>> {
    match command {
        FileCommand::Format(geometry) => print_format(rt, path, geometry, out),
        FileCommand::List => ended(list(&open(rt, path)?, rt.alloc(), out)),
        FileCommand::Lock(span) => ended(lock(&mut open(rt, path)?, span, out)),
        FileCommand::Unlock(id) => ended(unlock(&mut open(rt, path)?, id, out)),
        FileCommand::Upgrade => ended(upgrade(&mut open(rt, path)?, out)),
        FileCommand::Export(from, to, target) => print_export(rt, path, (from, to), target, out),
    }
}

// Makes the file anew, and prints that.
fn print_format<'a, R: AllocGlobal + Files<File = File>, W: Write>(
    rt: &R,
    path: &'a str,
    geometry: Geometry,
    out: &mut W,
) -> Result<(), Undone<'a>> {
    format(rt, path, geometry)?;
    print_line(out, "formatted", &[])?;
    Ok(())
}

// The first error of a command on a store: its refusal, or a failed print.
fn ended<'a, T: Drop>(reported: Reported<T>) -> Result<(), Undone<'a>> {
    reported.answer?;
    reported.printed?;
    Ok(())
}

// Exports frames, and prints how many. Both files are opened before the store is looked for.
fn print_export<'a, R: AllocGlobal + Files<File = File>, W: Write>(
    rt: &R,
    path: &'a str,
    (from, to): (u64, u64),
    target: &'a str,
    out: &mut W,
) -> Result<(), Undone<'a>> {
    let Ok(disk) = FileDisk::open(rt, path) else {
        return Err(Undone::CannotOpen(path));
    };
    let opened = open_target(rt, target)?;
    let mut store = find_ahead(rt.alloc(), disk)?;
    match opened {
        OpenTarget::Own(beneath) => {
            let reported = export_along(rt.alloc(), &mut store, from, to, out, &beneath);
            is_exported(reported.answer.err(), reported.printed, target)
        }
        OpenTarget::Apart(text) => {
            let reported = export_apart(rt.alloc(), &mut store, from, to, text, out);
            let fault = reported.answer.err().map(|refused| refused.fault);
            is_exported(fault, reported.printed, target)
        }
    }
}

// Ok where frames were exported to where a path leads, and that was printed.
fn is_exported<'a>(
    fault: Option<ExportFault>,
    printed: io::Result<()>,
    target: &'a str,
) -> Result<(), Undone<'a>> {
    let Some(fault) = fault else {
        printed?;
        return Ok(());
    };
    match fault {
        ExportFault::Store(refusal) => Err(Undone::Refused(refusal)),
        ExportFault::Write => Err(Undone::CannotWrite(target)),
    }
}

// Makes the file anew, with a store in it. A bad geometry is refused before the path is looked at.
fn format<'a, R: AllocGlobal + Files<File = File>>(
    rt: &R,
    path: &'a str,
    geometry: Geometry,
) -> Result<(), Undone<'a>> {
    match geometry.check() {
        Ok(()) => (),
        Err(_) => return Err(Undone::Refused(StoreFault::BadGeometry)),
    }
    match FilePlace::of(rt, path) {
        Err(fault) => Err(cannot_make(path, fault)),
        Ok(place) => format_at(rt, path, place, geometry),
    }
}

// Makes the file of a place anew, with a store in it. Where the store is refused, the file is given up.
fn format_at<'a, R: AllocGlobal + Files<File = File>>(
    rt: &R,
    path: &'a str,
    mut place: FilePlace,
    geometry: Geometry,
) -> Result<(), Undone<'a>>
    requires { IsTrue (is_good geometry) }
{
    match place.create(rt, geometry.disk_size()) {
        Err(fault) => Err(cannot_make(path, fault)),
        Ok(disk) => match loop_store::format(rt.alloc(), disk, geometry) {
            Err(OpenRefused { fault, disk }) => {
                place.give_up(rt, disk);
                Err(Undone::Refused(fault))
            }
            Ok(_) => Ok(()),
        },
    }
}

// Why the file of a path can't be made.
fn cannot_make(path: &str, fault: FileFault) -> Undone<'_> {
    match fault {
        FileFault::NoMemory => Undone::Refused(StoreFault::NoMemory),
        _ => Undone::CannotOpen(path),
    }
}

// The store on an open file, which is read ahead.
fn find_ahead<'a>(alloc: Global, disk: FileDisk) -> Result<Store<AheadDisk<FileDisk>>, Undone<'a>> {
    match AheadDisk::new(alloc, disk, READ_AHEAD) {
        Ok(disk) => find(alloc, disk),
        Err(_) => Err(Undone::Refused(StoreFault::NoMemory)),
    }
}

// Opens what a text is written to, and changes nothing of it. A file that is locked is a store in use, perhaps the one
// that is exported.
fn open_target<'a, R: AllocGlobal + Files<File = File>>(
    rt: &R,
    target: &'a str,
) -> Result<OpenTarget, Undone<'a>> {
    if is_own_output(rt, target) {
        return own_output(rt, target);
    }
    match TextFile::open(rt, target) {
        Ok(text) => Ok(OpenTarget::Apart(text)),
        Err(_) => Err(Undone::CannotWrite(target)),
    }
}

// Whether a path leads to the program's own output: to the same file, pipe or terminal, by whatever name.
fn is_own_output<R: Files<File = File>>(rt: &R, target: &str) -> bool {
    if target == OWN_OUTPUT {
        return true;
    }
    match (fs::metadata(rt, target), fs::metadata(rt, OWN_OUTPUT)) {
        (Ok(there), Ok(own)) => there.dev() == own.dev() && there.ino() == own.ino(),
        _ => false,
    }
}

// The program's own output, whatever that is. Where it is a file, its lock is taken as that of any other: it may be the
// store that is exported. A file that can't be opened anew is written nevertheless.
fn own_output<'a, R: AllocGlobal + Files<File = File>>(
    rt: &R,
    target: &'a str,
) -> Result<OpenTarget, Undone<'a>> {
    match fs::metadata(rt, target) {
        Ok(data) if data.is_file() => (),
        _ => return Ok(OpenTarget::Own(None)),
    }
    match TextFile::open(rt, target) {
        Ok(text) => Ok(OpenTarget::Own(Some(text))),
        // It is in use, or it can't be seen whether it is.
        Err(FileFault::Busy | FileFault::Failed) => Err(Undone::CannotWrite(target)),
        Err(_) => Ok(OpenTarget::Own(None)),
    }
}

// Opens the file, and then the store in it.
fn open<'a, R: AllocGlobal + Files<File = File>>(
    rt: &R,
    path: &'a str,
) -> Result<Store<FileDisk>, Undone<'a>> {
    match FileDisk::open(rt, path) {
        Err(_) => Err(Undone::CannotOpen(path)),
        Ok(disk) => find(rt.alloc(), disk),
    }
}

// The store on an open file, or on one that is read ahead.
fn find<'a, D: Disk + Drop>(alloc: Global, disk: D) -> Result<Store<D>, Undone<'a>> {
    match Store::open(alloc, disk) {
        Err(OpenRefused { fault, disk: _ }) => Err(Undone::Refused(fault)),
        Ok(store) => Ok(store),
    }
}
