//! The files and pipes of a station.

use crate::absent::Absent;
use crate::clock::Timeline;
use crate::not_saved::NotSaved;
use crate::part::{PartFile, lies_in};
use crate::path_kind::{PathKind, path_kind_at};
use loop_file::{FileDisk, FileFault, FilePlace, open_file, open_to_read};
use loop_record::Geometry;
use loop_station_core::goes_on;
use loop_station_words::{number_of, numbered};
use loop_store::{OpenRefused, Store, StoreFault, format};
use std::alloc::AllocGlobal;
use std::fs::{File, OpenFile, OpenOptions};
use std::io::{ErrorKind, Read};
use std::os::unix::fs::{FileExt, MetadataExt};
use std::rt::Files;
use std::sync::Wait;
use std::time::{Clock, Duration};
use std::{fs, io, thread};

// Where the system says how long it has run.
const UPTIME: &str = "/proc/uptime";

// How many syncs are made to see how long one takes, and after how many microseconds no further one is made.
const SYNCS: usize = 5;

const SYNC_MOST: u64 = 1_000_000;

// How many bytes of a store that is made are written at once, and how many such pieces are synced at once.
const PIECE: usize = 1_048_576;

const SYNCED: u64 = 16;

// How many microseconds it rests at most between such writes.
const REST_MOST: u64 = 1_000_000;

static ZEROS: [u8; PIECE] = [0; PIECE];

/// Who waits for a store that is made.
pub trait Maker {
    /// The clock by which its frames come.
    fn timeline(&self) -> Timeline;

    /// So much of it is made, in percent. Returns whether to go on.
    fn makes<R: Wait>(&self, rt: &R, percent: u32) -> bool;

    /// Whether frames go into another store meanwhile.
    fn is_filmed<R: Wait>(&self, rt: &R) -> bool;
}

/// Opens the files and pipes of a station, in whichever thread. It is a trait of its own, because a bound on
/// everything that files can do can't be carried into a thread.
pub trait Places {
    /// Opens a file or pipe to be read.
    fn open_input(&self, path: &str) -> io::Result<File>;

    /// Opens a pipe or device that a text is written to, or begins the unfinished file of a path (`PartFile`).
    fn open_text(&self, path: &str, replace: bool) -> Result<PartFile, NotSaved>;

    /// Gives a file whose text is whole its name, on the disk.
    fn finish_text(&self, file: &PartFile) -> Result<(), NotSaved>;

    /// Removes the unfinished file of a text.
    fn give_up_text(&self, file: &PartFile);

    /// Whether the file of a path lies in a folder, or in one below it.
    fn lies_in(&self, path: &str, folder: &str) -> bool;

    /// The text of a file.
    fn read_text(&self, path: &str) -> io::Result<String>;

    /// What a path leads to.
    fn path_kind(&self, path: &str) -> PathKind;

    /// Whether two paths lead to the same file, or would.
    fn is_same(&self, path: &str, other: &str) -> bool;

    /// Whether a path leads to a file of a camera with this path of its stores that has a number, also while that is
    /// made; or would, where there is none yet.
    fn is_numbered(&self, path: &str, store: &str) -> bool;

    /// Removes a file.
    fn remove(&self, path: &str) -> io::Result<()>;

    /// Opens the file or pipe that also gets everything that is printed. For a pipe it waits until someone reads.
    fn open_answers(&self, path: &str) -> io::Result<File>;

    /// Opens a pipe to be written, also while nobody reads it.
    fn hold_answers(&self, path: &str) -> io::Result<File>;

    /// Opens the file of a store.
    fn open_store(&self, path: &str) -> Result<FileDisk, FileFault>;

    /// Makes a store of a camera at a path where there is no file, and opens it. It is made as NAME.new in the same
    /// folder, and is renamed once it is complete. A NAME.new that an earlier run left is made anew, or just renamed
    /// where it is a store already. It is made in steps, after each of which the camera learns how much of the file is
    /// on the disk. Where it is stopped meanwhile, the file is removed, and the answer is `Stopped`.
    fn make_store<R: Wait + Clock, M: Maker>(
        &self,
        waits: &R,
        maker: &M,
        path: &str,
        geometry: Geometry,
    ) -> Result<Store<FileDisk>, Absent>;

    /// Opens the named pipe of orders to be read, also while it has no writer: then it is at its end, until the next
    /// one comes. A file is opened to be read.
    fn open_orders(&self, path: &str) -> io::Result<File>;

    /// The numbers of the files beside a path that have it with a number, in no order.
    fn numbers_beside(&self, path: &str) -> io::Result<Vec<u32>>;

    /// When what a path leads to was written last, in microseconds since 1970; None where that can't be seen.
    fn written_at(&self, path: &str) -> Option<u64>;

    /// The device and the inode of what a path leads to; None where nothing is there.
    fn place_of(&self, path: &str) -> io::Result<Option<(u64, u64)>>;

    /// How many microseconds the machine has run, also while it slept; None where the system doesn't say.
    fn uptime(&self) -> Option<u64>;

    /// How many microseconds a sync takes on the disk of a store, by a few of a file of its own beside the store, which
    /// has no name by then; None where that can't be made.
    fn sync_time(&self, path: &str, timeline: &Timeline) -> Option<u64>;
}

impl Places for HostRuntime {
    fn open_input(&self, path: &str) -> io::Result<File> {
        open_to_read(self, path)
    }

    fn open_text(&self, path: &str, replace: bool) -> Result<PartFile, NotSaved> {
        PartFile::open(self, path, path_kind_at(self, path), replace)
    }

    fn finish_text(&self, file: &PartFile) -> Result<(), NotSaved> {
        file.finish(self)
    }

    fn give_up_text(&self, file: &PartFile) {
        file.give_up(self);
    }

    fn lies_in(&self, path: &str, folder: &str) -> bool {
        lies_in(self, path, folder)
    }

    fn read_text(&self, path: &str) -> io::Result<String> {
        fs::read_to_string(self, path)
    }

    fn path_kind(&self, path: &str) -> PathKind {
        path_kind_at(self, path)
    }

    fn is_same(&self, path: &str, other: &str) -> bool {
        lead_to_one(self, path, other)
    }

    fn is_numbered(&self, path: &str, store: &str) -> bool {
        if is_named_so(self, path, store) {
            return true;
        }
        // A file may have two names.
        let Ok(numbers) = self.numbers_beside(store) else {
            return false;
        };
        numbers.iter().any(|number| match numbered(self.alloc(), store, (*number).min(999)) {
            Ok(other) => lead_to_one(self, path, other.as_str()),
            Err(_) => false,
        })
    }

    fn remove(&self, path: &str) -> io::Result<()> {
        fs::remove_file(self, path)
    }

    fn open_answers(&self, path: &str) -> io::Result<File> {
        open_file(self, OpenOptions::new().append(true).create(true), path)
    }

    fn hold_answers(&self, path: &str) -> io::Result<File> {
        // While this end is read, the other one can be opened at once. It alone is held.
        let _read = open_file(self, OpenOptions::new().read(true).write(true), path)?;
        open_file(self, OpenOptions::new().append(true), path)
    }

    fn open_store(&self, path: &str) -> Result<FileDisk, FileFault> {
        FileDisk::open(self, path)
    }

    fn make_store<R: Wait + Clock, M: Maker>(
        &self,
        waits: &R,
        maker: &M,
        path: &str,
        geometry: Geometry,
    ) -> Result<Store<FileDisk>, Absent> {
        make_at(self, waits, maker, path, geometry)
    }

    fn open_orders(&self, path: &str) -> io::Result<File> {
        if path_kind_at(self, path) == PathKind::Pipe {
            // While this end is written, the other one is opened at once. It alone is held.
            if let Ok(_both) = open_file(self, OpenOptions::new().read(true).write(true), path) {
                return open_to_read(self, path);
            }
        }
        open_to_read(self, path)
    }

    fn place_of(&self, path: &str) -> io::Result<Option<(u64, u64)>> {
        match fs::metadata(self, path) {
            Ok(metadata) => Ok(Some((metadata.dev(), metadata.ino()))),
            Err(fault) if fault.kind() == ErrorKind::NotFound => Ok(None),
            Err(fault) => Err(fault),
        }
    }

    fn numbers_beside(&self, path: &str) -> io::Result<Vec<u32>> {
        let (folder, name) = parted(path);
        let mut numbers = Vec::new(self.alloc());
        for entry in fs::read_dir(self, folder)? {
            if let Some(number) = number_of(name, entry?.file_name()) {
                numbers.push(number)?;
            }
        }
        Ok(numbers)
    }

    fn written_at(&self, path: &str) -> Option<u64> {
        let metadata = fs::metadata(self, path).ok()?;
        let seconds = u64::try_from(metadata.mtime()).ok()?;
        let nanos = u64::try_from(metadata.mtime_nsec()).ok()?;
        Some(
            seconds
                .saturating_mul(1_000_000)
                .saturating_add(nanos / 1_000),
        )
    }

    fn uptime(&self) -> Option<u64> {
        uptime_at(self)
    }

    fn sync_time(&self, path: &str, timeline: &Timeline) -> Option<u64> {
        sync_time_beside(self, path, timeline)
    }
}

// Whether two paths lead to one file; or, where neither leads to a file, to one name in one folder.
fn lead_to_one<R: Files>(rt: &R, path: &str, other: &str) -> bool {
    match (fs::metadata(rt, path), fs::metadata(rt, other)) {
        (Ok(a), Ok(b)) => (a.dev(), a.ino()) == (b.dev(), b.ino()),
        (Err(_), Err(_)) => {
            let ((folder, name), (others, called)) = (parted(path), parted(other));
            match (fs::metadata(rt, folder), fs::metadata(rt, others)) {
                (Ok(a), Ok(b)) => name == called && (a.dev(), a.ino()) == (b.dev(), b.ino()),
                _ => false,
            }
        }
        _ => false,
    }
}

// Whether a path is that of a store with a number, also while that is made.
fn is_named_so<R: Files>(rt: &R, path: &str, store: &str) -> bool {
    let ((folder, name), (others, called)) = (parted(path), parted(store));
    let whole = name.strip_suffix(".new").unwrap_or(name);
    number_of(called, whole).is_some() && lead_to_one(rt, folder, others)
}

// The folder of a path, and the name in it.
fn parted(path: &str) -> (&str, &str) {
    match path.rsplit_once('/') {
        Some(("", name)) => ("/", name),
        Some(parts) => parts,
        None => (".", path),
    }
}

// How long the machine has run, as the system says it: seconds with two decimals.
fn uptime_at<R: Files<File = File>>(rt: &R) -> Option<u64> {
    let mut file = open_to_read(rt, UPTIME).ok()?;
    let mut text = [0u8; 32];
    let count = file.read(&mut text).ok()?;
    let (mut number, mut decimals) = (0u64, None);
    for byte in text.get(..count)? {
        match byte {
            b'0'..=b'9' => {
                number = number
                    .saturating_mul(10)
                    .saturating_add(u64::from(byte.saturating_sub(b'0')));
                decimals = decimals.map(|count: u32| count.saturating_add(1));
            }
            b'.' => decimals = Some(0u32),
            _ => break,
        }
    }
    match decimals {
        Some(2) => Some(number.saturating_mul(10_000)),
        _ => None,
    }
}

// Whether the file of a name is one that a measure has left, as a loss of power may: a page at most, all of it zero.
fn is_left_blank<R: Files<File = File>>(rt: &R, name: &str) -> bool {
    match fs::symlink_metadata(rt, name) {
        Ok(metadata) if metadata.is_file() && metadata.size() <= 4_096 => {}
        _ => return false,
    }
    let Ok(mut file) = open_to_read(rt, name) else {
        return false;
    };
    let mut page = [0u8; 4_096];
    match file.read(&mut page) {
        Ok(count) => page
            .get(..count)
            .is_some_and(|bytes: &[u8]| bytes.iter().all(|byte| *byte == 0)),
        Err(_) => false,
    }
}

// Makes a file that has no name any more. Another file of this name stays, but for what such a one has left.
fn open_nameless<R: Files<File = File>>(rt: &R, name: &str) -> Option<File> {
    if is_left_blank(rt, name) {
        fs::remove_file(rt, name).ok()?;
    }
    let file = open_file(rt, OpenOptions::new().write(true).create_new(true), name).ok()?;
    fs::remove_file(rt, name).ok()?;
    Some(file)
}

// How long a sync takes beside a store: the middle one of a few.
fn sync_time_beside<R: AllocGlobal + Files<File = File> + Clock>(
    rt: &R,
    path: &str,
    timeline: &Timeline,
) -> Option<u64> {
    let name = format!(in rt.alloc(); "{path}.sync").ok()?;
    let file = open_nameless(rt, name.as_str())?;
    let page = [0u8; 4_096];
    let mut times = [u64::MAX; SYNCS];
    let mut spent = 0u64;
    for place in times.iter_mut() {
        let began = timeline.now(rt);
        file.write_all_at(&page, 0).ok()?;
        file.sync_data().ok()?;
        let passed = timeline.now(rt).saturating_sub(began);
        *place = passed;
        spent = spent.saturating_add(passed);
        if spent > SYNC_MOST {
            return Some(passed);
        }
    }
    times.sort_unstable();
    times.get(SYNCS / 2).copied()
}

// Makes a store where there is no file, under another name first, and opens it.
fn make_at<H: AllocGlobal + Files<File = File>, R: Wait + Clock, M: Maker>(
    rt: &H,
    waits: &R,
    maker: &M,
    path: &str,
    geometry: Geometry,
) -> Result<Store<FileDisk>, Absent> {
    let place = match FilePlace::of(rt, path) {
        Ok(place) => place,
        Err(fault) => return Err(Absent::of(path, fault)),
    };
    let mut made = place.unfinished(rt)?;
    let store = match left_at(rt, &made, &geometry) {
        Ok(Some(store)) => store,
        Ok(None) if is_link(rt, path) => format_at(rt, &mut made, geometry)?,
        Ok(None) => format_in_steps(rt, waits, maker, path, geometry)?,
        Err(Absent::File(fault)) => return Err(Absent::of(path, fault)),
        Err(why) => return Err(why),
    };
    place.finish(rt, &made)?;
    Ok(store)
}

// Whether a path ends in a link.
fn is_link<R: Files>(rt: &R, path: &str) -> bool {
    match fs::symlink_metadata(rt, path) {
        Ok(metadata) => metadata.is_symlink(),
        Err(_) => false,
    }
}

// Makes the file of a store, whose path ends in no link, under another name, with a store in it. A file that isn't made
// to its end is removed.
fn format_in_steps<H: AllocGlobal + Files<File = File>, R: Wait + Clock, M: Maker>(
    rt: &H,
    waits: &R,
    maker: &M,
    path: &str,
    geometry: Geometry,
) -> Result<Store<FileDisk>, Absent> {
    match geometry.check() {
        Ok(()) => {}
        Err(_) => return Err(Absent::NoGeometry),
    }
    let Ok(name) = format!(in rt.alloc(); "{path}.new") else {
        return Err(Absent::File(FileFault::NoMemory));
    };
    let file = match open_file(
        rt,
        OpenOptions::new().read(true).write(true).create(true),
        name.as_str(),
    ) {
        Ok(file) => file,
        Err(fault) => return Err(Absent::of(path, FileFault::from(fault))),
    };
    if file.try_lock().is_err() {
        return Err(Absent::File(FileFault::Busy));
    }
    if let Err(why) = fill_in_steps(waits, &file, geometry.disk_size(), maker) {
        // The fault that led here is reported, and not what fails now.
        let _left = fs::remove_file(rt, name.as_str());
        return Err(why);
    }
    let disk = match FileDisk::over(file) {
        Ok(disk) => disk,
        Err(fault) => return Err(Absent::of(path, FileFault::from(fault))),
    };
    match format(rt.alloc(), disk, geometry) {
        Ok(store) => Ok(store),
        Err(OpenRefused { fault, disk: _ }) => Err(Absent::Store(fault)),
    }
}

// Gives a file so many bytes of zero, each written and on the disk, in steps. While the camera is filmed into another
// store, it rests as long as it has written.
fn fill_in_steps<R: Wait + Clock, M: Maker>(
    rt: &R,
    file: &File,
    size: u64,
    maker: &M,
) -> Result<(), Absent> {
    let zeros = zeros();
    if let Err(fault) = grow_anew(file, size) {
        return Err(Absent::File(FileFault::from(fault)));
    }
    let (mut at, mut began) = (0u64, maker.timeline().now(rt));
    let pieces = size / PIECE as u64 + 1;
    for piece in 0..pieces {
        let percent = at.saturating_mul(100) / size.max(1);
        if !maker.makes(rt, u32::try_from(percent).unwrap_or(100)) {
            return Err(Absent::Stopped);
        }
        let count = size.saturating_sub(at).min(PIECE as u64);
        let bytes = zeros.get(..count as usize).unwrap_or(&[]);
        let written = match file.write_all_at(bytes, at) {
            Ok(()) if piece % SYNCED == SYNCED - 1 || piece + 1 == pieces => file.sync_data(),
            outcome => outcome,
        };
        if let Err(fault) = written {
            return Err(Absent::File(FileFault::from(fault)));
        }
        at = at.saturating_add(count);
        if piece % SYNCED == SYNCED - 1 && maker.is_filmed(rt) {
            let passed = maker.timeline().now(rt).saturating_sub(began);
            thread::sleep(rt, Duration::from_micros(passed.min(REST_MOST)));
            began = maker.timeline().now(rt);
        }
    }
    match file.sync_all() {
        Ok(()) => Ok(()),
        Err(fault) => Err(Absent::File(FileFault::from(fault))),
    }
}

// Empties a file, and gives it a length.
fn grow_anew(file: &File, size: u64) -> io::Result<()> {
    file.set_len(0)?;
    file.set_len(size)
}

// A piece of zeros.
fn zeros() -> &'static [u8; PIECE] {
    &ZEROS
}

// The store at a place, as an earlier run left it. None where there is no file, where it isn't a store yet, or where it
// is a store without a frame, for other frames than these. `Unfinished` where it can't be determined what is there.
fn left_at<R: AllocGlobal + Files<File = File>>(
    rt: &R,
    place: &FilePlace,
    geometry: &Geometry,
) -> Result<Option<Store<FileDisk>>, Absent> {
    let disk = match place.open(rt) {
        Ok(disk) => disk,
        Err(FileFault::Missing) => return Ok(None),
        Err(fault) => return Err(Absent::File(fault)),
    };
    match Store::open(rt.alloc(), disk) {
        Ok(store) => Ok(for_frames(store, geometry)),
        Err(OpenRefused { fault, disk: _ }) => match fault {
            StoreFault::NotFormatted => Ok(None),
            _ => Err(Absent::Unfinished),
        },
    }
}

// The store, where it has a frame or is for frames like these.
fn for_frames(store: Store<FileDisk>, geometry: &Geometry) -> Option<Store<FileDisk>> {
    if goes_on(store.next(), store.geometry() == *geometry) {
        Some(store)
    } else {
        None
    }
}

// Makes the file of a place anew, with a store in it. What is left there after a failure isn't a store.
fn format_at<R: AllocGlobal + Files<File = File>>(
    rt: &R,
    place: &mut FilePlace,
    geometry: Geometry,
) -> Result<Store<FileDisk>, Absent> {
    match geometry.check() {
        Ok(()) => {}
        Err(_) => return Err(Absent::NoGeometry),
    }
    let disk = place.create(rt, geometry.disk_size())?;
    match format(rt.alloc(), disk, geometry) {
        Ok(store) => Ok(store),
        Err(OpenRefused { fault, disk: _ }) => Err(Absent::Store(fault)),
    }
}
