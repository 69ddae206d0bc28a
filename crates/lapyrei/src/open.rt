// What the calls share: the store over the file's bytes, and the answer with the log.
ghost use Rattle.std.specs.Prelude.{◌≡◌, Err, IfNone, IfSome, Some};
ghost use Rattle.loop_store.specs.Make.{Formats};
ghost use Rattle.loop_store.specs.Reopen.{OpensKeeping};
ghost use Rattle.loop_overlay.specs.Pages.{Lacks, logged};
ghost use Rattle.lapyrei.specs.Shown.{version_asked};
ghost use Rattle.lapyrei.specs.Told.{AllThere, AnswersFailed, AnswersFor, given, untouched};

use crate::answer::{Answer, WANTS_BYTES, WANTS_LOG};
use crate::bytes::{log_length, put_calls};
use loop_disk::Failures;
use loop_overlay::{LogDisk, PAGE, Wanted, is_gone, is_lacking};
use loop_record::Geometry;
use loop_store::{OpenRefused, Store, StoreFault, format, format_v1};
use std::alloc::Global;

/// A store over the file's bytes, or why there is none.
pub(crate) type Opened<'a> = Result<Store<LogDisk<'a>>, OpenRefused<LogDisk<'a>>>;

/// Opens the store over the file's bytes.
pub(crate) fn open<'a>(alloc: Global, image: &'a [u8], present: &'a [u8], keep: u32) -> Opened<'a>
    ensures { OpensKeeping logged keep (untouched image.now present.now) result }
{
    Store::open_keeping(alloc, LogDisk::new(alloc, image, present), keep)
}

/// Makes a store on a disk, in the version of the layout that is asked for.
pub(crate) fn make<'a>(
    alloc: Global,
    disk: LogDisk<'a>,
    geometry: Geometry,
    version: u32,
) -> Opened<'a>
    ensures { Formats logged (record { geometry = geometry; version = version_asked version })
        disk.entry result }
{
    if version == 1 {
        format_v1(alloc, disk, geometry)
    } else {
        format(alloc, disk, geometry)
    }
}

// The first byte of a page of the file that isn't there.
fn first_gone(image: &[u8], present: &[u8]) -> Option<Wanted>
    ensures gone { IfSome result (λ byte. Lacks image.now present.now byte.at byte.count) }
    ensures there { IfNone result (AllThere image.now present.now) }
{
    let pages = (image.len() as u64).div_ceil(PAGE);
    for page in 0..pages {
        if is_gone(present, page) {
            return Some(Wanted {
                at: page * PAGE,
                count: 1,
            });
        }
    }
    None
}

// What to ask for where this read failed: its bytes. The contracts of a store don't say that its disk's marks are still
// these, so it is looked into whether they lack, and otherwise others are asked for that do.
fn lacking(image: &[u8], present: &[u8], read: Wanted) -> Option<Wanted>
    ensures read { Lacks image.now present.now read.at read.count → result ≡ Some read }
    ensures gone { IfSome result (λ bytes. Lacks image.now present.now bytes.at bytes.count) }
    ensures there { IfNone result (AllThere image.now present.now) }
{
    if is_lacking(image, present, read) {
        Some(read)
    } else {
        first_gone(image, present)
    }
}

// The answer where calls of the disk failed: the bytes of the last read that did, or `NoMemory` where none did.
fn fail<'a>(disk: &LogDisk<'a>, image: &[u8], present: &[u8]) -> Answer
    ensures { AnswersFailed image.now present.now disk.now result }
{
    let Some(read) = disk.wanted() else {
        return Answer::made(Err(StoreFault::NoMemory), 0);
    };
    match lacking(image, present, read) {
        Some(bytes) => Answer::needs(WANTS_BYTES, bytes),
        None => Answer::made(Err(StoreFault::NoMemory), 0),
    }
}

/// The answer of a call that had this outcome and left this disk, and the log of what is to be done to the file.
pub(crate) fn finish<'a>(
    disk: LogDisk<'a>,
    outcome: Result<u64, StoreFault>,
    image: &[u8],
    present: &[u8],
    log: &mut [u8],
) -> Answer
    ensures { AnswersFor (given image.now present.now log.old) outcome disk.entry log.new result }
{
    if disk.failures() != Failures::none() {
        return fail(&disk, image, present);
    }
    let count = log_length(disk.calls());
    if count > log.len() as u64 {
        return Answer::needs(WANTS_LOG, Wanted { at: 0, count });
    }
    let used = put_calls(log, disk.calls());
    Answer::made(outcome, used as u64)
}

/// The same where there is no store.
pub(crate) fn refuse<'a>(
    refused: OpenRefused<LogDisk<'a>>,
    image: &[u8],
    present: &[u8],
    log: &mut [u8],
) -> Answer
    ensures { AnswersFor (given image.now present.now log.old) (Err refused.entry.fault)
        refused.entry.disk log.new result }
{
    let OpenRefused { fault, disk } = refused;
    finish(disk, Err(fault), image, present, log)
}

/// The same where memory was refused before the store was opened.
pub(crate) fn refuse_unopened(alloc: Global, image: &[u8], present: &[u8], log: &mut [u8]) -> Answer
    ensures { AnswersFor (given image.now present.now log.old) (Err StoreFault.NoMemory) (untouched image.now present.now)
        log.new result }
{
    let disk = LogDisk::new(alloc, image, present);
    finish(disk, Err(StoreFault::NoMemory), image, present, log)
}
