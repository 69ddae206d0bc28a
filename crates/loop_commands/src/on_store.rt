//! Commands on an open store, over any disk and any writers: what becomes of the store, and what is written. `files`
//! decides which files are opened, and how.

ghost use Rattle.std.specs.Prelude.{◌≡◌, ◌++◌, ◌∷◌, ◌⊎◌, ℕ, List, None, Option, [], codes, map};
ghost use Rattle.std.specs.Prelude.{IfErr, IfOk, IfSome, IsSome, OnErr, OnOk};
ghost use Rattle.std.specs.Io.KnownBytes.{Appends, Keeps};
ghost use Rattle.loop_clips.specs.Table.{clip_list};
ghost use Rattle.loop_record.specs.Recording.{Recording};
ghost use Rattle.loop_store.specs.Calls.{locked, unlocked, upgraded};
ghost use Rattle.loop_store.specs.Goes.{Goes};
ghost use Rattle.loop_store.specs.Seen.{StandsFor};
ghost use Rattle.loop_y4m.specs.Export.{OnlyRead, failed_export, frames_between};
ghost use Rattle.loop_y4m.specs.Text.{text};
ghost use Rattle.loop_script.specs.Upgrade.{told_of_upgrade};
ghost use Rattle.loop_commands.specs.Printed.{HoldsNone, IsUntouched, IsText, IsPrinted, export_fault, line_of};

use crate::even::EvenWriter;
use loop_disk::Disk;
use loop_record::Span;
use loop_script::{Listing, upgrade_words};
use loop_store::{Store, StoreFault};
use loop_y4m::{ExportFault, export};
use std::alloc::Allocator;
use std::io;
use std::io::{BufWriter, Write};

// How many bytes of a text are gathered before they are written to its file.
const TEXT_AT_ONCE: usize = 262_144;

/// What a command returned, and whether its line could be printed. For a refusal nothing is printed.
#[derive(Drop)]
pub struct Reported<T, E = StoreFault> {
    /// What it returned.
    pub answer: Result<T, E>,
    /// Whether its line could be printed.
    pub printed: io::Result<()>,
}

/// What the text of an export is written to, where the line that reports it is printed elsewhere.
pub trait ExportTarget: Write {
    // What it holds once it is emptied, where that is known.
    ghost emptied: { Self → Option (List ℕ) } = { λ _. None };

    // What a loss of power leaves of it, where that is known.
    ghost settled: { Self → Option (List ℕ) } = { λ _. None };

    /// Empties it. Where nothing can be removed, as from a pipe, nothing is done.
    fn empty(&mut self) -> io::Result<()>
        ensures { OnOk result (Keeps (emptied self.old) (Self.contents self.new)) };

    /// Returns once all that it has, and its name where that is new, is synced to the disk. A pipe has nothing to sync.
    fn settle(&mut self) -> io::Result<()>
        ensures kept { OnOk result (Keeps (Self.contents self.old) (Self.contents self.new)) }
        ensures settled { OnOk result (Keeps (Self.contents self.new) (settled self.new)) };
}

/// What lies beneath a writer through which a text is written, and perhaps other lines.
pub trait Beneath {
    /// Returns once what was written is synced to the disk. A pipe has nothing to sync.
    fn settle(&self) -> io::Result<()>;
}

// Prints a word and a number on a line.
fn print_number<W: Write>(out: &mut W, word: &str, number: u64) -> io::Result<()>
    ensures { OnOk result (Appends (W.contents out.old) (W.contents out.new) (line_of word.now number)) }
{
    writeln!(out, "{word} {number}")
}

/// Lists a store and prints that. It answers MustReopen and NoMemory.
pub fn list<D: Disk + Drop, A: Allocator + Copy, W: Write>(
    store: &Store<D, A>,
    alloc: A,
    out: &mut W,
) -> Reported<Listing<A>>
    ensures next { IfOk result.answer (λ listing. listing.next ≡ store.now.next) }
    ensures numbers { (r : Recording) → StandsFor D.medium store.now r
        → IfOk result.answer (λ listing. listing.numbers.items ≡ map (λ f. f.0) r.frames) }
    ensures clips { IfOk result.answer (λ listing. listing.clips.items ≡ clip_list 0 store.now.clips) }
    ensures refusals { IfErr result.answer
        (λ fault. (fault ≡ StoreFault.MustReopen) ⊎ (fault ≡ StoreFault.NoMemory)) }
    ensures silent { OnErr result.answer (out.new ≡ out.old) }
{
    match Listing::of(store, alloc) {
        Ok(listing) => {
            let printed = listing.print(out);
            Reported {
                answer: Ok(listing),
                printed,
            }
        }
        Err(fault) => Reported {
            answer: Err(fault),
            printed: Ok(()),
        },
    }
}

/// Locks the frames of a span, as `Store::lock`, and prints the id of the clip.
pub fn lock<D: Disk + Drop, A: Allocator, W: Write>(
    store: &mut Store<D, A>,
    span: Span,
    out: &mut W,
) -> Reported<u32>
    ensures goes { Goes D.medium store.old store.new (locked span result.answer ∷ []) }
    ensures told { IsPrinted W.contents out.old out.new (line_of (codes "locked")) result.answer result.printed }
{
    match store.lock(span.from, span.to, span.tag) {
        Ok(id) => Reported {
            answer: Ok(id),
            printed: print_number(out, "locked", u64::from(id)),
        },
        Err(fault) => Reported {
            answer: Err(fault),
            printed: Ok(()),
        },
    }
}

/// Unlocks the clip of an id, as `Store::unlock`, and prints the id.
pub fn unlock<D: Disk + Drop, A: Allocator, W: Write>(
    store: &mut Store<D, A>,
    id: u32,
    out: &mut W,
) -> Reported<()>
    ensures goes { Goes D.medium store.old store.new (unlocked id result.answer ∷ []) }
    ensures told { IsPrinted W.contents out.old out.new (λ _. line_of (codes "unlocked") id)
        result.answer result.printed }
{
    match store.unlock(id) {
        Ok(()) => Reported {
            answer: Ok(()),
            printed: print_number(out, "unlocked", u64::from(id)),
        },
        Err(fault) => Reported {
            answer: Err(fault),
            printed: Ok(()),
        },
    }
}

/// Makes version 2 of a layout of version 1, as `Store::upgrade`, and prints whether it did so or that it was there.
pub fn upgrade<D: Disk + Drop, A: Allocator, W: Write>(
    store: &mut Store<D, A>,
    out: &mut W,
) -> Reported<bool>
    ensures goes { Goes D.medium store.old store.new (upgraded result.answer ∷ []) }
    ensures told { IsPrinted W.contents out.old out.new (λ made. told_of_upgrade made ++ 10 ∷ [])
        result.answer result.printed }
{
    match store.upgrade() {
        Ok(made) => Reported {
            answer: Ok(made),
            printed: print_upgrade(out, made),
        },
        Err(fault) => Reported {
            answer: Err(fault),
            printed: Ok(()),
        },
    }
}

// Prints whether version 2 was made, on a line.
fn print_upgrade<W: Write>(out: &mut W, made: bool) -> io::Result<()>
    ensures { OnOk result (Appends (W.contents out.old) (W.contents out.new) (told_of_upgrade made ++ 10 ∷ [])) }
{
    let words = upgrade_words(made);
    writeln!(out, "{words}")
}

/// Why frames weren't exported.
#[derive(Drop)]
pub struct NotExported<T> {
    /// What refused.
    pub fault: ExportFault,
    /// The target, where nothing was done with it.
    pub target: Option<T>,
}

// Why no frame can be written: a writing call of the store has failed, or no frame has a number of the range.
fn refused_before<D: Disk + Drop, A: Allocator>(
    store: &Store<D, A>,
    from: u64,
    to: u64,
) -> Option<StoreFault>
    ensures none { HoldsNone store.now.numbers from to → IsSome result }
    ensures refused { IfSome result (λ fault. (fault ≡ StoreFault.MustReopen) ⊎ (fault ≡ StoreFault.NotHeld)) }
{
    if store.must_reopen() {
        return Some(StoreFault::MustReopen);
    }
    match store.next_held(from) {
        Some(number) if number <= to => None,
        _ => Some(StoreFault::NotHeld),
    }
}

/// Writes the held frames from a number to another as a text, as `loop_y4m::export`, and returns their count, with the
/// writer. Their bytes are gathered, so that each write but the last has the same size. Ok says that the last write and
/// the flush after it succeeded too; the count is right on every disk.
pub fn export_text<D: Disk + Drop, A: Allocator + Copy, W: Write + Drop>(
    alloc: A,
    store: &mut Store<D, A>,
    from: u64,
    to: u64,
    out: W,
) -> Result<(u64, W), ExportFault>
    ensures text { (r : Recording) → StandsFor D.medium store.old r
        → IfOk result (λ done. IsText (D.medium store.old.disk).honest store.old.geometry
        (frames_between from to r.frames) (W.contents out) (W.contents done.1) done.0) }
    ensures store { OnlyRead D.medium store.old store.new (failed_export result) }
{
    let Ok(gathered) = BufWriter::with_capacity(alloc, TEXT_AT_ONCE, out) else {
        return Err(ExportFault::Store(StoreFault::NoMemory));
    };
    let mut text = EvenWriter::new(gathered, TEXT_AT_ONCE);
    let count = export(alloc, store, from, to, &mut text)?;
    let mut gathered = text.into_inner();
    gathered.flush()?;
    let (out, _buffer) = gathered.into_parts();
    Ok((count, out))
}

// A target that was emptied, if it could be.
fn emptied<T: ExportTarget + Drop>(target: T) -> Option<T>
    ensures { IfSome result (λ t. Keeps (T.emptied target) (T.contents t)) }
{
    let mut target = target;
    match target.empty() {
        Ok(()) => Some(target),
        Err(_) => None,
    }
}

// A target that was settled, if it could be.
fn settled<T: ExportTarget + Drop>(target: T) -> Option<T>
    ensures kept { IfSome result (λ t. Keeps (T.contents target) (T.contents t)) }
    ensures settled { IfSome result (λ t. Keeps (T.contents t) (T.settled t)) }
{
    let mut target = target;
    match target.settle() {
        Ok(()) => Some(target),
        Err(_) => None,
    }
}

// Empties a target, writes the held frames from a number to another into it, as `export_text`, and settles it.
fn export_into<D: Disk + Drop, A: Allocator + Copy, T: ExportTarget + Drop>(
    alloc: A,
    store: &mut Store<D, A>,
    from: u64,
    to: u64,
    target: T,
) -> Result<(u64, T), NotExported<T>>
    ensures text { (r : Recording) → StandsFor D.medium store.old r
        → IfOk result (λ done. IsText (D.medium store.old.disk).honest store.old.geometry
        (frames_between from to r.frames) (T.emptied target) (T.contents done.1) done.0) }
    ensures settled { IfOk result (λ done. Keeps (T.contents done.1) (T.settled done.1)) }
    ensures kept { HoldsNone store.old.numbers from to → IsUntouched target result }
    ensures store { OnlyRead D.medium store.old store.new (failed_export (export_fault result)) }
{
    if let Some(fault) = refused_before(store, from, to) {
        return Err(NotExported {
            fault: ExportFault::Store(fault),
            target: Some(target),
        });
    }
    let Some(target) = emptied(target) else {
        return Err(NotExported {
            fault: ExportFault::Write,
            target: None,
        });
    };
    let (count, target) = match export_text(alloc, store, from, to, target) {
        Ok(done) => done,
        Err(fault) => {
            return Err(NotExported {
                fault,
                target: None,
            });
        }
    };
    match settled(target) {
        Some(target) => Ok((count, target)),
        None => Err(NotExported {
            fault: ExportFault::Write,
            target: None,
        }),
    }
}

/// Empties a target, writes the held frames from a number to another into it, as `export_text`, and prints their count
/// once it has settled. The target comes back as it was where no frame has such a number.
pub fn export_apart<D: Disk + Drop, A: Allocator + Copy, T: ExportTarget + Drop, W: Write>(
    alloc: A,
    store: &mut Store<D, A>,
    from: u64,
    to: u64,
    target: T,
    out: &mut W,
) -> Reported<(u64, T), NotExported<T>>
    ensures text { (r : Recording) → StandsFor D.medium store.old r
        → IfOk result.answer (λ done. IsText (D.medium store.old.disk).honest store.old.geometry
        (frames_between from to r.frames) (T.emptied target) (T.contents done.1) done.0) }
    ensures settled { IfOk result.answer (λ done. Keeps (T.contents done.1) (T.settled done.1)) }
    ensures kept { HoldsNone store.old.numbers from to → IsUntouched target result.answer }
    ensures store { OnlyRead D.medium store.old store.new (failed_export (export_fault result.answer)) }
    ensures told { IsPrinted W.contents out.old out.new (λ done. line_of (codes "exported") done.0)
        result.answer result.printed }
{
    match export_into(alloc, store, from, to, target) {
        Ok((count, target)) => Reported {
            answer: Ok((count, target)),
            printed: print_number(out, "exported", count),
        },
        Err(refused) => Reported {
            answer: Err(refused),
            printed: Ok(()),
        },
    }
}

/// Writes the held frames from a number to another, as `export_text`, and then their count, through the same writer:
/// the line follows the text. It is written once what lies beneath the writer has settled.
pub fn export_along<D: Disk + Drop, A: Allocator + Copy, W: Write + Drop, B: Beneath>(
    alloc: A,
    store: &mut Store<D, A>,
    from: u64,
    to: u64,
    out: W,
    beneath: &B,
) -> Reported<(u64, W), ExportFault>
    ensures text { (r : Recording) → StandsFor D.medium store.old r → (D.medium store.old.disk).honest
        → IfOk result.answer (λ done. OnOk result.printed (Appends (W.contents out) (W.contents done.1)
        (text store.old.geometry (frames_between from to r.frames) ++ line_of (codes "exported") done.0))) }
    ensures store { OnlyRead D.medium store.old store.new (failed_export result.answer) }
{
    match export_text(alloc, store, from, to, out) {
        Ok((count, out)) => {
            if beneath.settle().is_err() {
                return Reported {
                    answer: Err(ExportFault::Write),
                    printed: Ok(()),
                };
            }
            let mut out = out;
            let printed = print_number(&mut out, "exported", count);
            Reported {
                answer: Ok((count, out)),
                printed,
            }
        }
        Err(fault) => Reported {
            answer: Err(fault),
            printed: Ok(()),
        },
    }
}
