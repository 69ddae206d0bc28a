// What `list` prints.
ghost use Rattle.std.specs.Prelude.{◌≡◌, ◌⊎◌, IfErr, IfOk, map};
ghost use Rattle.loop_clips.specs.Table.{clip_list};
ghost use Rattle.loop_record.specs.Recording.{Recording};
ghost use Rattle.loop_store.specs.Seen.{StandsFor};

use crate::print::{print_line, print_parts};
use crate::runs::run_length;
use loop_desk::Outline;
use loop_disk::Disk;
use loop_store::{Clip, Store, StoreFault};
use std::alloc::Allocator;
use std::io;
use std::io::Write;

/// What is listed of a store or a desk: the next number, the held ones and the clips, both in rising order.
#[derive(Drop)]
pub struct Listing<A: Allocator> {
    pub next: u64,
    pub numbers: Vec<u64, A>,
    pub clips: Vec<Clip, A>,
}

impl<A: Allocator + Copy> Listing<A> {
    /// What is listed of a store, on any disk. It answers MustReopen and NoMemory.
    pub fn of<D: Disk + Drop>(store: &Store<D, A>, alloc: A) -> Result<Self, StoreFault>
        ensures next { IfOk result (λ listing. listing.next ≡ store.now.next) }
        ensures numbers { (r : Recording) → StandsFor D.medium store.now r
            → IfOk result (λ listing. listing.numbers.items ≡ map (λ f. f.0) r.frames) }
        ensures clips { IfOk result (λ listing. listing.clips.items ≡ clip_list 0 store.now.clips) }
        ensures refusals { IfErr result (λ fault. (fault ≡ StoreFault.MustReopen) ⊎ (fault ≡ StoreFault.NoMemory)) }
    {
        Ok(Listing {
            next: store.next(),
            numbers: store.frames(alloc)?,
            clips: store.clips(alloc)?,
        })
    }

    /// What is listed of a desk's outline: all but how many frames wait, how many blocks are kept, and the version of
    /// the layout.
    pub fn of_outline(outline: Outline<A>) -> Self
        ensures { result
            ≡ record { next = outline.next; numbers = outline.frames; clips = outline.clips } }
    {
        let Outline {
            next,
            frames,
            clips,
            pending: _,
            version: _,
            keep: _,
        } = outline;
        Listing {
            next,
            numbers: frames,
            clips,
        }
    }

    /// Prints the next number, each longest run of held ones, and each clip.
    pub fn print<W: Write>(&self, out: &mut W) -> io::Result<()> {
        print_line(out, "next", &[(" ", self.next)])?;
        print_runs(&self.numbers, out)?;
        print_clips(&self.clips, out)
    }
}

// Prints each clip.
fn print_clips<W: Write>(clips: &[Clip], out: &mut W) -> io::Result<()> {
    for Clip { id, from, to, tag } in clips {
        print_parts(
            out,
            "clip",
            &[(" ", u64::from(*id)), (" ", *from), ("..", *to)],
        )?;
        print_tag(*tag, out)?;
    }
    Ok(())
}

// Ends the line of a clip, with its tag where that isn't 0.
fn print_tag<W: Write>(tag: u64, out: &mut W) -> io::Result<()> {
    if tag == 0 {
        return print_line(out, "", &[]);
    }
    print_line(out, " tag ", &[("", tag)])
}

// Prints each longest run of numbers that follow one another.
fn print_runs<W: Write>(numbers: &[u64], out: &mut W) -> io::Result<()> {
    let mut rest = numbers;
    while !rest.is_empty() {
        let (run, behind) = rest.split_at(run_length(rest));
        let first = run[0];
        let last = run[run.len() - 1];
        print_line(out, "frames", &[(" ", first), ("..", last)])?;
        rest = behind;
    }
    Ok(())
}
