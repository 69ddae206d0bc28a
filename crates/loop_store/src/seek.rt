//! The held frames of a span of time, as runs of their numbers.

ghost use Rattle.std.specs.Prelude.{◌≡◌, ◌==◌, ◌+◌, ℕ, List, IfOk, OnOk, map};
ghost use Rattle.std.specs.List.{filter};
ghost use Rattle.loop_record.specs.Recording.{Recording};
ghost use Rattle.loop_record.specs.Times.{AreRuns, is_in};
ghost use Rattle.loop_store.specs.Index.{IsIndex, IsIndexOf};
ghost use Rattle.loop_store.specs.Times.{Rise, added, stamp_under};

use crate::index::Index;
use crate::look::held_numbers;
use loop_record::{Span, Times};
use loop_ring::{NO_STAMP, SlotStamp};
use std::alloc::{AllocError, Allocator};

/// The stamp at the slot of a number, in the segment that has its block; zeros where no segment has it.
pub(crate) fn stamp_under<A: Allocator>(index: &Index<A>, number: u64) -> SlotStamp
    requires { IsIndex index.now }
    ensures { result ≡ stamp_under index.now.ring.geometry.slots index.now.table.heads index.now.stamps.items number }
{
    let slots = u64::from(index.ring.geometry.slots);
    match index.find(number / slots) {
        Some(segment) => {
            index.stamps[segment as usize * slots as usize + (number % slots) as usize]
        }
        None => NO_STAMP,
    }
}

// Whether a number directly follows a run.
fn is_next(run: Span, number: u64) -> bool
    ensures { result ≡ (run.to + 1 == number) }
{
    run.to < number && number - run.to == 1
}

// The run of a single number.
fn one(number: u64) -> Span
    ensures { result ≡ record { from = number; to = number; tag = 0 } }
{
    Span {
        from: number,
        to: number,
        tag: 0,
    }
}

// Adds a number to the last run where it follows it, otherwise as a run of its own.
fn add_number<A: Allocator>(runs: &mut Vec<Span, A>, number: u64) -> Result<(), AllocError>
    ensures { OnOk result (runs.new.items ≡ added runs.old.items number) }
{
    runs.reserve(1)?;
    let Some(last) = runs.pop() else {
        runs.push_reserved(one(number));
        return Ok(());
    };
    if is_next(last, number) {
        runs.push_reserved(Span { to: number, ..last });
    } else {
        runs.push_reserved(last);
        runs.push_reserved(one(number));
    }
    Ok(())
}

// Of these numbers, which rise, the runs of those whose frames have a time in the span.
fn runs_of<A: Allocator, B: Allocator>(
    alloc: B,
    index: &Index<A>,
    numbers: &[u64],
    times: Times,
) -> Result<Vec<Span, B>, AllocError>
    requires { IsIndex index.now }
    ensures { Rise numbers.now → IfOk result (λ runs. AreRuns (filter (λ n.
        is_in times (stamp_under index.now.ring.geometry.slots index.now.table.heads index.now.stamps.items n).time)
        numbers.now) runs.items) }
{
    let mut runs = Vec::new(alloc);
    for number in numbers {
        if times.has(stamp_under(index, *number).time) {
            add_number(&mut runs, *number)?;
        }
    }
    Ok(runs)
}

/// The runs of the held frames whose times lie in the span.
pub(crate) fn seek<A: Allocator, B: Allocator + Copy>(
    alloc: B,
    index: &Index<A>,
    times: Times,
) -> Result<Vec<Span, B>, AllocError>
    requires { IsIndex index.now }
    ensures { (r : Recording) (image : List ℕ) → IsIndexOf index.now r image
        → IfOk result (λ runs. AreRuns (filter (λ n. is_in times
        (stamp_under index.now.ring.geometry.slots index.now.table.heads index.now.stamps.items n).time)
        (map (λ f. f.0) r.frames)) runs.items) }
{
    let numbers = held_numbers(alloc, index)?;
    runs_of(alloc, index, numbers.as_slice(), times)
}
