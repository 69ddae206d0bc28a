//! The answers of cameras to an order, which stay together.

ghost use Rattle.std.specs.Prelude.{◌≡◌, ◌<◌, Some, None, IsTrue, is_some, length, not, replicate, slice_get, slice_set, IfOk, false};
ghost use Rattle.std.specs.List.{position};
ghost use Rattle.loop_station_core.specs.Answers.{gives, is_unanswered, taken_early};

use std::alloc::{AllocError, Global};
use std::mem;

/// An order that some cameras have to answer, by their places among those that it means, and what each has answered.
#[derive(Drop)]
pub struct Replies<L: Drop> {
    given: Vec<Option<L>>,
}

// The first camera that hasn't answered.
fn missing<L: Drop>(given: &[Option<L>]) -> Option<usize>
    ensures { result ≡ position (λ o. not (is_some o)) given.now }
{
    given.iter().position(|answer| !answer.is_some())
}

// Whether there is a camera at a place, and it hasn't answered.
fn is_unanswered<L: Drop>(given: &[Option<L>], place: usize) -> bool
    ensures open { result ≡ is_unanswered given.now place }
    ensures bound { IsTrue result → place < length given.now }
{
    match given.get(place) {
        Some(answer) => !answer.is_some(),
        None => false,
    }
}

// The camera at a place has answered.
fn put<L: Drop>(given: &mut Vec<Option<L>>, place: usize, answer: L)
    requires { place < length given.old.items }
    ensures { given.new.items ≡ slice_set given.old.items place (Some answer) }
{
    given[place] = Some(answer);
}

// Whether the camera at a place has answered.
fn has_answered<L: Drop>(given: &[Option<L>], place: usize) -> bool
    ensures there { result ≡ (elim (slice_get given.now place) [ None ↦ false | Some o ↦ is_some o ]) }
    ensures bound { IsTrue result → place < length given.now }
{
    match given.get(place) {
        Some(answer) => answer.is_some(),
        None => false,
    }
}

// Something stands for the answer of the camera at a place. Returns the answer.
fn exchange<L: Drop>(given: &mut Vec<Option<L>>, place: usize, rest: L) -> Option<L>
    requires { place < length given.old.items }
    ensures after { given.new.items ≡ slice_set given.old.items place (Some rest) }
    ensures before { slice_get given.old.items place ≡ Some result }
{
    mem::replace(&mut given[place], Some(rest))
}

impl<L: Drop> Replies<L> {
    /// No camera of so many has answered.
    pub fn new(alloc: Global, cameras: usize) -> Result<Replies<L>, AllocError>
        ensures { IfOk result (λ r. r.given.items ≡ replicate cameras None) }
    {
        let mut given = Vec::with_capacity(alloc, cameras)?;
        for _ in 0..cameras {
            given.push(None)?;
        }
        Ok(Replies { given })
    }

    /// The camera at a place has answered. Whether the order is answered by that: it was the last one that hadn't. A
    /// second answer of a camera is dropped.
    pub fn give(&mut self, place: usize, answer: L) -> bool
        ensures { (self.new.given.items, result) ≡ gives self.old.given.items place answer }
    {
        if !is_unanswered(&self.given, place) {
            return false;
        }
        put(&mut self.given, place, answer);
        missing(&self.given).is_none()
    }

    /// What the camera at a place has answered, which is told before the others have: `rest` stands in its place from
    /// now on. None where it hasn't answered.
    pub fn take_early(&mut self, place: usize, rest: L) -> Option<L>
        ensures { (self.new.given.items, result) ≡ taken_early self.old.given.items place rest }
    {
        if !has_answered(&self.given, place) {
            return None;
        }
        exchange(&mut self.given, place, rest)
    }

    /// What each camera has answered, in their order. Nothing is left.
    pub fn take(&mut self, alloc: Global) -> Vec<Option<L>>
        ensures { result.items ≡ self.old.given.items }
    {
        mem::replace(&mut self.given, Vec::new(alloc))
    }
}
