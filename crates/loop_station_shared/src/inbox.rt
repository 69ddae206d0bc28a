//! An inbox, in which one thread asks and another answers.

use std::sync::{Condvar, Mutex, Wait};
use std::time::{Clock, Duration};

// What is exchanged between the two threads: one question at a time, and its answer.
#[derive(Drop)]
struct Exchange<Q: Drop, A: Drop, N: Drop + Copy> {
    // Someone has asked, and hasn't taken the answer yet.
    busy: bool,
    question: Option<Q>,
    answer: Option<Result<A, N>>,
    // Nobody answers now, and why.
    nobody: Option<N>,
    // Someone answers now.
    open: bool,
}

/// One thread asks and waits, another answers. Where nobody answers, the answer is an `N` that says why.
#[derive(Drop)]
pub struct Inbox<Q: Drop, A: Drop, N: Drop + Copy> {
    desk: Mutex<Exchange<Q, A, N>>,
    changed: Condvar,
}

impl<Q: Drop, A: Drop, N: Drop + Copy> Inbox<Q, A, N> {
    /// An inbox at which nobody answers yet: a question waits until someone does.
    pub fn new() -> Self {
        Inbox {
            desk: Mutex::new(Exchange {
                busy: false,
                question: None,
                answer: None,
                nobody: None,
                open: false,
            }),
            changed: Condvar::new(),
        }
    }

    /// Asks, once nobody else asks. The answer has to be taken by `answer`.
    pub fn ask<R: Wait>(&self, rt: &R, question: Q) {
        let mut desk = self
            .changed
            .wait_while(rt, self.desk.lock(rt), |desk| desk.busy);
        desk.busy = true;
        match desk.nobody {
            Some(why) => desk.answer = Some(Err(why)),
            None => desk.question = Some(question),
        }
        self.changed.notify_all();
    }

    /// Waits for the answer.
    pub fn answer<R: Wait>(&self, rt: &R) -> Option<Result<A, N>> {
        let mut desk = self
            .changed
            .wait_while(rt, self.desk.lock(rt), |desk| desk.answer.is_none());
        desk.busy = false;
        self.changed.notify_all();
        desk.answer.take()
    }

    /// Takes a question, or waits for one, for so long at most.
    pub fn take<R: Wait + Clock>(&self, rt: &R, most: Duration) -> Option<Q> {
        let (mut desk, _) = self.changed.wait_timeout_while(
            rt,
            self.desk.lock(rt),
            most,
            |desk| desk.question.is_none(),
        );
        desk.question.take()
    }

    /// Puts back the question that was taken, for whoever answers next.
    pub fn again<R: Wait>(&self, rt: &R, question: Q) {
        self.desk.lock(rt).question = Some(question);
    }

    /// Whether someone answers now, or why nobody does; None where someone is still to come.
    pub fn attended<R: Wait>(&self, rt: &R) -> Option<Result<(), N>> {
        let desk = self.desk.lock(rt);
        match desk.nobody {
            Some(why) => Some(Err(why)),
            None if desk.open => Some(Ok(())),
            None => None,
        }
    }

    /// Answers the question that was taken.
    pub fn reply<R: Wait>(&self, rt: &R, answer: A) {
        let mut desk = self.desk.lock(rt);
        desk.answer = Some(Ok(answer));
        self.changed.notify_all();
    }

    /// From now on someone answers.
    pub fn open<R: Wait>(&self, rt: &R) {
        let mut desk = self.desk.lock(rt);
        desk.open = true;
        desk.nobody = None;
    }

    /// Nobody answers from now on. A question that waits gets that as its answer too.
    pub fn leave<R: Wait>(&self, rt: &R, why: N) {
        let mut desk = self.desk.lock(rt);
        desk.open = false;
        desk.nobody = Some(why);
        if desk.question.take().is_some() {
            desk.answer = Some(Err(why));
        }
        self.changed.notify_all();
    }
}
