//! The reader of a stream that comes in pieces.
ghost use Rattle.std.specs.Prelude.{◌≡◌, ℕ, ◌<◌, ◌≤◌, ◌⊎◌, ◌↔◌, [], List, length, take, IsTrue, IfOk, IfErr, OnOk, OnErr};
ghost use Rattle.mc_grammar.specs.Progress.{Goes, IsBounded, IsSound, IsReady, Start, Takes};
ghost use Rattle.mc_grammar.specs.Reading.{IsRead, ReadsOn, Comes, ReadsNext};

use crate::blocks::{after_return, fill, skip};
use crate::held::Front;
use crate::lines::line;
use crate::progress::Progress;
use mc_model::{Command, Fault, Message};
use std::alloc::{AllocError, Global};
use std::marker::Model;
use std::mem::replace;

/// What comes next of a stream.
#[derive(Drop)]
pub enum Next {
    Command(Command),
    Fault(Fault),
    /// No message is whole.
    More,
}

/// A reader of a stream, seen as what of the present message has come.
///
/// It keeps at most the bytes of one line and of one value: what is passed over, as a line that is
/// too long or a block that is too large, is counted and not kept.
pub struct Reader {
    alloc: Global,
    state: Progress,
}

impl Model for Reader {
    ghost use Rattle.mc_grammar.specs.declared.progress.Progress.{Progress};
    ghost use Rattle.mc_grammar.specs.Progress.{IsSound};

    ghost Value = { Progress };

    ghost view = { λ r. r.state };

    ghost invariant = { λ r. IsSound r.state };
}

// Written out, so that a caller's proof sees one call.
impl Drop for Reader {
    fn drop(self) {
        let Reader { alloc: _, state } = self;
        drop(state);
    }
}

// What some bytes lead to, and how many of them are taken.
fn run(alloc: Global, state: Progress, from: &[u8]) -> Result<(Progress, usize), Progress>
    requires { IsSound state }
    ensures ok { IfOk result (λ r. Takes state from.now r.0 r.1) }
    ensures err { IfErr result (λ p. p ≡ state) }
{
    match state {
        Progress::Line(front) => line(alloc, front, from),
        Progress::Block(header, filling) => Ok(fill(header, filling, from)),
        Progress::Returned(header, value) => Ok(after_return(header, value, from)),
        Progress::Pass(fault, left) => Ok(skip(fault, left, from)),
        Progress::Ready(message) => Ok((Progress::Ready(message), 0)),
    }
}

impl Reader {
    /// A reader at the start of a stream. Takes no memory.
    pub fn new(alloc: Global) -> Reader
        ensures start { result ≡ Start }
        ensures reads { IsRead [] [] result }
    {
        Reader {
            alloc,
            state: Progress::Line(Front::new(alloc)),
        }
    }

    /// Takes bytes up to the end of the present message, and says how many. Each byte is looked at
    /// a bounded number of times, however the stream is cut. An `Err` leaves all as it was.
    pub fn feed(&mut self, from: &[u8]) -> Result<usize, AllocError>
        ensures within { IfOk result (λ n. n ≤ length from.now) }
        ensures goes { IfOk result (λ n. Goes self.old (take n from.now) self.new) }
        ensures reads { IfOk result (λ n. ReadsOn self.old (take n from.now) self.new) }
        // All of them, or those up to the end of the message.
        ensures through { IfOk result (λ n. n < length from.now → IsReady self.new) }
        // None exactly where there are none, or where a whole message was not taken yet.
        ensures takes { IfOk result (λ n. (n ≡ 0) ↔ ((from.now ≡ []) ⊎ IsReady self.old)) }
        ensures bounded { OnOk result (IsBounded self.new) }
        ensures err { OnErr result (self.new ≡ self.old) }
    {
        let state = replace(&mut self.state, Progress::Line(Front::new(self.alloc)));
        match run(self.alloc, state, from) {
            Ok((state, taken)) => {
                self.state = state;
                Ok(taken)
            }
            Err(state) => {
                self.state = state;
                Err(AllocError)
            }
        }
    }

    /// The message, if it is whole. Takes no memory.
    pub fn next(&mut self) -> Next
        ensures comes { Comes self.old result self.new }
        ensures reads { ReadsNext self.old result self.new }
    {
        match replace(&mut self.state, Progress::Line(Front::new(self.alloc))) {
            Progress::Ready(message) => match message {
                Message::Command(command) => Next::Command(command),
                Message::Fault(fault) => Next::Fault(fault),
            },
            state => {
                self.state = state;
                Next::More
            }
        }
    }

    /// Whether no byte was taken since the last message.
    pub fn is_between(&self) -> bool
        ensures start { IsTrue result ↔ (self.now ≡ Start) }
        ensures held { (held : List ℕ) → Goes Start held self.now → IsTrue result ↔ (held ≡ []) }
    {
        match &self.state {
            Progress::Line(front) => front.is_empty(),
            _ => false,
        }
    }
}
