//! How much is before a session.
ghost use Rattle.std.specs.Prelude.{◌≡◌, ◌↔◌, ℕ, List, length, true};
ghost use Rattle.mc_model.specs.declared.message.Message.{Message};
ghost use Rattle.mc_intake.specs.Intake.{IsIntake};
ghost use Rattle.mc_next.specs.Numbers.{numbers_of, one_where, IsBounded};
ghost use Rattle.mc_next.specs.Works.{left_of};
ghost use Rattle.mc_next.specs.Steps.{before_of, unasked_in};

use crate::session::Session;
use crate::todo::Todo;
use crate::work::Work;

/// How much is before a session. A step that reads, takes, asks, shows or writes something lessens the first of these that
/// it changes, in this order; one that only makes turns or takes replies leaves them all.
#[derive(Debug, Clone, Copy)]
pub struct Ahead {
    /// Whether it has not stopped.
    pub runs: bool,
    /// How many more bytes of the input are answered, and one for each of its two ends that no read has shown.
    pub to_come: u128,
    /// How many bytes were read and are not fed to its reader.
    pub unfed: usize,
    /// Whether a command is at work.
    pub at_work: bool,
    /// Whether bytes are to be written.
    pub unwritten: bool,
    /// How many questions of the command at work are to be asked.
    pub unasked: u128,
}

impl Ahead {
    /// Whether as much is before one session as before another.
    pub fn is_as(&self, other: &Ahead) -> bool
        ensures { (result ≡ true) ↔ (numbers_of self.now ≡ numbers_of other.now) }
    {
        self.runs == other.runs
            && self.to_come == other.to_come
            && self.unfed == other.unfed
            && self.at_work == other.at_work
            && self.unwritten == other.unwritten
            && self.unasked == other.unasked
    }
}

// One, where this holds.
fn one(holds: bool) -> u128
    ensures { result ≡ one_where holds }
{
    if holds { 1 } else { 0 }
}

// How many questions are left.
fn count_left(todo: &Todo) -> u128
    ensures { result ≡ length (left_of todo.now) }
{
    one(todo.first.is_some()) + todo.rest.len() as u128
}

// How many questions of the command at work are to be asked.
fn count_unasked(work: &Option<Work>) -> u128
    ensures { result ≡ unasked_in work.now }
{
    match work {
        Some(work) => count_left(&work.todo),
        None => 0,
    }
}

impl Session {
    /// How much is before it.
    pub fn ahead(&self) -> Ahead
        requires { (limit : ℕ) × (text : List ℕ) × (messages : List Message) × IsIntake limit text messages self.now.intake }
        ensures numbers { numbers_of result ≡ before_of self.now }
        ensures bounded { IsBounded result }
    {
        Ahead {
            runs: self.stopped.is_none(),
            to_come: self.intake.left() as u128 + one(!self.too_much) + one(!self.at_end),
            unfed: self.intake.unfed(),
            at_work: self.work.is_some(),
            unwritten: !self.gathered.is_empty(),
            unasked: count_unasked(&self.work),
        }
    }
}
