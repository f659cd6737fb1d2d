//! What is kept of a command until its replies are there.
ghost use Rattle.std.specs.Prelude.{◌≡◌, IfOk};
ghost use Rattle.mc_model.specs.Showing.{is_quiet};
ghost use Rattle.mc_route.specs.Plans.{showing_of, frame_of};

use mc_model::{Command, How, Keys, Said};
use std::alloc::{AllocError, Global};

/// An operation, or a launch, whose only reply is shown.
#[derive(Clone, Copy, Debug, PartialEq, Eq)]
pub enum Operation {
    Store(How),
    Delete,
    Change,
    Touch,
    FlushAll,
    Stats,
}

/// What is shown, unless the command is quiet.
#[derive(Drop)]
pub enum Showing {
    Nothing,
    /// A line that depends on no reply.
    Line(Said),
    /// What the only reply says.
    ReplyTo(Operation),
    /// The items that the replies to a get of these keys tell.
    Values { keys: Keys, with_cas: bool },
}

/// What is kept of a command until its replies are there. The keys and the value of what is asked are not in it, but
/// the keys of a `get`.
#[derive(Drop)]
pub struct Frame {
    /// Whether it was sent with `noreply`.
    pub quiet: bool,
    /// What is shown else.
    pub showing: Showing,
}

// The keys once more.
fn copy_of(alloc: Global, keys: &Keys) -> Result<Keys, AllocError>
    ensures { IfOk result (λ copy. copy ≡ keys.now) }
{
    let mut copy = Keys::new(alloc);
    for at in 0..keys.len() {
        copy.push(keys.get(at).clone()?)?;
    }
    Ok(copy)
}

// What is shown of the replies to a command.
fn showing_of(alloc: Global, command: &Command) -> Result<Showing, AllocError>
    ensures { IfOk result (λ showing. showing ≡ showing_of command.now) }
{
    Ok(match command {
        Command::Store { how, .. } => Showing::ReplyTo(Operation::Store(*how)),
        Command::Get { keys, with_cas } | Command::GetTouch { keys, with_cas, .. } => {
            Showing::Values {
                keys: copy_of(alloc, keys)?,
                with_cas: *with_cas,
            }
        }
        Command::Delete { .. } => Showing::ReplyTo(Operation::Delete),
        Command::Change { .. } => Showing::ReplyTo(Operation::Change),
        Command::Touch { .. } => Showing::ReplyTo(Operation::Touch),
        Command::FlushAll { .. } => Showing::ReplyTo(Operation::FlushAll),
        Command::Stats => Showing::ReplyTo(Operation::Stats),
        Command::Version => Showing::Line(Said::Version),
        Command::Verbosity { .. } => Showing::Line(Said::Ok),
        Command::Quit => Showing::Nothing,
    })
}

// Whether a command was sent with `noreply`.
fn is_quiet(command: &Command) -> bool
    ensures { result ≡ is_quiet command.now }
{
    match command {
        Command::Store { quiet, .. }
        | Command::Delete { quiet, .. }
        | Command::Change { quiet, .. }
        | Command::Touch { quiet, .. }
        | Command::FlushAll { quiet, .. }
        | Command::Verbosity { quiet } => *quiet,
        Command::Get { .. }
        | Command::GetTouch { .. }
        | Command::Stats
        | Command::Version
        | Command::Quit => false,
    }
}

impl Frame {
    // What is kept of a command.
    pub(crate) fn of(alloc: Global, command: &Command) -> Result<Frame, AllocError>
        ensures { IfOk result (λ frame. frame ≡ frame_of command.now) }
    {
        Ok(Frame {
            quiet: is_quiet(command),
            showing: showing_of(alloc, command)?,
        })
    }
}
