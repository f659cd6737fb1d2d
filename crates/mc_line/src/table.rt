//! The table of commands.
ghost use Rattle.std.specs.Prelude.{◌≡◌, map, IfOk};
ghost use Rattle.mc_model.specs.Commands as spec;
ghost use Rattle.mc_model.specs.Line.{says};

use crate::keyed::{change_row, delete_row, get_row, get_touch_row, touch_row};
use crate::other::{flush_row, plain_row, verbosity_row};
use crate::saying::fails;
use crate::storage::{cas_row, store_row};
use crate::token::{body, tokens};
use mc_item::LONGEST_LINE;
use mc_model::{Command, Fault, How, Saying};
use std::alloc::{AllocError, Global};

fn other_row(name: &[u8], rest: &[&[u8]]) -> Saying
    ensures { result ≡ spec.other_row name.now (map (λ t. t.now) rest.now) }
{
    if name == b"flush_all".as_slice() {
        flush_row(rest)
    } else if name == b"stats".as_slice() {
        plain_row(Command::Stats, rest)
    } else if name == b"version".as_slice() {
        plain_row(Command::Version, rest)
    } else if name == b"verbosity".as_slice() {
        verbosity_row(rest)
    } else if name == b"quit".as_slice() {
        plain_row(Command::Quit, rest)
    } else {
        fails(Fault::Unknown)
    }
}

fn key_row(alloc: Global, name: &[u8], rest: &[&[u8]]) -> Result<Saying, AllocError>
    ensures { IfOk result (λ s. s ≡ spec.key_row name.now (map (λ t. t.now) rest.now)) }
{
    if name == b"get".as_slice() {
        get_row(alloc, false, rest)
    } else if name == b"gets".as_slice() {
        get_row(alloc, true, rest)
    } else if name == b"delete".as_slice() {
        delete_row(alloc, rest)
    } else if name == b"incr".as_slice() {
        change_row(alloc, true, rest)
    } else if name == b"decr".as_slice() {
        change_row(alloc, false, rest)
    } else if name == b"touch".as_slice() {
        touch_row(alloc, rest)
    } else if name == b"gat".as_slice() {
        get_touch_row(alloc, false, rest)
    } else if name == b"gats".as_slice() {
        get_touch_row(alloc, true, rest)
    } else {
        Ok(other_row(name, rest))
    }
}

fn row(alloc: Global, name: &[u8], rest: &[&[u8]]) -> Result<Saying, AllocError>
    ensures { IfOk result (λ s. s ≡ spec.row name.now (map (λ t. t.now) rest.now)) }
{
    if name == b"set".as_slice() {
        store_row(alloc, How::Set, rest)
    } else if name == b"add".as_slice() {
        store_row(alloc, How::Add, rest)
    } else if name == b"replace".as_slice() {
        store_row(alloc, How::Replace, rest)
    } else if name == b"append".as_slice() {
        store_row(alloc, How::Append, rest)
    } else if name == b"prepend".as_slice() {
        store_row(alloc, How::Prepend, rest)
    } else if name == b"cas".as_slice() {
        cas_row(alloc, rest)
    } else {
        key_row(alloc, name, rest)
    }
}

fn tokens_say(alloc: Global, tokens: &[&[u8]]) -> Result<Saying, AllocError>
    ensures { IfOk result (λ s. s ≡ spec.tokens_say (map (λ t. t.now) tokens.now)) }
{
    match tokens {
        [] => Ok(fails(Fault::Unknown)),
        [name, rest @ ..] => row(alloc, name, rest),
    }
}

/// What a line says, its line end included. Each byte is looked at a bounded number of times.
#[tactic(auto, unfolding(mc_model::specs::Line::says))]
pub fn saying_of(alloc: Global, line: &[u8]) -> Result<Saying, AllocError>
    ensures { IfOk result (λ saying. saying ≡ says line.now) }
{
    if line.len() > LONGEST_LINE {
        return Ok(fails(Fault::LineTooLong));
    }
    let tokens = tokens(alloc, body(line))?;
    tokens_say(alloc, &tokens)
}
