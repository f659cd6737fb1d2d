//! A whole text that comes in pieces.
ghost use Rattle.std.specs.Prelude.{◌≡◌, length, IfOk, OnOk};
ghost use Rattle.std.specs.List.{flat_map};
ghost use Rattle.mc_grammar.specs.Pieces.{IsReading, ReadsInto, kept};
ghost use Rattle.mc_grammar.specs.Progress.{IsUnfinished};

use crate::reader::{Next, Reader};
use mc_model::Message;
use std::alloc::{AllocError, Global};

/// What a text reads as.
#[derive(Drop)]
pub struct Reading {
    /// Its messages, in order.
    pub messages: Vec<Message>,
    /// Nothing is left behind the last of them.
    pub is_whole: bool,
}

// Puts a message behind the others.
fn keep(messages: &mut Vec<Message>, next: Next) -> Result<(), AllocError>
    ensures { OnOk result (messages.new.items ≡ kept messages.old.items next) }
{
    match next {
        Next::Command(command) => messages.push(Message::Command(command))?,
        Next::Fault(fault) => messages.push(Message::Fault(fault))?,
        Next::More => {}
    }
    Ok(())
}

// Takes a piece, and puts its messages behind the others.
fn read_piece(
    reader: &mut Reader,
    messages: &mut Vec<Message>,
    piece: &[u8],
) -> Result<(), AllocError>
    requires { IsUnfinished reader.old }
    ensures reads { OnOk result (ReadsInto reader.old messages.old.items piece.now reader.new messages.new.items) }
    ensures unfinished { OnOk result (IsUnfinished reader.new) }
{
    let mut at = 0;
    while at < piece.len() {
        let taken = reader.feed(&piece[at..])?;
        at += taken;
        let next = reader.next();
        keep(messages, next)?;
    }
    Ok(())
}

/// Reads a text that comes in pieces, however it is cut.
pub fn read_pieces(alloc: Global, pieces: &[&[u8]]) -> Result<Reading, AllocError>
    ensures { IfOk result (λ r. IsReading (flat_map (λ p. p.now) pieces.now) r.messages.items r.is_whole) }
{
    let mut reader = Reader::new(alloc);
    let mut messages = Vec::new(alloc);
    for piece in pieces {
        read_piece(&mut reader, &mut messages, piece)?;
    }
    let is_whole = reader.is_between();
    Ok(Reading { messages, is_whole })
}
