//! Blocks, and what is passed over.
ghost use Rattle.std.specs.Prelude.{◌≡◌, [], IfOk};
ghost use Rattle.mc_model.specs.declared.message.Message.TheVariants as message;
ghost use Rattle.mc_model.specs.Stream.{stored};
ghost use Rattle.mc_grammar.specs.Progress.{IsPassed, IsSound, Takes};

use crate::ends::end_of_line;
use crate::held::Filling;
use crate::progress::Progress;
use mc_item::{Bytes, LARGEST_VALUE};
use mc_model::{Command, Fault, Header, Message};
use std::alloc::{AllocError, Global};

// Passes over the bytes through a line end.
fn skip_line(fault: Fault, from: &[u8]) -> (Progress, usize)
    requires { IsPassed fault }
    ensures { Takes (Progress.Pass fault 0) from.now result.0 result.1 }
{
    match end_of_line(from) {
        None => (Progress::Pass(fault, 0), from.len()),
        Some(n) => (Progress::Ready(Message::Fault(fault)), n),
    }
}

// Passes over so many bytes, and then those through a line end.
pub(crate) fn skip(fault: Fault, left: usize, from: &[u8]) -> (Progress, usize)
    requires { IsPassed fault }
    ensures { Takes (Progress.Pass fault left) from.now result.0 result.1 }
{
    if from.len() < left {
        return (Progress::Pass(fault, left - from.len()), from.len());
    }
    let (_, rest) = from.split_at(left);
    let (progress, taken) = skip_line(fault, rest);
    (progress, left + taken)
}

// A block whose tail goes on: what stands on the tail's line is no command.
fn bad_chunk(quiet: bool, from: &[u8]) -> (Progress, usize)
    ensures { Takes (Progress.Pass (Fault.BadChunk quiet) 0) from.now result.0 result.1 }
{
    skip_line(Fault::BadChunk { quiet }, from)
}

// The storage command of a header and its block.
fn store(header: Header, value: Bytes) -> Message
    ensures { result ≡ Message.Command (Command.Store header.how header.key header.flags header.exptime value header.quiet) }
{
    let Header {
        how,
        key,
        flags,
        exptime,
        size: _,
        quiet,
    } = header;
    Message::Command(Command::Store {
        how,
        key,
        flags,
        exptime,
        value,
        quiet,
    })
}

// What comes behind a block and a carriage return.
pub(crate) fn after_return(header: Header, value: Bytes, from: &[u8]) -> (Progress, usize)
    requires { IsSound (Progress.Returned header value) }
    ensures { Takes (Progress.Returned header value) from.now result.0 result.1 }
{
    let quiet = header.quiet;
    match from {
        [] => (Progress::Returned(header, value), 0),
        [first, rest @ ..] => {
            if *first == b'\n' {
                (Progress::Ready(store(header, value)), 1)
            } else {
                let (progress, taken) = bad_chunk(quiet, rest);
                (progress, 1 + taken)
            }
        }
    }
}

// What comes behind a block.
fn tail(header: Header, filling: Filling, from: &[u8]) -> (Progress, usize)
    requires sound { IsSound (Progress.Block header filling) }
    requires whole { filling.1 ≡ 0 }
    ensures { Takes (Progress.Block header filling) from.now result.0 result.1 }
{
    let quiet = header.quiet;
    match from {
        [] => (Progress::Block(header, filling), 0),
        [first, rest @ ..] => {
            if *first == b'\r' {
                let (progress, taken) = after_return(header, filling.into_bytes(), rest);
                (progress, 1 + taken)
            } else if *first == b'\n' {
                (
                    Progress::Ready(Message::Fault(Fault::BadChunk { quiet })),
                    1,
                )
            } else {
                let (progress, taken) = bad_chunk(quiet, rest);
                (progress, 1 + taken)
            }
        }
    }
}

// Takes what a block lacks, and its tail.
pub(crate) fn fill(header: Header, mut filling: Filling, from: &[u8]) -> (Progress, usize)
    requires { IsSound (Progress.Block header filling) }
    ensures { Takes (Progress.Block header filling) from.now result.0 result.1 }
{
    let lacking = filling.lacking();
    if from.len() < lacking {
        filling.take(from);
        return (Progress::Block(header, filling), from.len());
    }
    let (block, rest) = from.split_at(lacking);
    filling.take(block);
    let (progress, taken) = tail(header, filling, rest);
    (progress, lacking + taken)
}

// Begins a block. Takes the memory for all of it first.
pub(crate) fn begin(
    alloc: Global,
    header: Header,
    from: &[u8],
) -> Result<(Progress, usize), AllocError>
    ensures { IfOk result (λ r. Takes (Progress.Block header ([], header.size)) from.now r.0 r.1) }
{
    let size = header.size as usize;
    if size > LARGEST_VALUE {
        let quiet = header.quiet;
        return Ok(skip(Fault::TooLarge { quiet }, size, from));
    }
    let filling = Filling::new(alloc, size)?;
    Ok(fill(header, filling, from))
}
