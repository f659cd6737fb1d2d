//! The plain program: it reads a whole text, as the definition does. It looks at single bytes, wants
//! all of them at once, and is here to be compared with.
ghost use Rattle.std.specs.Prelude.{◌≡◌, ◌<◌, ◌≤◌, length, take, IfOk, MatchOption};
ghost use Rattle.mc_model.specs.Line.{IsLine, HasNoEnd};
ghost use Rattle.mc_model.specs.Stream as spec;
ghost use Rattle.mc_grammar.specs.Pieces.{IsReading};
ghost use Rattle.mc_grammar.specs.Plain.{IsAwaited};

use crate::pieces::Reading;
use mc_item::{Bytes, LARGEST_VALUE};
use mc_line::saying_of;
use mc_model::{Command, Fault, Header, Message, Saying};
use std::alloc::{AllocError, Global};

// How many bytes the first line has.
fn first_line(text: &[u8]) -> Option<usize>
    ensures { MatchOption result (HasNoEnd text.now) (λ n. (0 < n) × (n ≤ length text.now) × IsLine (take n text.now)) }
{
    for (i, byte) in text.iter().enumerate() {
        if *byte == b'\n' {
            return Some(i + 1);
        }
    }
    None
}

// The message of a storage line, its block and its tail.
fn stored(alloc: Global, header: Header, block: &[u8], tail: &[u8]) -> Result<Message, AllocError>
    ensures { IfOk result (λ m. m ≡ spec.stored header block.now tail.now) }
{
    let quiet = header.quiet;
    if header.size as usize > LARGEST_VALUE {
        return Ok(Message::Fault(Fault::TooLarge { quiet }));
    }
    if tail != b"\r\n".as_slice() {
        return Ok(Message::Fault(Fault::BadChunk { quiet }));
    }
    let value = Bytes::of(alloc, block)?;
    let Header {
        how,
        key,
        flags,
        exptime,
        size: _,
        quiet: _,
    } = header;
    Ok(Message::Command(Command::Store {
        how,
        key,
        flags,
        exptime,
        value,
        quiet,
    }))
}

// The message of a line, and how many bytes behind the line belong to it.
fn completed(
    alloc: Global,
    saying: Saying,
    rest: &[u8],
) -> Result<Option<(Message, usize)>, AllocError>
    ensures { IfOk result (λ found. MatchOption found (IsAwaited saying rest.now)
        (λ r. (r.1 ≤ length rest.now) × spec.Completes saying (take r.1 rest.now) r.0)) }
{
    match saying {
        Saying::Alone(message) => Ok(Some((message, 0))),
        Saying::Awaits(header) => {
            let size = header.size as usize;
            if rest.len() < size {
                return Ok(None);
            }
            let (block, behind) = rest.split_at(size);
            let Some(n) = first_line(behind) else {
                return Ok(None);
            };
            let (tail, _) = behind.split_at(n);
            let message = stored(alloc, header, block, tail)?;
            Ok(Some((message, size + n)))
        }
    }
}

// The first message of a text, and how many bytes it has.
fn first_message(alloc: Global, text: &[u8]) -> Result<Option<(Message, usize)>, AllocError>
    ensures { IfOk result (λ found. MatchOption found (spec.IsPartial text.now)
        (λ r. (0 < r.1) × (r.1 ≤ length text.now) × spec.Spells (take r.1 text.now) r.0)) }
{
    let Some(n) = first_line(text) else {
        return Ok(None);
    };
    let (line, rest) = text.split_at(n);
    let saying = saying_of(alloc, line)?;
    match completed(alloc, saying, rest)? {
        None => Ok(None),
        Some((message, taken)) => Ok(Some((message, n + taken))),
    }
}

/// Reads a whole text by the definition. It looks at single bytes, and keeps no limit on memory.
pub fn read_plainly(alloc: Global, text: &[u8]) -> Result<Reading, AllocError>
    ensures { IfOk result (λ r. IsReading text.now r.messages.items r.is_whole) }
{
    let mut messages = Vec::new(alloc);
    let mut at = 0;
    while let Some((message, length)) = first_message(alloc, &text[at..])? {
        messages.push(message)?;
        at += length;
    }
    let is_whole = at == text.len();
    Ok(Reading { messages, is_whole })
}
