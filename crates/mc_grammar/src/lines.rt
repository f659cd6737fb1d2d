//! Lines, as they come.
ghost use Rattle.std.specs.Prelude.{◌≡◌, ◌≢◌, ◌++◌, [], length, IfOk, IfErr};
ghost use Rattle.mc_model.specs.Line.{IsLine, HasNoEnd};
ghost use Rattle.mc_grammar.specs.Progress.{IsSound, Goes, Takes};

use crate::blocks::begin;
use crate::ends::end_of_line;
use crate::held::Front;
use crate::progress::Progress;
use mc_item::LONGEST_LINE;
use mc_line::saying_of;
use mc_model::{Fault, Message, Saying};
use std::alloc::{AllocError, Global};

// What a whole line leads to, and how many of the bytes behind it are taken.
fn whole_line(alloc: Global, line: &[u8], from: &[u8]) -> Result<(Progress, usize), AllocError>
    requires { IsLine line.now }
    ensures { IfOk result (λ r. Takes (Progress.Line line.now) from.now r.0 r.1) }
{
    match saying_of(alloc, line)? {
        Saying::Alone(message) => Ok((Progress::Ready(message), 0)),
        Saying::Awaits(header) => begin(alloc, header, from),
    }
}

// Keeps bytes of a line whose end has not come, unless the line is too long already.
fn unended(mut front: Front, from: &[u8]) -> Result<Progress, Progress>
    requires sound { IsSound (Progress.Line front) }
    requires no_end { HasNoEnd from.now }
    ensures goes { IfOk result (λ p. Goes (Progress.Line front) from.now p) }
    ensures sound { IfOk result (λ p. IsSound p) }
    ensures err { IfErr result (λ p. p ≡ Progress.Line front) }
{
    if from.len() >= LONGEST_LINE - front.len() {
        return Ok(Progress::Pass(Fault::LineTooLong, 0));
    }
    match front.extend(from) {
        Ok(()) => Ok(Progress::Line(front)),
        Err(AllocError) => Err(Progress::Line(front)),
    }
}

// Puts the end of a line behind its front.
fn joined(
    alloc: Global,
    mut front: Front,
    end: &[u8],
    from: &[u8],
) -> Result<(Progress, usize), Progress>
    requires { IsLine (front ++ end.now) }
    ensures ok { IfOk result (λ r. Takes (Progress.Line (front ++ end.now)) from.now r.0 r.1) }
    ensures err { IfErr result (λ p. p ≡ Progress.Line front) }
{
    let held = front.len();
    match front.extend(end) {
        Err(AllocError) => Err(Progress::Line(front)),
        Ok(()) => match whole_line(alloc, front.get(), from) {
            Ok(done) => Ok(done),
            Err(AllocError) => {
                front.cut_back(held);
                Err(Progress::Line(front))
            }
        },
    }
}

// Ends a line. A line that came in one piece is not copied.
fn ended(
    alloc: Global,
    front: Front,
    end: &[u8],
    from: &[u8],
) -> Result<(Progress, usize), Progress>
    requires sound { IsSound (Progress.Line front) }
    requires line { IsLine end.now }
    ensures ok { IfOk result (λ r. Takes (Progress.Line (front ++ end.now)) from.now r.0 r.1) }
    ensures err { IfErr result (λ p. p ≡ Progress.Line front) }
{
    if end.len() > LONGEST_LINE - front.len() {
        return Ok((Progress::Ready(Message::Fault(Fault::LineTooLong)), 0));
    }
    if !front.is_empty() {
        return joined(alloc, front, end, from);
    }
    match whole_line(alloc, end, from) {
        Ok(done) => Ok(done),
        Err(AllocError) => Err(Progress::Line(front)),
    }
}

// Takes bytes of a line, and of what stands behind it.
pub(crate) fn line(alloc: Global, front: Front, from: &[u8]) -> Result<(Progress, usize), Progress>
    requires { IsSound (Progress.Line front) }
    ensures ok { IfOk result (λ r. Takes (Progress.Line front) from.now r.0 r.1) }
    ensures err { IfErr result (λ p. p ≡ Progress.Line front) }
{
    match end_of_line(from) {
        None => Ok((unended(front, from)?, from.len())),
        Some(n) => {
            let (end, rest) = from.split_at(n);
            let (progress, taken) = ended(alloc, front, end, rest)?;
            Ok((progress, n + taken))
        }
    }
}
