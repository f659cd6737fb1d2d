//! The messages of a source, read as they come, at most its first bytes.
ghost use Rattle.std.specs.Prelude.{◌≡◌, ◌≢◌, ◌<◌, ◌↔◌, ℕ, length, min, [], List, IsTrue, true, Ok, IfOk, OnOk, OnErr};
ghost use Rattle.tm_base.specs.Causes.{HasCause};
ghost use Rattle.tm_base.specs.Visible.{Stays};
ghost use Rattle.mc_grammar.specs.declared.reader.Next.{Next};
ghost use Rattle.mc_model.specs.declared.message.Message.{Message};
ghost use Rattle.mc_intake.specs.Intake.{unfed, IsIntake, Takes, HasRead};

use mc_grammar::{Next, Reader};
use std::alloc::{AllocError, Global};
use tm_base::{Failed, Source};

/// How many bytes each read asks for.
pub const BUFFER: usize = 65_536;

/// What a read brought.
#[derive(Debug, Clone, Copy, PartialEq, Eq)]
pub enum Came {
    /// Bytes, all of them within the limit.
    Some,
    /// Bytes, some of them above the limit, which are dropped.
    TooMuch,
    /// The end.
    End,
}

/// The messages of a source, as far as it was read: a reader, and the bytes that were read and not fed to it.
///
/// It keeps a buffer of [`BUFFER`] bytes, and at most the bytes of one line and of one value.
#[derive(Drop)]
pub struct Intake {
    pub(crate) reader: Reader,
    pub(crate) buffer: Vec<u8>,
    // The bytes from here up to there are still to be fed.
    pub(crate) from: usize,
    pub(crate) to: usize,
    // How many more bytes are within the limit.
    pub(crate) left: u64,
}

/// As many of the bytes that came as are within the limit.
fn within(came: usize, left: u64) -> usize
    ensures { result ≡ min came left }
{
    if came as u64 > left {
        left as usize
    } else {
        came
    }
}

impl Intake {
    /// Before anything is read of a source of which the first `limit` bytes are taken. An `Err` is want of memory.
    pub fn new(alloc: Global, limit: u64) -> Result<Intake, AllocError>
        ensures { IfOk result (λ i. IsIntake limit [] [] i) }
    {
        let buffer = vec![in alloc; 0u8; BUFFER]?;
        Ok(Intake {
            reader: Reader::new(alloc),
            buffer,
            from: 0,
            to: 0,
            left: limit,
        })
    }

    /// The next message, if a whole one was read. With `More` all that was read is fed, and a read may bring the rest
    /// of one. An `Err`, for want of memory, leaves all as it was.
    pub fn next(&mut self) -> Result<Next, AllocError>
        requires { (limit : ℕ) × (text : List ℕ) × (messages : List Message) × IsIntake limit text messages self.old }
        ensures next { IfOk result (λ next. (limit : ℕ) (text : List ℕ) (messages : List Message) → IsIntake limit text messages self.old → Takes limit text messages next self.new) }
        ensures left { self.new.left ≡ self.old.left }
        // Each message has a byte at least, so where all is fed there is none.
        ensures fed { unfed self.old ≡ [] → (result ≡ Ok Next.More) × (self.new ≡ self.old) }
        ensures fewer { OnOk result (unfed self.old ≢ [] → length (unfed self.new) < length (unfed self.old)) }
        ensures err { OnErr result (self.new ≡ self.old) }
    {
        if self.from == self.to {
            return Ok(Next::More);
        }
        let taken = self.reader.feed(&self.buffer[self.from..self.to])?;
        self.from += taken;
        Ok(self.reader.next())
    }

    /// Reads once more, where all that was read is fed.
    pub fn read<A: Source>(&mut self, source: &mut A) -> Result<Came, Failed>
        requires intake { (limit : ℕ) × (text : List ℕ) × (messages : List Message) × IsIntake limit text messages self.old }
        requires fed { unfed self.old ≡ [] }
        ensures read { IfOk result (λ came. (limit : ℕ) (text : List ℕ) (messages : List Message) → IsIntake limit text messages self.old
            → HasRead limit text messages came (A.left source.old) (A.left source.new) self.new) }
        ensures stays { OnErr result (Stays (A.left source.old) (A.left source.new)) }
        ensures kept { OnErr result ((limit : ℕ) (text : List ℕ) (messages : List Message) → IsIntake limit text messages self.old → IsIntake limit text messages self.new) }
        // Where nothing came, all is fed still.
        ensures end { result ≡ Ok Came.End → unfed self.new ≡ [] }
        ensures none { OnErr result (unfed self.new ≡ []) }
        ensures cause { HasCause (A.faults source.old) (A.faults source.new) result }
        ensures no_fault { OnOk result (A.faults source.new ≡ A.faults source.old) }
    {
        let came = source.read(&mut self.buffer)?;
        let fed = within(came, self.left);
        self.from = 0;
        self.to = fed;
        self.left -= fed as u64;
        Ok(if came == 0 {
            Came::End
        } else if fed < came {
            Came::TooMuch
        } else {
            Came::Some
        })
    }

    /// Whether all that was read, as far as it is within the limit, is fed.
    pub fn is_fed(&self) -> bool
        requires { (limit : ℕ) × (text : List ℕ) × (messages : List Message) × IsIntake limit text messages self.now }
        ensures { (result ≡ true) ↔ (unfed self.now ≡ []) }
    {
        if self.from < self.to { false } else { true }
    }

    /// How many more bytes are within the limit.
    pub fn left(&self) -> u64
        ensures { result ≡ self.now.left }
    {
        self.left
    }

    /// How many bytes were read and are not fed.
    pub fn unfed(&self) -> usize
        requires { (limit : ℕ) × (text : List ℕ) × (messages : List Message) × IsIntake limit text messages self.now }
        ensures { result ≡ length (unfed self.now) }
    {
        self.to - self.from
    }

    /// Whether no byte of a further message was fed.
    pub fn is_between(&self) -> bool
        ensures { (limit : ℕ) (text : List ℕ) (messages : List Message) (i : IsIntake limit text messages self.now) → IsTrue result ↔ (i.is_read.held ≡ []) }
    {
        self.reader.is_between()
    }
}
