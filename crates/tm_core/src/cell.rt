//! One place of the machine.
ghost use Rattle.std.specs.Prelude.{◌≡◌, ◌↔◌, ◌++◌, not, length, IsTrue, OnOk, OnErr, IfErr};
ghost use Rattle.tm_core.specs.declared.cell.Content.TheVariants.{Empty, Asked, Answered};
ghost use Rattle.tm_core.specs.Cells.{hand_of, HasInHand, seen, taken_out, IsNewCell, KeepsRest};

use std::alloc::Global;
use std::mem;

/// What stands in a slot.
#[derive(Drop)]
pub(crate) enum Content {
    Empty,
    /// A batch that was published.
    Asked(Vec<u64>),
    /// A batch that the trustee has in hand.
    Taken(Vec<u64>),
    /// The answers to a batch.
    Answered(Vec<u64>),
}

/// A place: its two words, its slot, and all the requests that it sent and that were run for it.
#[derive(Drop)]
pub(crate) struct Cell {
    pub(crate) request_word: bool,
    pub(crate) response_word: bool,
    pub(crate) content: Content,
    pub(crate) sent: Vec<u64>,
    pub(crate) ran: Vec<u64>,
}

impl Cell {
    /// A place at first. It takes no memory.
    pub(crate) fn new(alloc: Global) -> Cell
        ensures { IsNewCell result }
    {
        Cell {
            request_word: false,
            response_word: false,
            content: Content::Empty,
            sent: Vec::new(alloc),
            ran: Vec::new(alloc),
        }
    }

    /// Whether nothing stands in the slot.
    pub(crate) fn is_free(&self) -> bool
        ensures { IsTrue result ↔ (self.now.content ≡ Empty) }
    {
        match &self.content {
            Content::Empty => true,
            Content::Asked(_) => false,
            Content::Taken(_) => false,
            Content::Answered(_) => false,
        }
    }

    /// Whether the trustee has a batch of so many requests in hand.
    pub(crate) fn has_in_hand(&self, requests: usize) -> bool
        ensures { IsTrue result ↔ HasInHand self.now.content requests }
    {
        match &self.content {
            Content::Taken(batch) => requests == batch.len(),
            Content::Empty => false,
            Content::Asked(_) => false,
            Content::Answered(_) => false,
        }
    }

    /// Publishes a batch, or hands it back for want of memory. It costs a copy of the batch.
    pub(crate) fn publish(&mut self, requests: Vec<u64>) -> Result<(), Vec<u64>>
        ensures request { OnOk result (self.new.request_word ≡ not self.old.request_word) }
        ensures response { OnOk result (self.new.response_word ≡ self.old.response_word) }
        ensures content { OnOk result (self.new.content ≡ Asked requests) }
        ensures sent { OnOk result (self.new.sent.items ≡ self.old.sent.items ++ requests.items) }
        ensures ran { OnOk result (self.new.ran.items ≡ self.old.ran.items) }
        ensures err { OnErr result (KeepsRest self.old self.new × (self.new.content ≡ self.old.content)) }
        ensures back { IfErr result (λ r. r ≡ requests) }
    {
        if self.sent.extend_from_slice(&requests).is_err() {
            return Err(requests);
        }
        self.request_word = !self.request_word;
        self.content = Content::Asked(requests);
        Ok(())
    }

    /// Takes a batch that was published.
    pub(crate) fn see(&mut self)
        ensures content { self.new.content ≡ seen self.old.content }
        ensures rest { KeepsRest self.old self.new }
    {
        let content = mem::replace(&mut self.content, Content::Empty);
        self.content = match content {
            Content::Asked(batch) => Content::Taken(batch),
            other => other,
        };
    }

    /// Runs the batch in hand and answers it, or hands the answers back for want of memory. It costs a copy of the
    /// batch.
    pub(crate) fn answer(&mut self, answers: Vec<u64>) -> Result<(), Vec<u64>>
        ensures request { OnOk result (self.new.request_word ≡ self.old.request_word) }
        ensures response { OnOk result (self.new.response_word ≡ not self.old.response_word) }
        ensures content { OnOk result (self.new.content ≡ Answered answers) }
        ensures sent { OnOk result (self.new.sent.items ≡ self.old.sent.items) }
        ensures ran { OnOk result (self.new.ran.items ≡ self.old.ran.items ++ hand_of self.old.content) }
        ensures err { OnErr result (KeepsRest self.old self.new × (self.new.content ≡ self.old.content)) }
        ensures back { IfErr result (λ r. r ≡ answers) }
    {
        if self.ran.extend_from_slice(in_hand(&self.content)).is_err() {
            return Err(answers);
        }
        self.response_word = !self.response_word;
        self.content = Content::Answered(answers);
        Ok(())
    }

    /// Takes out answers that stand there.
    pub(crate) fn collect(&mut self)
        ensures content { self.new.content ≡ taken_out self.old.content }
        ensures rest { KeepsRest self.old self.new }
    {
        let content = mem::replace(&mut self.content, Content::Empty);
        self.content = match content {
            Content::Answered(_) => Content::Empty,
            other => other,
        };
    }
}

// The batch in hand, or nothing.
fn in_hand(content: &Content) -> &[u64]
    ensures { result.now ≡ hand_of content.now }
{
    match content {
        Content::Taken(batch) => batch.as_slice(),
        Content::Empty => &[],
        Content::Asked(_) => &[],
        Content::Answered(_) => &[],
    }
}
