//! What a task is at.
ghost use Rattle.std.specs.Prelude.{◌≡◌};
ghost use Rattle.tm_task.specs.Stages.{is_asking, is_ended, is_fresh};

use tm_seq::Entrusted;

/// What a task is at. `O` is what it ends with.
#[derive(Drop)]
pub enum Stage<S: Entrusted, T, O> {
    /// It was not started.
    Fresh(T),
    /// It is to apply an operation, and the client has not accepted that yet.
    Asks {
        /// Which of the trusts.
        trust: u32,
        /// The operation.
        op: S::Op,
        /// The task that goes on with the answer.
        task: T,
    },
    /// It waits for the answer.
    Waits {
        /// Which of the trusts was asked.
        trust: u32,
        /// The task that goes on with the answer.
        task: T,
    },
    /// It has ended: with an output, or with none where it named a trust past the last.
    Ended(Option<O>),
}

impl<S: Entrusted, T, O> Stage<S, T, O> {
    /// Whether it has ended.
    pub(crate) fn is_ended(&self) -> bool
        ensures { result ≡ is_ended self.now }
    {
        matches!(self, Stage::Ended(_))
    }

    /// Whether it was not started.
    pub(crate) fn is_fresh(&self) -> bool
        ensures { result ≡ is_fresh self.now }
    {
        matches!(self, Stage::Fresh(_))
    }

    /// Whether it is to ask.
    pub(crate) fn is_asking(&self) -> bool
        ensures { result ≡ is_asking self.now }
    {
        matches!(self, Stage::Asks { .. })
    }
}
