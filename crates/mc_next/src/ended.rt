//! How a session ends.

/// How a session ended.
#[derive(Debug, Clone, Copy, PartialEq, Eq)]
pub enum Ended {
    /// The input ended between two messages, or there was nothing of it.
    AtEnd,
    /// A `quit` was taken.
    Quit,
    /// The input ended inside a message.
    Inside,
    /// The source failed.
    ReadFault,
    /// The sink failed.
    WriteFault,
    /// More bytes came than are answered, and no `quit` lies whole in those that are.
    TooMuch,
    /// Memory was wanting.
    NoMemory,
}

/// What a step did.
#[derive(Debug, Clone, Copy, PartialEq, Eq)]
pub enum Stepped {
    /// It read, took, asked, sent, got or wrote something, and the session is not over.
    Moved,
    /// It did nothing, and the session is not over: a request of the client counts, and its answer has not come.
    Waiting,
    /// The session is over.
    Over(Ended),
}
