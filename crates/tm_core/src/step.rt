//! The steps of the slots over numbers.

/// A step of a client or of the trustee at a place. Requests and answers are numbers.
#[derive(Debug, Drop)]
pub enum Step {
    /// A client publishes a batch.
    Publish {
        /// Its place.
        client: u32,
        /// The requests, at most [`MOST_REQUESTS`](tm_batch::MOST_REQUESTS).
        requests: Vec<u64>,
    },
    /// The trustee looks at a place, and takes a batch that was published.
    See {
        /// The place.
        client: u32,
    },
    /// The trustee answers the batch that it took at a place.
    Answer {
        /// The place.
        client: u32,
        /// One answer for each request, in order.
        answers: Vec<u64>,
    },
    /// A client looks, and collects answers that stand there.
    Collect {
        /// Its place.
        client: u32,
    },
}

/// Why a step was not made. Nothing changed, and the step is handed back.
#[derive(Debug, Drop)]
pub enum StepRefused {
    /// It is not allowed: the place is out of range, a batch is published over one that was not collected or has
    /// too many requests, or there is no batch in hand of as many requests as answers.
    NotAllowed(Step),
    /// It is allowed, and memory was wanting.
    NoMemory(Step),
}
