//! What a trustee passes before each request.

/// What a trustee passes before each request that it runs, such as a pause or a trace. It always returns, and
/// changes nothing that contracts speak of. Trustees on several threads share one.
pub trait Gate {
    /// Passes the gate: the trustee of this number has run so many requests before.
    fn at(&self, trustee: u32, number: u64);
}
