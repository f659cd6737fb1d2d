//! What a sink under a lock gathered.

use crate::gathered::Gathered;
use std::alloc::{AllocError, Global};
use std::sync::{Arc, Mutex, Wait};

/// What a [`PostSink`](crate::PostSink) gathered, to be read where the sink is on another thread. No contract speaks of
/// what stands under the lock.
#[derive(Drop)]
pub struct Post {
    pub(crate) shared: Arc<Mutex<Gathered>, Global>,
}

impl Post {
    /// A copy of the bytes written so far. It waits for the lock.
    pub fn bytes<R: Wait>(&self, rt: &R) -> Result<Vec<u8>, AllocError> {
        self.shared.lock(rt).bytes.clone()
    }

    /// How many of the sink's faults were for want of memory. The count stays at `u64::MAX`. It waits for the lock.
    pub fn lacked<R: Wait>(&self, rt: &R) -> u64 {
        self.shared.lock(rt).lacked
    }
}
