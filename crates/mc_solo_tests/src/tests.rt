//! What sessions show over 2 to 32 trustees. What must be shown comes from memcached's protocol.txt, and from the rules of
//! docs/PROTOCOL.md.

mod clients;
mod ends;
mod rows;

use crate::Given;
use std::alloc::{AllocError, Global};

// A text with its line ends: `~` stands for one.
fn text(alloc: Global, row: &str) -> Result<Vec<u8>, AllocError> {
    let mut bytes = Vec::new(alloc);
    for byte in row.bytes() {
        match byte {
            b'~' => bytes.extend_from_slice(b"\r\n")?,
            _ => bytes.push(byte)?,
        }
    }
    Ok(bytes)
}

// An input that comes in one piece, all of which is answered.
fn whole(alloc: Global, row: &str) -> Result<Given, AllocError> {
    Ok(Given {
        input: text(alloc, row)?,
        cuts: Vec::new(alloc),
        limit: u64::MAX,
        failed_reads: Vec::new(alloc),
        failed_writes: Vec::new(alloc),
    })
}
