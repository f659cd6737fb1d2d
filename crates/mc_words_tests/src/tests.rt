//! Tables of words: what good ones say, with each usual value, and which are refused, at each limit on both sides.
mod bad;
mod good;

use mc_words::{Words, WordsStop, read_words};
use std::alloc::{AllocError, Global};

// The words of a line, between single spaces: two spaces have an empty word between them.
fn words(alloc: Global, line: &str) -> Result<Vec<String>, AllocError> {
    let mut all = Vec::new(alloc);
    for word in line.split(' ') {
        all.push(String::from_str(alloc, word)?)?;
    }
    Ok(all)
}

// What the words of a line say.
fn read(alloc: Global, line: &str) -> Result<Result<Words, WordsStop>, AllocError> {
    let words = words(alloc, line)?;
    Ok(read_words(alloc, words.as_slice()))
}
