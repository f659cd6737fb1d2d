//! Runs of the program over devices in memory. What a run must show comes from memcached's protocol.txt, and from the
//! rules of docs/PROTOCOL.md.

mod devices;
mod long_rows;
mod rows;

use mc_top::{Status, top_in_turns};
use std::alloc::{AllocError, Global};
use std::hash::RandomState;
use tm_base::{FreeGate, MemClock, MemSink, MemSource};

// The moment at which rows run that name no clock.
const NOW: u64 = 1_700_000_000;

// A text with its line ends: `~` stands for one, and `^` for a lone line feed.
fn text(alloc: Global, row: &str) -> Result<Vec<u8>, AllocError> {
    let mut bytes = Vec::new(alloc);
    for byte in row.bytes() {
        match byte {
            b'~' => bytes.extend_from_slice(b"\r\n")?,
            b'^' => bytes.push(b'\n')?,
            _ => bytes.push(byte)?,
        }
    }
    Ok(bytes)
}

fn words(alloc: Global, words: &[&str]) -> Result<Vec<String>, AllocError> {
    let mut all = Vec::new(alloc);
    for word in words {
        all.push(String::from_str(alloc, word)?)?;
    }
    Ok(all)
}

// What a run by these words writes for an input that comes in such pieces, and its status.
fn run_by(
    alloc: Global,
    said: &[&str],
    clock: &[u64],
    input: &[u8],
    cuts: Vec<usize>,
    hasher: RandomState,
) -> Result<(Vec<u8>, Status), AllocError> {
    let words = words(alloc, said)?;
    let mut source = MemSource::new(Vec::from_slice(alloc, input)?, cuts, Vec::new(alloc));
    let mut sink = MemSink::new(alloc, 1 << 30, Vec::new(alloc));
    let mut clock = MemClock::new(Vec::from_slice(alloc, clock)?);
    let status = top_in_turns(
        alloc,
        &words,
        &mut source,
        &mut sink,
        &mut clock,
        &FreeGate,
        hasher,
    );
    Ok((Vec::from_slice(alloc, sink.bytes())?, status))
}

// What `run --turns` writes so.
fn run(
    alloc: Global,
    clock: &[u64],
    input: &[u8],
    cuts: Vec<usize>,
    hasher: RandomState,
) -> Result<(Vec<u8>, Status), AllocError> {
    run_by(alloc, &["run", "--turns"], clock, input, cuts, hasher)
}

// Whether the input is answered so, whole and in pieces of so many bytes.
fn shows(
    alloc: Global,
    clock: &[u64],
    input: &[u8],
    piece: usize,
    output: &[u8],
    status: Status,
    hasher: RandomState,
) -> Result<bool, AllocError> {
    let cuts = vec![in alloc; piece; input.len()]?;
    let (whole, ended) = run(alloc, clock, input, Vec::new(alloc), hasher)?;
    let (pieced, pieced_ended) = run(alloc, clock, input, cuts, hasher)?;
    let whole = whole.as_slice() == output && ended == status;
    Ok(whole && pieced.as_slice() == output && pieced_ended == status)
}
