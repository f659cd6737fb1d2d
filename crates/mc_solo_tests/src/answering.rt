//! Inputs in memory are answered by the clients of a new store.
ghost use Rattle.std.specs.Prelude.{◌≡◌, ◌≢◌, ℕ, ◌≤◌, List};
ghost use Rattle.tm_batch.specs.declared.limits.TheConstants.{FEWEST_TRUSTEES, MOST_TRUSTEES};
ghost use Rattle.tm_client.specs.declared.trust.Trust.{Trust};
ghost use Rattle.tm_turns.specs.Whole.{AreTurns};
ghost use Rattle.mc_next.specs.Parts.{store_kind};
ghost use Rattle.mc_solo.specs.Serving.{MayServe};

use mc_next::Ended;
use mc_route::Store;
use mc_solo::{open_store, serve_in_turns};
use std::alloc::{AllocError, Global};
use std::hash::RandomState;
use tm_base::{FreeGate, MemClock, MemSink, MemSource};
use tm_client::Trust;
use tm_turns::Turns;

// The moment of all rows.
const NOW: u64 = 1_700_000_000;

/// An input, the pieces in which it comes, how many of its bytes are answered, and the reads and writes that fail.
#[derive(Drop)]
pub struct Given {
    pub input: Vec<u8>,
    pub cuts: Vec<usize>,
    pub limit: u64,
    pub failed_reads: Vec<u64>,
    pub failed_writes: Vec<u64>,
}

/// What was written, and how the session ended.
#[derive(Drop)]
pub struct Answered {
    pub output: Vec<u8>,
    pub ended: Ended,
}

fn serve(
    alloc: Global,
    turns: &mut Turns<Store, u64>,
    place: u32,
    trusts: &[Trust],
    given: Given,
) -> Result<Answered, AllocError>
    requires are { AreTurns store_kind turns.old }
    requires may { MayServe place trusts.now turns.old }
    ensures are { AreTurns store_kind turns.new }
    ensures again { MayServe place trusts.now turns.new }
    ensures others { (c : ℕ) (its : List Trust) → c ≢ place → MayServe c its turns.old → MayServe c its turns.new }
{
    let mut source = MemSource::new(given.input, given.cuts, given.failed_reads);
    let mut sink = MemSink::new(alloc, 1 << 30, given.failed_writes);
    let mut clock = MemClock::new(vec![in alloc; NOW]?);
    let ended = serve_in_turns(
        alloc,
        turns,
        place,
        trusts,
        &mut source,
        &mut sink,
        &mut clock,
        given.limit,
        &FreeGate,
    );
    Ok(Answered {
        output: Vec::from_slice(alloc, sink.bytes())?,
        ended,
    })
}

/// The only client of a new store over so many trustees answers an input.
pub fn answer(
    alloc: Global,
    trustees: u32,
    hasher: RandomState,
    given: Given,
) -> Result<Answered, AllocError>
    requires trustees { FEWEST_TRUSTEES ≤ trustees }
    requires most { trustees ≤ MOST_TRUSTEES }
{
    let (mut turns, trusts) = open_store(alloc, 1, trustees, 8, hasher)?;
    serve(alloc, &mut turns, 0, &trusts[0], given)
}

/// Of two clients of a new store the first one answers an input, then the second one another, and then the first one a
/// third. What was written for the last two.
pub fn answer_after(
    alloc: Global,
    trustees: u32,
    hasher: RandomState,
    first: Given,
    second: Given,
    third: Given,
) -> Result<(Answered, Answered), AllocError>
    requires trustees { FEWEST_TRUSTEES ≤ trustees }
    requires most { trustees ≤ MOST_TRUSTEES }
{
    let (mut turns, trusts) = open_store(alloc, 2, trustees, 8, hasher)?;
    serve(alloc, &mut turns, 0, &trusts[0], first)?;
    let other = serve(alloc, &mut turns, 1, &trusts[1], second)?;
    let again = serve(alloc, &mut turns, 0, &trusts[0], third)?;
    Ok((other, again))
}
