//! Everything is closed.
ghost use Rattle.tm_turns_tests.specs.Adding.{IsOfOne};

use crate::adding::fill;
use crate::{Additions, Counters, one_counter};
use std::test::Fail;
use tm_base::FreeGate;
use tm_client::Trust;

/// How many requests each trustee has run, where 64 additions waited at the client before all was closed.
fn close_full(turns: Counters, trust: &Trust) -> Vec<u64>
    requires { IsOfOne turns }
{
    let mut turns = turns;
    fill(&mut turns, trust, &mut Additions::new());
    turns.close(&FreeGate)
}

#[test]
fn what_waits_is_served_before_all_ends(rt: HostRuntime) -> Result<(), Fail> {
    let Some((turns, trust)) = one_counter(rt.alloc()) else {
        return Err(Fail::new("no memory"));
    };
    let counts = close_full(turns, &trust);
    // Trustee 0 ran the client's Bye; trustee 1 the additions, that client's Bye, and trustee 0's.
    assert_eq!(rt; counts.as_slice(), [1, 66].as_slice());
    Ok(())
}
