//! Commands of all kinds, over few and many trustees.

ghost use Rattle.std.specs.Prelude.{◌≤◌};
ghost use Rattle.tm_batch.specs.declared.limits.TheConstants.{FEWEST_TRUSTEES, MOST_TRUSTEES};

use super::{text, whole};
use crate::{Answered, Given, answer};
use mc_next::Ended;
use std::alloc::{AllocError, Global};
use std::hash::RandomState;
use std::test::Fail;

const ROWS: [(&str, &str, Ended); 6] = [
    ("", "", Ended::AtEnd),
    (
        "set a 5 0 3~abc~get a~",
        "STORED~VALUE a 5 3~abc~END~",
        Ended::AtEnd,
    ),
    // What the desk does for all classes.
    (
        "set a 0 0 1~x~set b 0 0 1 noreply~y~stats~flush_all~get a b~flush_all noreply~stats~",
        "STORED~STAT curr_items 2~STAT total_items 2~END~OK~END~STAT curr_items 0~STAT total_items 2~END~",
        Ended::AtEnd,
    ),
    // More keys than requests fit a batch, over many classes.
    (
        "set c 1 0 2~cc~get a b c d e f g h i j k l m n o p q r s t u v w x y z c~",
        "STORED~VALUE c 1 2~cc~VALUE c 1 2~cc~END~",
        Ended::AtEnd,
    ),
    // A usual client's session.
    (
        "version~set k1 0 0 2 noreply~v1~set k2 7 0 3 noreply~v22~set n 0 60 1 noreply~9~\
        get k1 k2 k3~incr n 5~touch k1 100~delete k2 0~stats~quit~get k1~",
        "VERSION 1.0.0-trust~VALUE k1 0 2~v1~VALUE k2 7 3~v22~END~14~TOUCHED~DELETED~\
        STAT curr_items 2~STAT total_items 3~END~",
        Ended::Quit,
    ),
    (
        "foo~get~get a",
        "ERROR~CLIENT_ERROR bad command line format~",
        Ended::Inside,
    ),
];

#[test]
fn commands_are_answered(rt: HostRuntime) -> Result<(), Fail> {
    let alloc = rt.alloc();
    for trustees in [2, 3, 31, 32] {
        for (input, output, ended) in ROWS {
            let written = text(alloc, output)?;
            let answered = answer(
                alloc,
                trustees,
                RandomState::new(&rt)?,
                whole(alloc, input)?,
            )?;
            assert!(rt; answered.output == written, "{input} over {trustees}");
            assert_eq!(rt; answered.ended, ended, "{input} over {trustees}");
        }
    }
    Ok(())
}

// What is answered to the sample in pieces of one byte.
fn in_pieces(alloc: Global, trustees: u32, hasher: RandomState) -> Result<Answered, AllocError>
    requires trustees { FEWEST_TRUSTEES ≤ trustees }
    requires most { trustees ≤ MOST_TRUSTEES }
{
    let given = Given {
        cuts: vec![in alloc; 1; 64]?,
        ..whole(alloc, "set a 5 0 3~abc~get a~")?
    };
    answer(alloc, trustees, hasher, given)
}

// However the input is cut, the output is the same.
#[test]
fn pieces_of_one_byte_are_answered(rt: HostRuntime) -> Result<(), Fail> {
    let alloc = rt.alloc();
    let all = [
        in_pieces(alloc, 2, RandomState::new(&rt)?)?,
        in_pieces(alloc, 3, RandomState::new(&rt)?)?,
        in_pieces(alloc, 31, RandomState::new(&rt)?)?,
    ];
    for answered in all {
        assert!(rt; answered.output == text(alloc, "STORED~VALUE a 5 3~abc~END~")?);
        assert_eq!(rt; answered.ended, Ended::AtEnd);
    }
    Ok(())
}
