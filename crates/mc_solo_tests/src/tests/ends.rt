//! Limits, and devices that fail.

use super::{text, whole};
use crate::{Given, answer};
use mc_next::Ended;
use std::hash::RandomState;
use std::test::Fail;

const SAMPLE: &str = "set a 5 0 3~abc~get a~";

#[test]
fn bytes_above_the_limit_are_not_answered(rt: HostRuntime) -> Result<(), Fail> {
    let alloc = rt.alloc();
    // 18 bytes are the first command, and one more is the next one's first.
    let rows: [(u64, &str, Ended); 4] = [
        (0, "", Ended::TooMuch),
        (18, "STORED~", Ended::TooMuch),
        (24, "STORED~", Ended::TooMuch),
        (25, "STORED~VALUE a 5 3~abc~END~", Ended::AtEnd),
    ];
    let none = Given {
        limit: 0,
        ..whole(alloc, "~")?
    };
    assert_eq!(rt;
        answer(alloc, 3, RandomState::new(&rt)?, none)?.ended,
        Ended::TooMuch
    );
    let nothing = Given {
        limit: 0,
        ..whole(alloc, "")?
    };
    assert_eq!(rt;
        answer(alloc, 3, RandomState::new(&rt)?, nothing)?.ended,
        Ended::AtEnd
    );
    for (limit, output, ended) in rows {
        let given = Given {
            limit,
            ..whole(alloc, SAMPLE)?
        };
        let answered = answer(alloc, 3, RandomState::new(&rt)?, given)?;
        assert!(rt; answered.output == text(alloc, output)?, "at {limit}");
        assert_eq!(rt; answered.ended, ended, "at {limit}");
    }
    Ok(())
}

#[test]
fn what_came_before_a_failed_read_is_answered(rt: HostRuntime) -> Result<(), Fail> {
    let alloc = rt.alloc();
    let given = Given {
        cuts: vec![in alloc; 18]?,
        failed_reads: vec![in alloc; 1]?,
        ..whole(alloc, SAMPLE)?
    };
    let answered = answer(alloc, 3, RandomState::new(&rt)?, given)?;
    assert!(rt; answered.output == text(alloc, "STORED~")?);
    assert_eq!(rt; answered.ended, Ended::ReadFault);
    Ok(())
}

#[test]
fn nothing_is_written_after_a_failed_write(rt: HostRuntime) -> Result<(), Fail> {
    let alloc = rt.alloc();
    let given = Given {
        cuts: vec![in alloc; 18]?,
        failed_writes: vec![in alloc; 1]?,
        ..whole(alloc, SAMPLE)?
    };
    let answered = answer(alloc, 3, RandomState::new(&rt)?, given)?;
    assert!(rt; answered.output == text(alloc, "STORED~")?);
    assert_eq!(rt; answered.ended, Ended::WriteFault);
    Ok(())
}
