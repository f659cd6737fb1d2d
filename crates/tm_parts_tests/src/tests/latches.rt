//! The calls on latches, whose tasks are numbers.
ghost use Rattle.std.specs.Prelude.{◌≡◌};

use std::alloc::{AllocError, Global};
use std::test::Fail;
use tm_latch::{Entered, Latches};

/// Latches and their room. A call that may not be made answers `None`.
#[derive(Drop)]
struct Few {
    latches: Latches<u64>,
    room: u32,
    ghost roomy: { latches.room ≡ room },
}

impl Few {
    fn new(alloc: Global, room: u32) -> Result<Few, AllocError> {
        Ok(Few {
            latches: Latches::new(alloc, room)?,
            room,
        })
    }

    // The task, if it is to be run now; 0 where it waits.
    fn enter(&mut self, id: u64, ticket: u64, task: u64) -> Option<u64> {
        if self.latches.known() >= self.room {
            return None;
        }
        match self.latches.enter(id, ticket, task) {
            Entered::Running(back) => Some(back),
            Entered::Queued => Some(0),
        }
    }

    // The ticket that runs next, and its task.
    fn leave(&mut self, id: u64) -> Option<(u64, u64)> {
        if self.latches.holder(id).is_none() {
            return None;
        }
        self.latches.leave(id)
    }

    fn holder(&self, id: u64) -> Option<u64> {
        self.latches.holder(id)
    }

    fn known(&self) -> u32 {
        self.latches.known()
    }
}

#[test]
fn one_ticket_runs_on_an_object(rt: HostRuntime) -> Result<(), Fail> {
    let mut few = Few::new(rt.alloc(), 4)?;
    assert_eq!(rt; few.holder(7), None);
    assert_eq!(rt; few.leave(7), None);
    assert_eq!(rt; few.enter(7, 1, 11), Some(11));
    assert_eq!(rt; few.holder(7), Some(1));
    assert_eq!(rt; few.enter(7, 2, 12), Some(0));
    assert_eq!(rt; few.holder(7), Some(1));
    assert_eq!(rt; few.known(), 2);
    assert_eq!(rt; few.leave(7), Some((2, 12)));
    assert_eq!(rt; few.holder(7), Some(2));
    assert_eq!(rt; few.leave(7), None);
    assert_eq!(rt; few.holder(7), None);
    assert_eq!(rt; few.known(), 0);
    Ok(())
}

#[test]
fn tickets_of_three_objects_run_in_order(rt: HostRuntime) -> Result<(), Fail> {
    let mut few = Few::new(rt.alloc(), 9)?;
    assert_eq!(rt; few.enter(5, 1, 51), Some(51));
    assert_eq!(rt; few.enter(3, 2, 32), Some(32));
    assert_eq!(rt; few.enter(5, 3, 53), Some(0));
    assert_eq!(rt; few.enter(9, 4, 94), Some(94));
    assert_eq!(rt; few.enter(3, 5, 35), Some(0));
    assert_eq!(rt; few.enter(5, 6, 56), Some(0));
    assert_eq!(rt; few.enter(3, 7, 37), Some(0));
    assert_eq!(rt; few.leave(5), Some((3, 53)));
    assert_eq!(rt; few.enter(5, 8, 58), Some(0));
    assert_eq!(rt; few.leave(9), None);
    assert_eq!(rt; few.leave(5), Some((6, 56)));
    assert_eq!(rt; few.leave(3), Some((5, 35)));
    assert_eq!(rt; few.leave(5), Some((8, 58)));
    assert_eq!(rt; few.leave(3), Some((7, 37)));
    assert_eq!(rt; few.known(), 2);
    assert_eq!(rt; few.leave(5), None);
    assert_eq!(rt; few.leave(3), None);
    assert_eq!(rt; few.known(), 0);
    Ok(())
}

#[test]
fn as_many_tickets_are_known_as_may_be(rt: HostRuntime) -> Result<(), Fail> {
    let mut few = Few::new(rt.alloc(), 3)?;
    for _ in 0..3u32 {
        assert_eq!(rt; few.enter(1, 1, 10), Some(10));
        assert_eq!(rt; few.enter(2, 2, 20), Some(20));
        assert_eq!(rt; few.enter(1, 3, 30), Some(0));
        assert_eq!(rt; few.enter(3, 4, 40), None);
        assert_eq!(rt; few.known(), 3);
        assert_eq!(rt; few.leave(1), Some((3, 30)));
        assert_eq!(rt; few.leave(2), None);
        assert_eq!(rt; few.leave(1), None);
    }
    let mut none = Few::new(rt.alloc(), 0)?;
    assert_eq!(rt; none.enter(1, 1, 10), None);
    assert_eq!(rt; none.known(), 0);
    Ok(())
}
