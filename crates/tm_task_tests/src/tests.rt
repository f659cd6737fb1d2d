//! Rows of tasks.
mod play;
mod start;

ghost use Rattle.tm_task_tests.specs.Playing.{IsPlaying};

use self::play::Play;
use self::start::start;
use crate::adder::Adder;
use std::process::Abort;
use std::test::Fail;
use tm_seq::Counter;
use tm_task::{Progress, Tasks};
use tm_trustee::Served;

#[test]
fn a_third_task_comes_back(rt: HostRuntime) -> Result<(), Fail> {
    let alloc = rt.alloc();
    let mut tasks: Tasks<Counter, Adder> = Tasks::new(alloc, Vec::new(alloc), 2)?;
    assert!(rt; matches!(tasks.add(Adder { left: 1 }), Ok(0)));
    assert!(rt; matches!(tasks.add(Adder { left: 2 }), Ok(1)));
    assert!(rt; matches!(tasks.add(Adder { left: 3 }), Err(Adder { left: 3 })));
    assert_eq!(rt; tasks.ended(), 0);
    let (trusts, outs) = tasks.close();
    assert!(rt; trusts.is_empty());
    assert!(rt; matches!(outs.as_slice(), [None, None]));
    Ok(())
}

/// Both tasks ask, the trustee answers both, and both go on.
fn round(rt: &impl Abort, play: &mut Play)
    requires { IsPlaying play.old.tasks play.old.turns }
    ensures { IsPlaying play.new.tasks play.new.turns }
{
    assert_eq!(rt; play.turn(), Progress::Moved);
    assert_eq!(rt; play.turn(), Progress::Pending);
    assert_eq!(rt; play.serve(), Served::Moved(1));
    assert_eq!(rt; play.turn(), Progress::Moved);
    assert_eq!(rt; play.ended(), 0);
}

#[test]
fn two_tasks_add_three_times_each(rt: HostRuntime) -> Result<(), Fail> {
    let mut play = start(rt.alloc(), 2)?;
    assert!(rt; matches!(play.add(3), Ok(0)));
    assert!(rt; matches!(play.add(3), Ok(1)));
    round(&rt, &mut play);
    round(&rt, &mut play);
    round(&rt, &mut play);
    assert_eq!(rt; play.turn(), Progress::AllEnded);
    assert_eq!(rt; play.ended(), 2);
    let Play { tasks, .. } = play;
    let (trusts, outs) = tasks.close();
    assert_eq!(rt; trusts.len(), 1);
    assert!(rt; matches!(outs.as_slice(), [Some(5), Some(6)]));
    Ok(())
}
