//! The machine, step by step.
use std::alloc::{AllocError, Global};
use std::test::Fail;
use tm_core::{Core, Step, StepRefused};

/// What became of a step.
#[derive(Debug, Clone, Copy, PartialEq, Eq)]
enum Fate {
    Made,
    NotAllowed,
    NoMemory,
}

fn outcome(of: Result<(), StepRefused>) -> Fate {
    match of {
        Ok(()) => Fate::Made,
        Err(StepRefused::NotAllowed(_)) => Fate::NotAllowed,
        Err(StepRefused::NoMemory(_)) => Fate::NoMemory,
    }
}

#[test]
fn one_place_step_by_step(rt: HostRuntime) -> Result<(), Fail> {
    let alloc = rt.alloc();
    let mut core = Core::new(alloc, 2)?;
    let requests = vec![in alloc; 5, 6]?;
    assert_eq!(rt;
        outcome(core.step(Step::Publish {
            client: 0,
            requests
        })),
        Fate::Made
    );
    assert!(rt; core.asked(0));
    let requests = vec![in alloc; 7]?;
    assert_eq!(rt;
        outcome(core.step(Step::Publish {
            client: 0,
            requests
        })),
        Fate::NotAllowed
    );
    let answers = vec![in alloc; 1, 2]?;
    assert_eq!(rt;
        outcome(core.step(Step::Answer { client: 0, answers })),
        Fate::NotAllowed
    );
    assert_eq!(rt; outcome(core.step(Step::See { client: 0 })), Fate::Made);
    let answers = vec![in alloc; 1, 2]?;
    assert_eq!(rt;
        outcome(core.step(Step::Answer { client: 0, answers })),
        Fate::Made
    );
    assert_eq!(rt; core.ran(0), [5, 6].as_slice());
    assert!(rt; !core.asked(0));
    let requests = vec![in alloc; 7]?;
    assert_eq!(rt;
        outcome(core.step(Step::Publish {
            client: 0,
            requests
        })),
        Fate::NotAllowed
    );
    assert_eq!(rt; outcome(core.step(Step::Collect { client: 0 })), Fate::Made);
    let requests = Vec::new(alloc);
    assert_eq!(rt;
        outcome(core.step(Step::Publish {
            client: 0,
            requests
        })),
        Fate::Made
    );
    assert_eq!(rt;
        outcome(core.step(Step::See { client: 2 })),
        Fate::NotAllowed
    );
    assert_eq!(rt; core.sent(0), [5, 6].as_slice());
    assert_eq!(rt; core.sent(1).len(), 0);
    Ok(())
}

fn numbers(alloc: Global, count: u64) -> Result<Vec<u64>, AllocError> {
    let mut numbers = Vec::new(alloc);
    for number in 0..count {
        numbers.push(number)?;
    }
    Ok(numbers)
}

#[test]
fn sixteen_requests_at_once(rt: HostRuntime) -> Result<(), Fail> {
    let alloc = rt.alloc();
    let mut core = Core::new(alloc, 1)?;
    let requests = numbers(alloc, 17)?;
    let more = core.step(Step::Publish {
        client: 0,
        requests,
    });
    assert_eq!(rt; outcome(more), Fate::NotAllowed);
    let requests = numbers(alloc, 16)?;
    let published = core.step(Step::Publish {
        client: 0,
        requests,
    });
    assert_eq!(rt; outcome(published), Fate::Made);
    assert_eq!(rt; outcome(core.step(Step::See { client: 0 })), Fate::Made);
    let answers = numbers(alloc, 16)?;
    let answered = core.step(Step::Answer { client: 0, answers });
    assert_eq!(rt; outcome(answered), Fate::Made);
    assert_eq!(rt;
        core.ran(0),
        [0, 1, 2, 3, 4, 5, 6, 7, 8, 9, 10, 11, 12, 13, 14, 15].as_slice()
    );
    assert_eq!(rt; outcome(core.step(Step::Collect { client: 0 })), Fate::Made);
    Ok(())
}
