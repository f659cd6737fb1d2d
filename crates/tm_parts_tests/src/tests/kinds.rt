//! A counter and a sum of two, reached through their bound and by themselves.

use tm_seq::{Counter, CounterOp, CounterReply, CounterTask, Entrusted, Event, Next, Sum};

/// Runs two operations on a value of any kind, and begins a task on it.
fn in_turn<S: Entrusted>(
    value: &mut S,
    ops: (S::Op, S::Op),
    task: S::Task,
) -> (S::Reply, S::Reply, u64, Next<S::Op, S::Task, S::Reply>) {
    let first = value.run(ops.0);
    let second = value.run(ops.1);
    let left = S::left(&task);
    (first, second, left, value.resume(task, Event::Begin))
}

#[test]
fn counts_and_wraps(rt: HostRuntime) {
    let mut counter = Counter { value: 5 };
    let (first, second, left, next) = in_turn(
        &mut counter,
        (CounterOp::Add(u64::MAX), CounterOp::Read),
        CounterTask::AskAt {
            trustee: 2,
            index: 7,
        },
    );
    assert!(rt; matches!(first, CounterReply::Is(4)));
    assert!(rt; matches!(second, CounterReply::Is(4)));
    assert!(rt; left == 1);
    assert!(rt;
        matches!(
            next,
            Next::Ask {
                trustee: 2,
                index: 7,
                op: CounterOp::Read,
                task: CounterTask::Wait,
            }
        )
    );
}

#[test]
fn a_sum_runs_the_side_of_its_value(rt: HostRuntime) {
    let mut value: Sum<Counter, Counter> = Sum::Second(Counter { value: 5 });
    let (first, second, left, next) = in_turn(
        &mut value,
        (CounterOp::Add(2), CounterOp::Read),
        Sum::Second(CounterTask::AskAt {
            trustee: 2,
            index: 7,
        }),
    );
    assert!(rt; matches!(first, CounterReply::Is(7)));
    assert!(rt; matches!(second, CounterReply::Is(7)));
    assert!(rt; left == 1);
    assert!(rt;
        matches!(
            next,
            Next::Ask {
                trustee: 2,
                index: 7,
                op: CounterOp::Read,
                task: Sum::Second(CounterTask::Wait),
            }
        )
    );
    let other = value.resume(Sum::First(CounterTask::End), Event::Begin);
    assert!(rt;
        matches!(
            other,
            Next::Done {
                reply: CounterReply::Refused
            }
        )
    );
    assert!(rt; matches!(value, Sum::Second(Counter { value: 7 })));
    value = Sum::First(Counter { value: 1 });
    assert!(rt; matches!(value.run(CounterOp::Add(2)), CounterReply::Is(3)));
}

#[test]
fn tasks_end_as_told(rt: HostRuntime) {
    let mut counter = Counter { value: 7 };
    let cases = [
        (CounterTask::End, Event::Begin, 7),
        (CounterTask::Wait, Event::Reply(CounterReply::Is(9)), 9),
    ];
    for (task, event, want) in cases {
        let next = counter.resume(task, event);
        let found = match next {
            Next::Done {
                reply: CounterReply::Is(found),
            } => found,
            _ => 0,
        };
        assert_eq!(rt; found, want);
    }
    let refused = [
        (CounterTask::Wait, Event::NotAbove),
        (CounterTask::Wait, Event::NoObject),
        (CounterTask::End, Event::Reply(CounterReply::Is(9))),
    ];
    for (task, event) in refused {
        let next = counter.resume(task, event);
        assert!(rt;
            matches!(
                next,
                Next::Done {
                    reply: CounterReply::Refused
                }
            )
        );
    }
    assert_eq!(rt; counter.value, 7);
    assert!(rt; matches!(Counter::no_memory(), CounterReply::NoMemory));
}
