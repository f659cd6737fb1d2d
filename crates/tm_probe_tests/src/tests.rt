//! A library of shelves and a clerk, as objects, in batches and at a table.

use std::test::Fail;
use tm_batch::{AnswerBatch, Batch, Config, Name, Request};
use tm_pair::{Collected, PairTable, PlainTable, ask_nothing};
use tm_probe::{Clerk, ClerkTask, Library, NoTask, Shelf, ShelfOp, ShelfReply};
use tm_seq::{Entrusted, Event, Next, Sum};

/// Runs a task of one value to its end, where other values are asked by their index.
fn run_to_end<S: Entrusted>(asker: &mut S, asked: &mut [S], task: S::Task) -> Option<S::Reply> {
    let mut next = asker.resume(task, Event::Begin);
    for _ in 0..9u32 {
        match next {
            Next::Done { reply } => return Some(reply),
            Next::Ask {
                trustee: _,
                index,
                op,
                task,
            } => {
                let event = match asked.get_mut(index as usize) {
                    Some(value) => Event::Reply(value.run(op)),
                    None => Event::NoObject,
                };
                next = asker.resume(task, event);
            }
        }
    }
    None
}

/// A task of the clerk that asks so many shelves.
fn count_of(shelves: u32) -> Sum<NoTask, ClerkTask> {
    Sum::Second(ClerkTask {
        trustee: 1,
        shelves,
        books: 0,
    })
}

#[test]
fn a_task_of_one_side_asks_the_other(rt: HostRuntime) -> Result<(), Fail> {
    let mut shelves: Vec<Library> = vec![in rt.alloc();
        Sum::First(Shelf { books: 3 }),
        Sum::First(Shelf { books: 4 }),
    ]?;
    let mut clerk = Sum::Second(Clerk);
    let all = run_to_end(&mut clerk, shelves.as_mut_slice(), count_of(2));
    assert!(rt; matches!(all, Some(ShelfReply::Books(7))));
    let too_many = run_to_end(&mut clerk, shelves.as_mut_slice(), count_of(3));
    assert!(rt; matches!(too_many, Some(ShelfReply::NotHere)));
    let mut shelf = Sum::First(Shelf { books: 5 });
    let at_a_shelf = run_to_end(&mut shelf, shelves.as_mut_slice(), count_of(2));
    assert!(rt; matches!(at_a_shelf, Some(ShelfReply::NotHere)));
    assert!(rt; matches!(shelf.run(ShelfOp::Count), ShelfReply::Books(5)));
    Ok(())
}

#[test]
fn batches_hold_both_kinds(rt: HostRuntime) {
    let mut batch: Batch<Library> = Batch::new(0);
    assert!(rt;
        batch
            .push(Request::Entrust(Sum::First(Shelf { books: 3 })))
            .is_ok()
    );
    assert!(rt; batch.push(Request::Entrust(Sum::Second(Clerk))).is_ok());
    let name = Name { id: 2, place: 1 };
    assert!(rt; batch.push(Request::Launch(name, count_of(1))).is_ok());
    assert!(rt;
        matches!(
            batch.take_first(),
            Some(Request::Entrust(Sum::First(Shelf { books: 3 })))
        )
    );
    assert!(rt;
        matches!(
            batch.take_first(),
            Some(Request::Entrust(Sum::Second(Clerk)))
        )
    );
    assert!(rt;
        matches!(
            batch.take_first(),
            Some(Request::Launch(
                Name { id: 2, .. },
                Sum::Second(ClerkTask { shelves: 1, .. })
            ))
        )
    );
    let answers: AnswerBatch<Library> = AnswerBatch::new(7);
    assert_eq!(rt; answers.front, 7);
}

#[test]
fn a_table_carries_both_kinds(rt: HostRuntime) -> Result<(), Fail> {
    let config = Config {
        clients: 1,
        trustees: 2,
        objects: 4,
        trusts: 4,
        last_id: 9,
    };
    let first = Vec::new(rt.alloc());
    let (mut table, mut clients, mut trustee) = PlainTable::<Library>::new(
        rt.alloc(),
        0,
        config,
        &first,
    )?;
    let client = &mut clients[0];
    assert!(rt; ask_nothing(&mut table, client).is_ok());
    assert!(rt; matches!(table.collect(client), Collected::Pending));
    assert!(rt; table.see(&mut trustee, 0).is_some());
    Ok(())
}
