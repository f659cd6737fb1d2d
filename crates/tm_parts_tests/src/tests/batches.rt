//! Batches of a counter.
ghost use Rattle.std.specs.Prelude.{◌≡◌, []};

use std::test::Fail;
use tm_batch::{
    Answer, AnswerBatch, Batch, Completion, First, FitsAnswers, Holders, Name, Request,
};
use tm_seq::{Counter, CounterOp, CounterReply, Sum};

/// An answer batch of any kind whose answer batches fit.
fn empty_answers<S: FitsAnswers>(front: u64) -> AnswerBatch<S>
    ensures front { result.front ≡ front }
    ensures answers { result.answers.items ≡ [] }
    ensures gifts { result.gifts.items ≡ [] }
    ensures completions { result.completions.items ≡ [] }
{
    AnswerBatch::new(front)
}

#[test]
fn seventeenth_request_is_handed_back(rt: HostRuntime) {
    let mut batch: Batch<Counter> = Batch::new(3);
    assert!(rt; batch.is_empty());
    for by in 0..16u64 {
        let name = Name { id: by, place: 0 };
        assert!(rt; batch.push(Request::Apply(name, CounterOp::Add(by))).is_ok());
    }
    let name = Name { id: 16, place: 9 };
    let back = batch.push(Request::Release(name));
    assert!(rt; matches!(back, Err(Request::Release(Name { id: 16, place: 9 }))));
    assert_eq!(rt; batch.len(), 16);
    assert_eq!(rt; batch.room(), 3);
    for want in 0..16u64 {
        let first = batch.take_first();
        let found = match first {
            Some(Request::Apply(name, CounterOp::Add(by))) if name.id == by => by,
            _ => 99,
        };
        assert_eq!(rt; found, want);
    }
    assert!(rt; batch.take_first().is_none());
    assert!(rt; batch.is_empty());
}

#[test]
fn answers_are_kept_in_order(rt: HostRuntime) {
    let mut batch: AnswerBatch<Counter> = empty_answers(7);
    batch.answers.push(Answer::Replied(CounterReply::Is(5)));
    batch.answers.push(Answer::Granted);
    batch.gifts.push(Name { id: 1, place: 2 });
    batch.completions.push(Completion::default());
    assert_eq!(rt; batch.front, 7);
    assert_eq!(rt; empty_answers::<Sum<Counter, Counter>>(8).front, 8);
    assert!(rt; matches!(batch.answers[0], Answer::Replied(CounterReply::Is(5))));
    assert!(rt; matches!(batch.answers[1], Answer::Granted));
    assert_eq!(rt; batch.gifts[0], Name { id: 1, place: 2 });
    assert_eq!(rt; batch.completions[0].ticket, 0);
    assert!(rt; matches!(batch.completions[0].reply, CounterReply::NoMemory));
}

#[test]
fn first_objects_name_their_holders(rt: HostRuntime) -> Result<(), Fail> {
    let mut places = Vec::new(rt.alloc());
    places.push(3)?;
    places.push(1)?;
    let first = First {
        trustee: 1,
        value: Counter { value: 5 },
        holders: Holders::new(places),
    };
    assert_eq!(rt; first.holders.places().len(), 2);
    assert_eq!(rt; first.holders.places()[0], 3);
    assert_eq!(rt; first.holders.places()[1], 1);
    assert_eq!(rt; first.value.value, 5);
    Ok(())
}
