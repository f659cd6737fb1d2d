//! What a row does, and what comes of it.

use std::alloc::{AllocError, Global};
use std::process::Abort;
use tm_batch::{Answer, Config, First, Holders, Name, Refusal, Request};
use tm_reference::{NotResumed, NotSent, NotServed, ReferenceTrustee, Resumed};
use tm_seq::{Counter, CounterOp, CounterReply, CounterTask, Event};

// What is done: a request of the row's place, an event for an object's first launch, or a batch of
// that place that leaves with so much room.
#[derive(Clone, Copy)]
pub(super) enum Does {
    Entrust(u64),
    Add(u64, u64),
    Read(u64),
    LaunchEnd(u64),
    LaunchAsk(u64, u32, u32),
    Grant(u64, u32),
    GrantOf(Name, u32),
    Release(u64),
    Reclaim(u64),
    Bye,
    Begin(u64),
    Reply(u64, u64),
    NotAbove(u64),
    NoObject(u64),
    Send(u32),
}

// What comes of it.
#[derive(Debug, Clone, Copy, PartialEq, Eq)]
pub(super) enum Seen {
    Entrusted(u64),
    ObjectsFull(u64),
    SerialsSpent(u64),
    Is(u64),
    Launched(u64),
    TicketsSpent,
    Granted,
    Gone,
    GiftsFull,
    Released,
    Reclaimed(u64),
    Shared,
    ByeDone,
    Asked(u64, u32, u32),
    Ended(u64),
    // How many gifts and completions left, the last gift, and the first ticket.
    Left(usize, usize, Name, u64),
    NotLegal,
    NoMemory,
    Other,
}

#[derive(Clone, Copy)]
pub(super) struct Row(pub(super) u32, pub(super) Does, pub(super) Seen);

pub(super) fn name(id: u64) -> Name {
    Name { id, place: 0 }
}

fn request(does: Does) -> Option<Request<Counter>> {
    Some(match does {
        Does::Entrust(value) => Request::Entrust(Counter { value }),
        Does::Add(id, by) => Request::Apply(name(id), CounterOp::Add(by)),
        Does::Read(id) => Request::Apply(name(id), CounterOp::Read),
        Does::LaunchEnd(id) => Request::Launch(name(id), CounterTask::End),
        Does::LaunchAsk(id, trustee, index) => {
            Request::Launch(name(id), CounterTask::AskAt { trustee, index })
        }
        Does::Grant(id, to) => Request::Grant(name(id), to),
        Does::GrantOf(name, to) => Request::Grant(name, to),
        Does::Release(id) => Request::Release(name(id)),
        Does::Reclaim(id) => Request::Reclaim(name(id)),
        Does::Bye => Request::Bye,
        _ => return None,
    })
}

fn event(does: Does) -> Option<(u64, Event<CounterReply>)> {
    match does {
        Does::Begin(id) => Some((id, Event::Begin)),
        Does::Reply(id, value) => Some((id, Event::Reply(CounterReply::Is(value)))),
        Does::NotAbove(id) => Some((id, Event::NotAbove)),
        Does::NoObject(id) => Some((id, Event::NoObject)),
        _ => None,
    }
}

fn answered(answer: Answer<Counter>) -> Seen {
    match answer {
        Answer::Entrusted(name) => Seen::Entrusted(name.id),
        Answer::NotEntrusted(Refusal::ObjectsFull, back) => Seen::ObjectsFull(back.value),
        Answer::NotEntrusted(Refusal::SerialsSpent, back) => Seen::SerialsSpent(back.value),
        Answer::Replied(CounterReply::Is(value)) => Seen::Is(value),
        Answer::Replied(_) => Seen::Other,
        Answer::Launched(ticket) => Seen::Launched(ticket),
        Answer::TicketsSpent(_) => Seen::TicketsSpent,
        Answer::Granted => Seen::Granted,
        Answer::Gone => Seen::Gone,
        Answer::GiftsFull => Seen::GiftsFull,
        Answer::Released => Seen::Released,
        Answer::Reclaimed(back) => Seen::Reclaimed(back.value),
        Answer::Shared => Seen::Shared,
        Answer::ByeDone => Seen::ByeDone,
    }
}

fn sent(trustee: &mut ReferenceTrustee<Counter>, alloc: Global, place: u32, room: u32) -> Seen {
    match trustee.send(alloc, place, room) {
        Ok(left) => {
            let gift = match left.gifts.as_slice().last() {
                Some(gift) => *gift,
                None => name(0),
            };
            let ticket = match left.completions.as_slice().first() {
                Some(completion) => completion.ticket,
                None => 0,
            };
            Seen::Left(left.gifts.len(), left.completions.len(), gift, ticket)
        }
        Err(NotSent::NotLegal) => Seen::NotLegal,
        Err(NotSent::NoMemory) => Seen::NoMemory,
    }
}

pub(super) fn outcome(
    trustee: &mut ReferenceTrustee<Counter>,
    alloc: Global,
    place: u32,
    does: Does,
) -> Seen {
    if let Some(request) = request(does) {
        return match trustee.serve(alloc, place, request) {
            Ok(answer) => answered(answer),
            Err(NotServed::NotLegal(_)) => Seen::NotLegal,
            Err(NotServed::NoMemory(_)) => Seen::NoMemory,
        };
    }
    if let Some((id, event)) = event(does) {
        return match trustee.resume(id, event) {
            Ok(
                Resumed::Asked {
                    ticket,
                    trustee,
                    index,
                    ..
                },
            ) => Seen::Asked(ticket, trustee, index),
            Ok(Resumed::Ended { ticket }) => Seen::Ended(ticket),
            Err(NotResumed::NotLegal(_)) => Seen::NotLegal,
            Err(NotResumed::NoMemory(_)) => Seen::NoMemory,
        };
    }
    match does {
        Does::Send(room) => sent(trustee, alloc, place, room),
        _ => Seen::Other,
    }
}

pub(super) fn play(
    rt: &impl Abort,
    alloc: Global,
    trustee: &mut ReferenceTrustee<Counter>,
    rows: &[Row],
) {
    for row in rows {
        assert_eq!(rt; outcome(trustee, alloc, row.0, row.1), row.2);
    }
}

// Trustee 0, with counters by their trustee, value and holders.
pub(super) fn opened(
    alloc: Global,
    config: Config,
    objects: &[(u32, u64, &[u32])],
) -> Result<ReferenceTrustee<Counter>, AllocError> {
    opened_as(alloc, config, 0, objects)
}

// The trustee of a number.
pub(super) fn opened_as(
    alloc: Global,
    config: Config,
    number: u32,
    objects: &[(u32, u64, &[u32])],
) -> Result<ReferenceTrustee<Counter>, AllocError> {
    let mut first = Vec::new(alloc);
    for (trustee, value, holders) in objects {
        first.push(First {
            trustee: *trustee,
            value: Counter { value: *value },
            holders: Holders::new(Vec::from_slice(alloc, holders)?),
        })?;
    }
    ReferenceTrustee::open(alloc, config, number, first)
}
