//! What a trustee keeps of a greater one.
ghost use Rattle.std.specs.Prelude.{ℕ, ◌≡◌, slice_get, ◌+◌, ◌^◌, ◌<◌, ◌≤◌, [], ◌∷◌, ◌++◌, length, take, drop, map, filter, ◌==◌, IfOk, IfNone, IfSome};
ghost use Rattle.tm_batch.specs.declared.limits.TheConstants.{MOST_REQUESTS};
ghost use Rattle.tm_trustee.specs.NestedAsks.{replied_in};
ghost use Rattle.tm_trustee.specs.Tasks.{HasPlace, AsksAt, TakesReply};
ghost use Rattle.tm_trustee.specs.Lanes.{IsNewLane, AreNewLanes, AreCounted, TakesIn, LetsGo, after_answers_lem, names_held};
ghost use Rattle.tm_trustee.specs.declared.lane.Lane.{Lane};
ghost use Rattle.std.specs.declared.option.Option.TheVariants.{Some};

use crate::stage::Stage;
use circular_buffer::HeapCircularBuffer;
use std::alloc::{AllocError, Global};
use tm_batch::{Answer, AnswerBatch, Batch, FitsAnswers, MOST_REQUESTS, Name, Request};
use tm_seq::Entrusted;
use tm_state::Launch;

/// What a trustee keeps of a greater one.
#[derive(Drop)]
pub(crate) struct Lane<S: Entrusted> {
    /// How far it is with its `Bye` there.
    pub(crate) stage: Stage,
    /// The objects that it holds there, in the order of the build.
    pub(crate) names: Vec<Name>,
    /// Of each ask that was not told its reply, in order, the launch that asked.
    pub(crate) askers: HeapCircularBuffer<Launch<S>>,
    /// The asks that were not sent, in order.
    pub(crate) waits: HeapCircularBuffer<Request<S>>,
    /// The replies that came and were not told, in order.
    pub(crate) came: HeapCircularBuffer<S::Reply>,
}

/// The names of those objects that are of trustee `number`, in order.
fn names_at(alloc: Global, number: u32, nested: &[(u32, Name)]) -> Result<Vec<Name>, AllocError>
    ensures { IfOk result (λ names. names.items ≡ map (λ n. n.1) (filter (λ n. n.0 == number) nested.now)) }
{
    nested
        .iter()
        .filter(|n| n.0 == number)
        .map(|n| n.1)
        .collect(alloc)
}

/// What a trustee keeps at first of so many greater ones, the trustees `number` and on.
pub(crate) fn new_lanes<S: FitsAnswers>(
    alloc: Global,
    number: u32,
    count: usize,
    room: u32,
    nested: &[(u32, Name)],
) -> Result<Vec<Lane<S>>, AllocError>
    requires { number + count < 2 ^ 32 }
    ensures { IfOk result (λ lanes. AreNewLanes number room nested.now count lanes.items) }
{
    let mut lanes = Vec::with_capacity(alloc, count)?;
    for i in 0..count {
        lanes.push_reserved(Lane::new(alloc, number + i as u32, room, nested)?);
    }
    Ok(lanes)
}

/// How many objects a trustee holds at trustee `u`, by its lanes.
fn held_at<S: FitsAnswers>(number: u32, lanes: &[Lane<S>], u: usize) -> u32
    requires within { u < number + 1 + length lanes.now }
    requires few { (i : ℕ) (lane : Lane S S.Op S.Reply S.Task) → slice_get lanes.now i ≡ Some lane → length lane.names.items < 2 ^ 32 }
    ensures { result ≡ names_held number lanes.now u }
{
    if u <= number as usize {
        return 0;
    }
    lanes[u - number as usize - 1].names.len() as u32
}

/// By trustees' numbers, how many objects are held at each by trustee `number`, which has these lanes.
pub(crate) fn held_by<S: FitsAnswers>(
    alloc: Global,
    number: u32,
    lanes: &[Lane<S>],
) -> Result<Vec<u32>, AllocError>
    requires small { number + length lanes.now < 2 ^ 32 }
    requires few { (i : ℕ) (lane : Lane S S.Op S.Reply S.Task) → slice_get lanes.now i ≡ Some lane → length lane.names.items < 2 ^ 32 }
    ensures { IfOk result (λ held. AreCounted number lanes.now (number + 1 + length lanes.now) held.items) }
{
    let count = number as usize + 1 + lanes.len();
    let mut held = Vec::with_capacity(alloc, count)?;
    for u in 0..count {
        held.push_reserved(held_at(number, lanes, u));
    }
    Ok(held)
}

/// Moves the first request that waits, if one does, behind those of a batch that has room.
fn take_one<S: FitsAnswers>(waits: &mut HeapCircularBuffer<Request<S>>, batch: &mut Batch<S>)
    requires { length batch.old.requests.items < MOST_REQUESTS }
    ensures requests { batch.new.requests.items ≡ batch.old.requests.items ++ take 1 waits.old.items }
    ensures room { batch.new.room ≡ batch.old.room }
    ensures rest { waits.new.items ≡ drop 1 waits.old.items }
    ensures capacity { waits.new.capacity ≡ waits.old.capacity }
{
    let Some(request) = waits.pop_front() else {
        return;
    };
    let _ = batch.push(request);
}

/// Where the answer to a `Bye` came, it is over.
fn after_answers(stage: Stage) -> Stage
    ensures { result ≡ after_answers_lem stage }
{
    match stage {
        Stage::Before => Stage::Before,
        Stage::Out | Stage::Over => Stage::Over,
    }
}

impl<S: FitsAnswers> Lane<S> {
    /// What a trustee keeps at first of trustee `number`, of the objects that it holds above, with room for so many
    /// asks.
    fn new(
        alloc: Global,
        number: u32,
        room: u32,
        nested: &[(u32, Name)],
    ) -> Result<Lane<S>, AllocError>
        ensures { IfOk result (λ lane. IsNewLane number room nested.now lane) }
    {
        Ok(Lane {
            stage: Stage::Before,
            names: names_at(alloc, number, nested)?,
            askers: HeapCircularBuffer::with_capacity(alloc, room as usize)?,
            waits: HeapCircularBuffer::with_capacity(alloc, room as usize)?,
            came: HeapCircularBuffer::with_capacity(alloc, MOST_REQUESTS)?,
        })
    }

    /// A batch of the first asks that wait, at most 16, which wait no more. It has no room for gifts.
    pub(crate) fn first_asks(&mut self) -> Batch<S>
        ensures goes { LetsGo result.requests.items self.old self.new }
        ensures room { result.room ≡ 0 }
    {
        let mut batch = Batch::new(0);
        for _ in 0..MOST_REQUESTS {
            take_one(&mut self.waits, &mut batch);
        }
        batch
    }

    /// Notes an answer: a reply is to be told.
    fn note(&mut self, answer: Answer<S>)
        requires { length self.old.came.items < self.old.came.capacity }
        ensures only { self.new ≡ record self.old { came = self.new.came } }
        ensures came { self.new.came.items ≡ self.old.came.items ++ replied_in (answer ∷ []) }
        ensures capacity { self.new.came.capacity ≡ self.old.came.capacity }
    {
        if let Answer::Replied(reply) = answer {
            let _ = self.came.try_push_back(reply);
        }
    }

    /// An ask of the object of an index waits to be sent, and its launch for the reply.
    pub(crate) fn ask(&mut self, index: u32, op: S::Op, launch: Launch<S>)
        requires { HasPlace index self.old }
        ensures { AsksAt index op launch self.old self.new }
    {
        let name = self.names[index as usize];
        let _ = self.askers.try_push_back(launch);
        let _ = self.waits.try_push_back(Request::Apply(name, op));
    }

    /// Takes the first reply that came and was not told, with the launch that asked.
    pub(crate) fn next_reply(&mut self) -> Option<(Launch<S>, S::Reply)>
        requires { length self.old.came.items ≤ length self.old.askers.items }
        ensures none { IfNone result (self.old.came.items ≡ []) }
        ensures same { IfNone result (self.new ≡ self.old) }
        ensures takes { IfSome result (λ r. TakesReply r.0 r.1 self.old self.new) }
    {
        let reply = self.came.pop_front()?;
        // There is one for each reply.
        let launch = self.askers.pop_front()?;
        Some((launch, reply))
    }

    /// Takes in the answers to what was out: the replies are to be told, and a `Bye` that was out is over.
    pub(crate) fn take_in(&mut self, came: AnswerBatch<S>)
        requires told { self.old.came.items ≡ [] }
        requires room { self.old.came.capacity ≡ MOST_REQUESTS }
        requires few { length came.answers.items ≤ MOST_REQUESTS }
        ensures { TakesIn came.answers.items self.old self.new }
    {
        let mut answers = came.answers;
        while !answers.is_empty() {
            let answer = answers.remove(0);
            self.note(answer);
        }
        self.stage = after_answers(self.stage);
    }
}
