//! A client that launches at the middle trustee, with this and the greatest one, and the calls of the tests at them.
ghost use Rattle.std.specs.Prelude.{◌≡◌, ◌≤◌, length, IfOk};
ghost use Rattle.std.specs.List.{AllByRecursion};
ghost use Rattle.tm_seq.specs.Counting.{counter_kind};
ghost use Rattle.tm_pair.specs.Plain.{plain_theory};
ghost use Rattle.tm_tests.specs.Launching.{IsWork, IsPlayed};

use super::said::{Said, shows};
use super::start::{greatest, middle, table};
use std::alloc::{AllocError, Global};
use tm_base::FreeGate;
use tm_batch::{Batch, Name, Request};
use tm_pair::{Collected, PairTable, PlainTable};
use tm_seq::{Counter, CounterOp, CounterTask};
use tm_trustee::{Served, Trustee};

/// What a client asks of its counter.
#[derive(Clone, Copy)]
pub(super) enum Work {
    /// To add a number.
    Add(u64),
    /// To launch work that ends at once.
    End,
    /// To launch work that reads the counter of that index at that trustee.
    AskAt(u32, u32),
}

fn request(work: &Work) -> Request<Counter>
    ensures { IsWork result }
{
    let name = Name { id: 1, place: 0 };
    match work {
        Work::Add(by) => Request::Apply(name, CounterOp::Add(*by)),
        Work::End => Request::Launch(name, CounterTask::End),
        Work::AskAt(trustee, index) => {
            let task = CounterTask::AskAt {
                trustee: *trustee,
                index: *index,
            };
            Request::Launch(name, task)
        }
    }
}

/// A batch of the first works, at most 16, without room for gifts.
fn batch(works: &[Work]) -> Batch<Counter>
    ensures works { AllByRecursion IsWork result.requests.items }
    ensures size { length result.requests.items ≤ length works.now }
    ensures room { result.room ≡ 0 }
{
    let mut batch = Batch::new(0);
    for work in works {
        let _ = batch.push(request(work));
    }
    batch
}

/// The client's side of the middle trustee's table, the tables, and the trustees.
#[derive(Drop)]
pub(super) struct Play<P: PairTable<Counter>> {
    tables: Vec<P>,
    middle: Trustee<Counter, P>,
    greatest: Trustee<Counter, P>,
    client: P::ClientSide,
    // At least how many requests the client sent.
    asked: usize,
}

/// The client has sent nothing.
pub(super) fn start(alloc: Global) -> Result<Play<PlainTable<Counter>>, AllocError>
    ensures { IfOk result (λ p. IsPlayed (plain_theory counter_kind) p.tables.items p.middle p.greatest p.client p.asked) }
{
    let (least_table, _, _) = table(alloc, 0)?;
    let (middle_table, mut middle_sides, middle_side) = table(alloc, 1)?;
    let (greatest_table, mut greatest_sides, greatest_side) = table(alloc, 2)?;
    let seat = greatest_sides.remove(2);
    let client = middle_sides.remove(0);
    let middle = middle(alloc, middle_side, seat)?;
    let greatest = greatest(alloc, greatest_side)?;
    let tables = vec![in alloc; least_table, middle_table, greatest_table]?;
    Ok(Play {
        tables,
        middle,
        greatest,
        client,
        asked: 0,
    })
}

impl<P: PairTable<Counter>> Play<P> {
    /// The client sends a batch of works. Whether it could: nothing is out, and it sent 64 at most.
    pub(super) fn ask(&mut self, works: &[Work]) -> bool
        requires { IsPlayed P.theory self.old.tables.items self.old.middle self.old.greatest self.old.client self.old.asked }
        ensures { IsPlayed P.theory self.new.tables.items self.new.middle self.new.greatest self.new.client self.new.asked }
    {
        if works.len() > 64 - self.asked {
            return false;
        }
        self.asked += works.len();
        self.tables[1]
            .publish(&mut self.client, batch(works))
            .is_ok()
    }

    /// The client looks for answers.
    fn collect(&mut self) -> Collected<Counter>
        requires { IsPlayed P.theory self.old.tables.items self.old.middle self.old.greatest self.old.client self.old.asked }
        ensures { IsPlayed P.theory self.new.tables.items self.new.middle self.new.greatest self.new.client self.new.asked }
    {
        self.tables[1].collect(&mut self.client)
    }

    /// Whether the client finds answers, which are these, with these completions, by their tickets.
    pub(super) fn finds(&mut self, answers: &[Said], ended: &[(u64, Said)]) -> bool
        requires { IsPlayed P.theory self.old.tables.items self.old.middle self.old.greatest self.old.client self.old.asked }
        ensures { IsPlayed P.theory self.new.tables.items self.new.middle self.new.greatest self.new.client self.new.asked }
    {
        match self.collect() {
            Collected::Answers(came) => shows(&came, answers, ended),
            _ => false,
        }
    }

    /// A turn of the middle trustee.
    pub(super) fn turn(&mut self) -> Served
        requires { IsPlayed P.theory self.old.tables.items self.old.middle self.old.greatest self.old.client self.old.asked }
        ensures { IsPlayed P.theory self.new.tables.items self.new.middle self.new.greatest self.new.client self.new.asked }
    {
        self.middle
            .serve_turn(self.tables.as_mut_slice(), &FreeGate)
    }

    /// A turn of the greatest one.
    pub(super) fn turn_above(&mut self) -> Served
        requires { IsPlayed P.theory self.old.tables.items self.old.middle self.old.greatest self.old.client self.old.asked }
        ensures { IsPlayed P.theory self.new.tables.items self.new.middle self.new.greatest self.new.client self.new.asked }
    {
        self.greatest
            .serve_turn(self.tables.as_mut_slice(), &FreeGate)
    }
}
