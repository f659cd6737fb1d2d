//! The calls of a client that hand out what came.
ghost use Rattle.std.specs.Prelude.{◌≡◌, ℕ, ◌+◌, ◌<◌, ◌≤◌, [], MatchOption};
ghost use Rattle.tm_model.specs.State.{State};
ghost use Rattle.tm_client.specs.Clients.{IsClient, IsTakeable, MayHand, brings, brings_by};
ghost use Rattle.tm_client.specs.Listing.{held_count, room_for};
ghost use Rattle.tm_client.specs.Taking.{IsListed, IsGot, IsHanded, HasTaken, HasTakenGift};

use crate::answers::{Came, Got};
use crate::books::Books;
use crate::client::Client;
use crate::holds::{Hold, Holds};
use crate::trust::Trust;
use tm_batch::{Answer, Name};
use tm_pair::{FitsBatches, PairTable};

/// Puts a trust of trustee `trustee` into a client's list.
pub(crate) fn hold(held: &mut Holds, client: u32, trustee: u32, name: Name) -> Trust
    requires room { held_count held.old < room_for held.old }
    ensures { IsListed trustee client name result held.old held.new }
{
    let at = held.insert(Hold {
        trustee,
        id: name.id,
    });
    Trust {
        trustee,
        name,
        client,
        at,
    }
}

/// What is handed out for the answer to a request that had this name. A trust that it brings is put into the client's list, and fewer may come then.
fn got_of<S: FitsBatches>(
    held: &mut Holds,
    coming: &mut u32,
    client: u32,
    trustee: u32,
    asked: Name,
    answer: Answer<S>,
) -> Got<S>
    requires takeable { IsTakeable answer }
    requires coming { brings answer ≤ coming.old }
    requires room { held_count held.old + brings answer ≤ room_for held.old }
    ensures got { IsGot trustee client asked answer result held.old held.new }
    ensures coming { coming.old ≡ coming.new + brings answer }
{
    match answer {
        Answer::Entrusted(name) => {
            *coming -= 1;
            Got::Entrusted(hold(held, client, trustee, name))
        }
        Answer::NotEntrusted(refusal, value) => {
            *coming -= 1;
            Got::NotEntrusted(refusal, value)
        }
        Answer::Replied(reply) => Got::Replied(reply),
        Answer::TicketsSpent(task) => Got::TicketsSpent(task),
        Answer::Granted => Got::Granted,
        Answer::Gone => Got::Gone,
        Answer::GiftsFull => Got::GiftsFull,
        Answer::Released => Got::Released,
        Answer::Reclaimed(value) => {
            *coming -= 1;
            Got::Reclaimed(value)
        }
        Answer::Shared => {
            *coming -= 1;
            Got::Shared(hold(held, client, trustee, asked))
        }
        Answer::Launched(_) | Answer::ByeDone => unreachable!(),
    }
}

/// What is handed out for what came for a request that had this name. A trust that it brings is put into the client's
/// list, and fewer may come then.
fn handed<S: FitsBatches>(
    held: &mut Holds,
    coming: &mut u32,
    client: u32,
    trustee: u32,
    asked: Name,
    came: Came<S>,
) -> Got<S>
    requires takeable { MayHand came }
    requires coming { brings_by came ≤ coming.old }
    requires room { held_count held.old + brings_by came ≤ room_for held.old }
    ensures got { IsHanded trustee client asked came result held.old held.new }
    ensures coming { coming.old ≡ coming.new + brings_by came }
{
    match came {
        Came::Answered(answer) => got_of(held, coming, client, trustee, asked, answer),
        Came::Finished(reply) => Got::Finished(reply),
    }
}

impl<S: FitsBatches, C: Drop, P: PairTable<S>> Client<S, C, P> {
    /// The continuation of what came first and was not taken, with what came; `None` where nothing waits. Of one trustee
    /// answers come out in the order of the requests; a launch comes out when its completion came, or where it was
    /// refused.
    pub fn next(&mut self) -> Option<(C, Got<S>)>
        requires client { (openings : ℕ → State S S.Op S.Reply S.Task) × IsClient P.theory.client_view openings self.old.books }
        ensures next { MatchOption result ((self.old.books.arrived.items ≡ []) × (self.new ≡ self.old)) (λ taken. HasTaken taken.0 taken.1 self.old.books self.new.books) }
        ensures client { (openings : ℕ → State S S.Op S.Reply S.Task) → IsClient P.theory.client_view openings self.old.books → IsClient P.theory.client_view openings self.new.books }
    {
        let books = &mut self.books;
        let Some(arrival) = books.arrived.pop_front() else {
            return None;
        };
        books.lanes[arrival.trustee as usize].counting -= 1;
        let got = handed(
            &mut books.held,
            &mut books.coming,
            books.number,
            arrival.trustee,
            arrival.name,
            arrival.came,
        );
        Some((arrival.after, got))
    }

    /// The trust of the gift that came first and was not taken; `None` where none is there.
    pub fn take_gift(&mut self) -> Option<Trust>
        requires client { (openings : ℕ → State S S.Op S.Reply S.Task) × IsClient P.theory.client_view openings self.old.books }
        ensures gift { MatchOption result ((self.old.books.gifts.items ≡ []) × (self.new ≡ self.old)) (λ gift. HasTakenGift gift self.old.books self.new.books) }
        ensures client { (openings : ℕ → State S S.Op S.Reply S.Task) → IsClient P.theory.client_view openings self.old.books → IsClient P.theory.client_view openings self.new.books }
    {
        let books = &mut self.books;
        let Some(gift) = books.gifts.pop_front() else {
            return None;
        };
        books.coming -= 1;
        Some(hold(&mut books.held, gift.client, gift.trustee, gift.name))
    }
}
