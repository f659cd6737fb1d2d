//! How a client begins.
ghost use Rattle.std.specs.Prelude.{◌≡◌, ℕ, ◌+◌, ◌≤◌, length, map, IfOk, OnOk};
ghost use Rattle.std.specs.List.{AllByRecursion, AllZip};
ghost use Rattle.tm_pair.specs.Views.{new_client};
ghost use Rattle.tm_client.specs.Begun.{HasBegun, IsBeginnable, IsFirstClient, IsFirstTrust, IsTrustOf, StandsIn, named_at, new_lane};
ghost use Rattle.tm_client.specs.Listing.{held_count, listed, room_for};

use crate::books::Books;
use crate::client::Client;
use crate::holds::Holds;
use crate::lane::Lane;
use crate::taking::hold;
use crate::trust::Trust;
use circular_buffer::HeapCircularBuffer;
use std::alloc::{AllocError, Global};
use tm_batch::{Config, Name, WINDOW};
use tm_pair::{FitsBatches, PairTable};

/// What is kept for the trustee of a side at first, with room for a window of requests.
fn lane_of<S: FitsBatches, C: Drop, D: Drop>(
    alloc: Global,
    side: D,
) -> Result<Lane<S, C, D>, AllocError>
    ensures { IfOk result (λ lane. lane ≡ new_lane side) }
{
    let waits = HeapCircularBuffer::with_capacity(alloc, WINDOW)?;
    let afters = HeapCircularBuffer::with_capacity(alloc, WINDOW)?;
    let launched = HeapCircularBuffer::with_capacity(alloc, WINDOW)?;
    Ok(Lane {
        side,
        waits,
        afters,
        launched,
        out: false,
        room: 0,
        counting: 0,
        fetching: false,
        closing: false,
        said: false,
    })
}

/// What is kept for each trustee at first.
fn lanes_of<S: FitsBatches, C: Drop, D: Drop>(
    alloc: Global,
    sides: Vec<D>,
) -> Result<Vec<Lane<S, C, D>>, AllocError>
    ensures { IfOk result (λ lanes. lanes.items ≡ map new_lane sides.items) }
{
    let mut lanes = Vec::new(alloc);
    for side in sides {
        lanes.push(lane_of(alloc, side)?)?;
    }
    Ok(lanes)
}

/// The trusts of what a client holds at first, each of which is put into its list.
fn first_trusts(
    alloc: Global,
    client: u32,
    held: &[(u32, Name)],
    list: &mut Holds,
) -> Result<Vec<Trust>, AllocError>
    requires room { held_count list.old + length held.now ≤ room_for list.old }
    ensures trusts { IfOk result (λ trusts. AllZip (IsTrustOf client) held.now trusts.items) }
    ensures stand { IfOk result (λ trusts. AllByRecursion (StandsIn list.new) trusts.items) }
    ensures listed { OnOk result ((t id : ℕ) → listed t id list.new ≡ listed t id list.old + named_at t id held.now) }
    ensures count { OnOk result (held_count list.new ≡ held_count list.old + length held.now) }
    ensures room { OnOk result (room_for list.new ≡ room_for list.old) }
{
    let mut trusts = Vec::new(alloc);
    for named in held {
        let (trustee, name) = *named;
        trusts.push(hold(list, client, trustee, name))?;
    }
    Ok(trusts)
}

impl<S: FitsBatches, C: Drop, P: PairTable<S>> Client<S, C, P> {
    /// Client `number` of a runtime built from a config and a list of objects, and the trusts of what it holds at
    /// first, in the order of `held`. `sides` are its sides at the trustees, in their order, each as its table's `new`
    /// gave it, and `held` are the objects of which it is a holder, by their trustees' numbers. All room is reserved:
    /// for [`WINDOW`] requests at each trustee with their answers and completions, and for `config.trusts` trusts. An error is want of
    /// memory.
    pub fn new(
        alloc: Global,
        number: u32,
        config: Config,
        sides: Vec<P::ClientSide>,
        held: Vec<(u32, Name)>,
    ) -> Result<(Client<S, C, P>, Vec<Trust>), AllocError>
        requires begins { IsBeginnable S S.Op S.Reply S.Task number config (length sides.items) held.items }
        requires sides { AllByRecursion (λ side. P.theory.client_view side ≡ new_client number) sides.items }
        ensures begun { IfOk result (λ r. HasBegun number config sides.items held.items r.0.books) }
        ensures trusts { IfOk result (λ r. AllZip (IsFirstTrust r.0.books) held.items r.1.items) }
        ensures client { IfOk result (λ r. IsFirstClient P.theory.client_view number config (length sides.items) held.items r.0.books) }
    {
        let mut list = Holds::new(alloc, config.trusts as usize)?;
        let trusts = first_trusts(alloc, number, held.as_slice(), &mut list)?;
        let arrived = HeapCircularBuffer::with_capacity(alloc, WINDOW * sides.len())?;
        let gifts = HeapCircularBuffer::with_capacity(alloc, config.trusts as usize)?;
        let lanes = lanes_of(alloc, sides)?;
        let books = Books {
            number,
            clients: config.clients,
            most: config.trusts,
            lanes,
            held: list,
            arrived,
            gifts,
            coming: 0,
        };
        Ok((Client { books }, trusts))
    }
}
