//! How a table for many threads begins.
ghost use Rattle.std.specs.Prelude.{◌≡◌, ◌+◌, ◌<◌, [], IfOk, replicate};
ghost use Rattle.std.specs.Arc.{arc_value};
ghost use Rattle.tm_model.specs.Opening.{IsBuildable, opening_of};
ghost use Rattle.tm_toggle.specs.Ruled.{opening_by};
ghost use Rattle.tm_pair.specs.Theory.{IsNewTable};
ghost use Rattle.tm_toggle.specs.Shared.{IsSized, IsSame, shared_theory};
ghost use Rattle.tm_toggle.specs.Opened.{maker, IsMade, IsFirstSide};
ghost use Rattle.tm_toggle.specs.Contents.{no_content};

use crate::content::Content;
use crate::fitting::Shareable;
use crate::ruling::{Makes, Order, Settles};
use crate::shared::SharedTable;
use crate::sides::{Key, SharedClient, SharedTrustee};
use crate::view::View;
use atomic_table::{Seat, Table};
use std::alloc::{AllocError, Global};
use std::marker::Brand;
use std::sync::Arc;
use tm_batch::{Config, First};
use tm_ghost::{GhostList, Items};

impl<S: Shareable> SharedTable<S> {
    /// The table of trustee `number`, one client's side for each of its `config.clients + number`
    /// places in order, and the trustee's side.
    pub fn new(
        alloc: Global,
        number: u32,
        config: Config,
        first: &Vec<First<S>>,
    ) -> Result<(SharedTable<S>, Vec<SharedClient<S>>, SharedTrustee<S>), AllocError>
        requires buildable { IsBuildable config first.now.items }
        requires number { number < config.trustees }
        ensures { IfOk result (λ r. IsNewTable (shared_theory S.kind) (opening_of number config first.now.items) r.0 r.1.items r.2) }
    {
        let places = config.clients + number;
        let count = places as usize;
        let (table, mut seat) = make(alloc, number, config, first)?;
        let replied = Vec::from_elem(alloc, 0u64, count)?;
        let mut clients = Vec::new(alloc);
        for place in 0..places {
            clients.push(add(&table, &mut seat, place))?;
        }
        let table = Arc::new(alloc, table)?;
        Ok((
            SharedTable { table },
            clients,
            SharedTrustee {
                seat,
                words: replied,
            },
        ))
    }

    /// The same table, for another thread.
    pub fn share(&self) -> Result<SharedTable<S>, AllocError>
        ensures { IfOk result (λ table. IsSame self.now table) }
    {
        Ok(SharedTable {
            table: Arc::try_clone(&self.table)?,
        })
    }
}

/// The words and slots of the table of trustee `number`, and its first seat, which is the trustee's.
fn make<S: Shareable>(
    alloc: Global,
    number: u32,
    config: Config,
    first: &Vec<First<S>>,
) -> Result<
    (
        Table<Content<S>, View<S>, Key<S>, Order<S>, Global>,
        Seat<Content<S>, View<S>>,
    ),
    AllocError,
>
    requires buildable { IsBuildable config first.now.items }
    requires number { number < config.trustees }
    ensures { IfOk result (λ t. IsMade (opening_of number config first.now.items) t.0.shared.key t.0.shared.table_id t.1.table_id t.1.me) }
{
    let count = (config.clients + number) as usize;
    let key = Key {
        number,
        config,
        first: told(first),
    };
    let words = Vec::from_elem(alloc, 0u64, 32 * count + 48)?;
    let slots = empties(alloc, count)?;
    let Ok((table, seat)) = Table::new(alloc, words.as_slice(), slots, &key) else {
        return Err(AllocError);
    };
    Ok((table, seat))
}

/// Slots at first.
fn empties<S: Shareable>(alloc: Global, count: usize) -> Result<Vec<Content<S>>, AllocError>
    ensures { IfOk result (λ v. v.items ≡ replicate count (no_content S.kind)) }
{
    let mut slots = Vec::with_capacity(alloc, count)?;
    for _ in 0..count {
        slots.push_reserved(Content::new());
    }
    Ok(slots)
}

/// The client's side of the next place, which takes its slot.
fn add<S: Shareable>(
    table: &Table<Content<S>, View<S>, Key<S>, Order<S>, Global>,
    seat: &mut Seat<Content<S>, View<S>>,
    place: u32,
) -> SharedClient<S>
    requires table { seat.old.table_id ≡ table.now.shared.table_id }
    requires sized { IsSized (opening_by table.now.shared.key) table.now.shared.table_id }
    requires place { place < table.now.shared.table_id.slots }
    requires seat { seat.old.me ≡ (maker table.now.shared.key place, []) }
    ensures table { seat.new.table_id ≡ seat.old.table_id }
    ensures seat { seat.new.me ≡ (maker table.now.shared.key (place + 1), []) }
    ensures client { IsFirstSide table.now.shared.key table.now.shared.table_id place result }
{
    let mut client = table.shared.split_seat::<Makes>(seat);
    table
        .shared
        .load::<Settles>(&mut client, 32 * (place as usize) + 16);
    SharedClient {
        seat: client,
        place,
        word: 0,
        out: false,
    }
}

/// The list of the build, for contracts alone.
fn told<S: Shareable>(first: &Vec<First<S>>) -> GhostList<First<S>>
    ensures { result.items ≡ first.now.items }
{
    pick::<S, Brand>(first)
}

fn pick<S: Shareable, E: Items<First<S>>>(_first: &Vec<First<S>>) -> GhostList<First<S>>
    ensures { result.items ≡ E.items }
{
    GhostList::of::<E>()
}
