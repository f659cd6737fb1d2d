//! The tables of a build are opened, and their sides are dealt.
ghost use Rattle.std.specs.Prelude.{◌≡◌, ◌≤◌, ◌<◌, ◌+◌, length, map, IfOk, OnOk};
ghost use Rattle.tm_model.specs.Opening.{IsBuildable};
ghost use Rattle.tm_turns.specs.Opening.{AreOpened, dealt};

use std::alloc::{AllocError, Global};
use tm_batch::{Config, First};
use tm_build::empty_lists;
use tm_pair::{FitsTable, PlainClient, PlainTable, PlainTrustee};

/// Tables, the trustees' own sides, and for each place its sides at the tables where it has one, in their order.
#[derive(Drop)]
pub(crate) struct Opened<S: FitsTable> {
    pub(crate) tables: Vec<PlainTable<S>>,
    pub(crate) homes: Vec<PlainTrustee<S>>,
    pub(crate) seats: Vec<Vec<PlainClient<S>>>,
}

/// Puts each of some sides behind those of its place, from the first place on.
fn deal<S: FitsTable>(
    sides: Vec<PlainClient<S>>,
    seats: &mut Vec<Vec<PlainClient<S>>>,
) -> Result<(), AllocError>
    requires { length sides.items ≤ length seats.old.items }
    ensures { OnOk result (map (λ l. l.items) seats.new.items ≡ dealt sides.items (map (λ l. l.items) seats.old.items)) }
{
    let mut place = 0;
    for side in sides {
        let list = &mut seats[place];
        list.push(side)?;
        place += 1;
    }
    Ok(())
}

/// Opens the table of a trustee behind those of the lower ones.
fn open_next<S: FitsTable>(
    alloc: Global,
    config: Config,
    first: &Vec<First<S>>,
    number: u32,
    opened: &mut Opened<S>,
) -> Result<(), AllocError>
    requires buildable { IsBuildable config first.now.items }
    requires number { number < config.trustees }
    requires opened { AreOpened S.kind config first.now.items number opened.old }
    ensures { OnOk result (AreOpened S.kind config first.now.items (number + 1) opened.new) }
{
    let (table, sides, home) = PlainTable::new(alloc, number, config, first)?;
    deal(sides, &mut opened.seats)?;
    opened.tables.push(table)?;
    opened.homes.push(home)?;
    Ok(())
}

/// Opens the tables of all trustees.
pub(crate) fn open_all<S: FitsTable>(
    alloc: Global,
    config: Config,
    first: &Vec<First<S>>,
) -> Result<Opened<S>, AllocError>
    requires { IsBuildable config first.now.items }
    ensures { IfOk result (λ opened. AreOpened S.kind config first.now.items config.trustees opened) }
{
    let mut opened = Opened {
        tables: Vec::new(alloc),
        homes: Vec::new(alloc),
        seats: empty_lists(alloc, config.clients + config.trustees)?,
    };
    for number in 0..config.trustees {
        open_next(alloc, config, first, number, &mut opened)?;
    }
    Ok(opened)
}
