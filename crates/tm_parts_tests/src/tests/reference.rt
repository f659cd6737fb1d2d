//! Rows of what a trustee answers, with what the rules say of each.

mod steps;

use self::steps::{Does, Row, Seen, name, opened, opened_as, outcome, play};
use std::test::Fail;
use tm_batch::{Config, Name};

const NONE: Name = Name { id: 0, place: 0 };

const SMALL: Config = Config {
    clients: 2,
    trustees: 2,
    objects: 4,
    trusts: 4,
    last_id: 9,
};

const SCARCE: Config = Config {
    clients: 2,
    trustees: 2,
    objects: 1,
    trusts: 4,
    last_id: 1,
};

#[test]
fn launched_work_keeps_its_object(rt: HostRuntime) -> Result<(), Fail> {
    let alloc = rt.alloc();
    let mut trustee = opened(alloc, SMALL, &[(0, 5, &[0])])?;
    let rows = [
        Row(0, Does::LaunchEnd(1), Seen::Launched(1)),
        Row(0, Does::Reclaim(1), Seen::Shared),
        Row(0, Does::Release(1), Seen::Released),
        Row(0, Does::Read(1), Seen::NotLegal),
        Row(1, Does::Release(1), Seen::NotLegal),
        Row(1, Does::Reclaim(1), Seen::NotLegal),
        Row(0, Does::NotAbove(1), Seen::NotLegal),
        Row(0, Does::Begin(1), Seen::Ended(1)),
        Row(0, Does::Begin(1), Seen::NotLegal),
        Row(0, Does::Send(0), Seen::Left(0, 1, NONE, 1)),
    ];
    play(&rt, alloc, &mut trustee, &rows);
    Ok(())
}

#[test]
fn a_grant_to_a_closed_place_is_gone(rt: HostRuntime) -> Result<(), Fail> {
    let alloc = rt.alloc();
    let mut trustee = opened(alloc, SMALL, &[(0, 5, &[0])])?;
    let rows = [
        Row(0, Does::Grant(1, 1), Seen::Granted),
        Row(0, Does::Release(1), Seen::Released),
        Row(1, Does::Bye, Seen::ByeDone),
        Row(0, Does::Read(1), Seen::NotLegal),
        Row(0, Does::Entrust(8), Seen::Entrusted(2)),
        Row(0, Does::Grant(2, 1), Seen::Gone),
        Row(1, Does::Send(16), Seen::Left(0, 0, NONE, 0)),
        Row(0, Does::Reclaim(2), Seen::Reclaimed(8)),
        Row(0, Does::Entrust(9), Seen::Entrusted(3)),
    ];
    play(&rt, alloc, &mut trustee, &rows);
    Ok(())
}

#[test]
fn a_gift_is_the_name_that_was_granted(rt: HostRuntime) -> Result<(), Fail> {
    let alloc = rt.alloc();
    let mut trustee = opened(alloc, SMALL, &[(0, 5, &[0])])?;
    let gift = Name { id: 1, place: 9 };
    let rows = [
        Row(0, Does::Grant(1, 7), Seen::NotLegal),
        Row(0, Does::Grant(1, 2), Seen::NotLegal),
        Row(1, Does::Read(1), Seen::NotLegal),
        Row(0, Does::GrantOf(gift, 1), Seen::Granted),
        Row(1, Does::Add(1, 2), Seen::Is(7)),
        Row(1, Does::Send(17), Seen::NotLegal),
        Row(2, Does::Send(0), Seen::NotLegal),
        Row(2, Does::Bye, Seen::NotLegal),
        Row(1, Does::Send(16), Seen::Left(1, 0, gift, 0)),
    ];
    play(&rt, alloc, &mut trustee, &rows);
    Ok(())
}

#[test]
fn no_further_gift_waits_where_1024_do(rt: HostRuntime) -> Result<(), Fail> {
    let alloc = rt.alloc();
    let mut trustee = opened(alloc, SMALL, &[(0, 5, &[0]), (0, 6, &[0])])?;
    for _ in 0..1024 {
        let given = outcome(&mut trustee, alloc, 0, Does::Grant(1, 1));
        assert_eq!(rt; given, Seen::Granted);
    }
    let rows = [
        Row(0, Does::Grant(2, 1), Seen::GiftsFull),
        Row(0, Does::Grant(2, 0), Seen::Granted),
        Row(1, Does::Send(16), Seen::Left(16, 0, name(1), 0)),
        Row(0, Does::Grant(2, 1), Seen::Granted),
    ];
    play(&rt, alloc, &mut trustee, &rows);
    for _ in 0..63 {
        let left = outcome(&mut trustee, alloc, 1, Does::Send(16));
        assert_eq!(rt; left, Seen::Left(16, 0, name(1), 0));
    }
    let last = outcome(&mut trustee, alloc, 1, Does::Send(16));
    assert_eq!(rt; last, Seen::Left(1, 0, name(2), 0));
    Ok(())
}

#[test]
fn a_bye_takes_gifts_that_wait(rt: HostRuntime) -> Result<(), Fail> {
    let alloc = rt.alloc();
    let mut trustee = opened(alloc, SMALL, &[(0, 5, &[0])])?;
    for _ in 0..17 {
        let given = outcome(&mut trustee, alloc, 0, Does::Grant(1, 1));
        assert_eq!(rt; given, Seen::Granted);
    }
    let rows = [
        Row(0, Does::Reclaim(1), Seen::Shared),
        Row(1, Does::Bye, Seen::ByeDone),
        Row(0, Does::Grant(1, 1), Seen::Gone),
        Row(0, Does::Reclaim(1), Seen::Reclaimed(5)),
    ];
    play(&rt, alloc, &mut trustee, &rows);
    Ok(())
}

#[test]
fn ids_and_tickets_are_spent_once(rt: HostRuntime) -> Result<(), Fail> {
    let alloc = rt.alloc();
    let mut trustee = opened(alloc, SCARCE, &[(0, 5, &[0])])?;
    let rows = [
        Row(0, Does::LaunchEnd(1), Seen::Launched(1)),
        Row(0, Does::LaunchEnd(1), Seen::TicketsSpent),
        Row(0, Does::Begin(1), Seen::Ended(1)),
        Row(0, Does::LaunchEnd(1), Seen::TicketsSpent),
        Row(0, Does::Entrust(1), Seen::ObjectsFull(1)),
        Row(0, Does::Release(1), Seen::Released),
        Row(0, Does::Entrust(2), Seen::SerialsSpent(2)),
    ];
    play(&rt, alloc, &mut trustee, &rows);
    let mut two = opened(
        alloc,
        Config {
            last_id: 2,
            ..SCARCE
        },
        &[],
    )?;
    let rows = [
        Row(1, Does::Entrust(7), Seen::Entrusted(1)),
        Row(1, Does::Entrust(8), Seen::ObjectsFull(8)),
        Row(1, Does::Release(1), Seen::Released),
        Row(1, Does::Entrust(8), Seen::Entrusted(2)),
        Row(1, Does::Release(2), Seen::Released),
        Row(1, Does::Entrust(9), Seen::SerialsSpent(9)),
    ];
    play(&rt, alloc, &mut two, &rows);
    Ok(())
}

#[test]
fn completions_are_in_the_order_of_the_ends(rt: HostRuntime) -> Result<(), Fail> {
    let alloc = rt.alloc();
    let mut trustee = opened(alloc, SMALL, &[(0, 5, &[0, 1]), (0, 6, &[0])])?;
    let rows = [
        Row(0, Does::LaunchAsk(1, 0, 7), Seen::Launched(1)),
        Row(0, Does::LaunchEnd(2), Seen::Launched(2)),
        Row(0, Does::LaunchEnd(1), Seen::Launched(3)),
        Row(0, Does::Begin(1), Seen::Asked(1, 0, 7)),
        Row(0, Does::Begin(1), Seen::NotLegal),
        Row(1, Does::Add(1, 4), Seen::Is(9)),
        Row(0, Does::Begin(2), Seen::Ended(2)),
        Row(0, Does::NoObject(1), Seen::NotLegal),
        Row(0, Does::Reply(1, 3), Seen::NotLegal),
        Row(0, Does::NotAbove(1), Seen::Ended(1)),
        Row(0, Does::Begin(1), Seen::Ended(3)),
        Row(0, Does::Send(0), Seen::Left(0, 3, NONE, 2)),
    ];
    play(&rt, alloc, &mut trustee, &rows);
    Ok(())
}

#[test]
fn asks_are_told_by_what_is_held_there(rt: HostRuntime) -> Result<(), Fail> {
    let alloc = rt.alloc();
    let objects: [(u32, u64, &[u32]); 3] = [(1, 3, &[1]), (0, 5, &[0]), (1, 7, &[1, 2])];
    let mut trustee = opened(alloc, SMALL, &objects)?;
    let rows = [
        Row(0, Does::LaunchAsk(1, 1, 0), Seen::Launched(1)),
        Row(0, Does::Begin(1), Seen::Asked(1, 1, 0)),
        Row(0, Does::NotAbove(1), Seen::NotLegal),
        Row(0, Does::NoObject(1), Seen::NotLegal),
        Row(0, Does::Reply(1, 7), Seen::Ended(1)),
        Row(0, Does::LaunchAsk(1, 1, 1), Seen::Launched(2)),
        Row(0, Does::Begin(1), Seen::Asked(2, 1, 1)),
        Row(0, Does::Reply(1, 7), Seen::NotLegal),
        Row(0, Does::NoObject(1), Seen::Ended(2)),
        Row(0, Does::LaunchAsk(1, 9, 0), Seen::Launched(3)),
        Row(0, Does::Begin(1), Seen::Asked(3, 9, 0)),
        Row(0, Does::Reply(1, 7), Seen::NotLegal),
        Row(0, Does::NoObject(1), Seen::Ended(3)),
        Row(0, Does::Read(1), Seen::Is(5)),
    ];
    play(&rt, alloc, &mut trustee, &rows);
    Ok(())
}

#[test]
fn sixteen_completions_leave_whatever_the_room(rt: HostRuntime) -> Result<(), Fail> {
    let alloc = rt.alloc();
    let config = Config {
        last_id: 99,
        ..SMALL
    };
    let mut trustee = opened(alloc, config, &[(0, 5, &[0])])?;
    for ticket in 1..35 {
        let launched = outcome(&mut trustee, alloc, 0, Does::LaunchEnd(1));
        assert_eq!(rt; launched, Seen::Launched(ticket));
    }
    for ticket in 1..35 {
        let ended = outcome(&mut trustee, alloc, 0, Does::Begin(1));
        assert_eq!(rt; ended, Seen::Ended(ticket));
    }
    let rows = [
        Row(0, Does::Grant(1, 0), Seen::Granted),
        Row(0, Does::Send(0), Seen::Left(0, 16, NONE, 1)),
        Row(0, Does::Send(16), Seen::Left(1, 16, name(1), 17)),
        Row(0, Does::Send(16), Seen::Left(0, 2, NONE, 33)),
    ];
    play(&rt, alloc, &mut trustee, &rows);
    Ok(())
}

#[test]
fn a_reclaim_is_shared_while_another_holds(rt: HostRuntime) -> Result<(), Fail> {
    let alloc = rt.alloc();
    let mut trustee = opened(alloc, SMALL, &[(0, 5, &[0, 1]), (0, 6, &[0])])?;
    let rows = [
        Row(0, Does::Reclaim(1), Seen::Shared),
        Row(0, Does::Reclaim(2), Seen::Reclaimed(6)),
        Row(0, Does::Read(2), Seen::NotLegal),
        Row(0, Does::Read(1), Seen::Is(5)),
        Row(1, Does::Release(1), Seen::Released),
        Row(0, Does::Reclaim(1), Seen::Reclaimed(5)),
        Row(0, Does::Entrust(1), Seen::Entrusted(3)),
    ];
    play(&rt, alloc, &mut trustee, &rows);
    Ok(())
}

#[test]
fn a_trustee_applies_at_a_greater_one(rt: HostRuntime) -> Result<(), Fail> {
    let alloc = rt.alloc();
    // Place 2 is trustee 0's.
    let mut trustee = opened_as(alloc, SMALL, 1, &[(0, 4, &[0]), (1, 5, &[2, 1])])?;
    let rows = [
        Row(2, Does::Add(1, 3), Seen::Is(8)),
        Row(1, Does::Read(1), Seen::Is(8)),
        Row(0, Does::Read(1), Seen::NotLegal),
        Row(1, Does::Grant(1, 2), Seen::NotLegal),
        Row(2, Does::Bye, Seen::ByeDone),
        Row(2, Does::Read(1), Seen::NotLegal),
        Row(1, Does::Reclaim(1), Seen::Reclaimed(8)),
        Row(3, Does::Bye, Seen::NotLegal),
    ];
    play(&rt, alloc, &mut trustee, &rows);
    Ok(())
}
