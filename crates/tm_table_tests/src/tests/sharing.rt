//! A table in many threads: two clients and the trustee call at once, and then meet.
ghost use Rattle.std.specs.Prelude.{◌≡◌, ℕ, ◌<◌, [], IfOk, vec_len};
ghost use Rattle.std.specs.Thread.{IsSync};
ghost use Rattle.std.specs.declared.option.Option.TheVariants.{None};
ghost use Rattle.tm_seq.specs.Counting.{counter_kind};
ghost use Rattle.tm_model.specs.Opening.{opening_of};
ghost use Rattle.tm_pair.specs.Views.{new_client, new_trustee, hand_of};
ghost use Rattle.tm_pair.specs.Theory.{IsNewTable};
ghost use Rattle.tm_toggle.specs.Shared.{opening_at, client_at, trustee_at, IsClientOf, IsTrusteeOf, IsSame, shared_theory};
ghost use Rattle.tm_table_tests.specs.Trying.{IsFirstClient, IsFirstOwner, trying};

use std::alloc::{AllocError, Global};
use std::sync::Wait;
use std::test::Fail;
use std::thread::{self, Threads};
use tm_batch::{Config, First};
use tm_pair::{Collected, Meet, PairTable, answer_nothing, ask_nothing};
use tm_seq::{Counter, Entrusted};
use tm_toggle::{Shareable, SharedClient, SharedTable, SharedTrustee, handles_share_sides};

const TWO: Config = Config {
    clients: 2,
    trustees: 2,
    objects: 1,
    trusts: 1,
    last_id: 1,
};

type Client = (SharedTable<Counter>, SharedClient<Counter>);

type Owner = (SharedTable<Counter>, SharedTrustee<Counter>);

/// Asks nothing, and waits for the answer.
fn ask<R: Wait>(rt: &R, client: Client) -> Client
    requires first { IsFirstClient client.0 client.1 }
    ensures mine { IsClientOf counter_kind result.0 result.1 }
    ensures same { IsSame client.0 result.0 }
{
    let (mut table, mut side) = client;
    let _ = ask_nothing(&mut table, &mut side);
    for _ in rt.forever() {
        match table.collect(&mut side) {
            Collected::Pending => thread::yield_now(),
            Collected::Answers(_) | Collected::Idle => break,
        }
    }
    (table, side)
}

/// Asks nothing, and looks once.
fn look(client: Client) -> Client
    requires first { IsFirstClient client.0 client.1 }
    ensures mine { IsClientOf counter_kind result.0 result.1 }
    ensures same { IsSame client.0 result.0 }
{
    let (mut table, mut side) = client;
    let _ = ask_nothing(&mut table, &mut side);
    let _ = table.collect(&mut side);
    (table, side)
}

/// Looks for the batch of client 0 until it is there, and answers it.
fn answer<R: Wait>(rt: &R, owner: Owner) -> Owner
    requires first { IsFirstOwner owner.0 owner.1 }
    ensures mine { IsTrusteeOf counter_kind result.0 result.1 }
    ensures same { IsSame owner.0 result.0 }
{
    let (mut table, mut side) = owner;
    for _ in rt.forever() {
        if answer_nothing(&mut table, &mut side, 0, 1).is_some() {
            break;
        }
        thread::yield_now();
    }
    (table, side)
}

/// The table of trustee 0, of two clients and no object.
fn two(alloc: Global) -> Result<(Client, Client, Owner), AllocError>
    ensures one { IfOk result (λ r. IsFirstClient r.0.0 r.0.1) }
    ensures other { IfOk result (λ r. IsFirstClient r.1.0 r.1.1) }
    ensures home { IfOk result (λ r. IsFirstOwner r.2.0 r.2.1) }
    ensures alike { IfOk result (λ r. IsSame r.0.0 r.1.0) }
    ensures same { IfOk result (λ r. IsSame r.0.0 r.2.0) }
{
    let first: Vec<First<Counter>> = Vec::new(alloc);
    let (table, mut clients, side) = SharedTable::new(alloc, 0, TWO, &first)?;
    let one = table.share()?;
    let other = table.share()?;
    let (Some(second), Some(least)) = (clients.pop(), clients.pop()) else {
        return Err(AllocError);
    };
    Ok(((one, least), (other, second), (table, side)))
}

/// Both clients and the trustee, each in a thread of its own.
fn all<R: Wait + Threads + Sync>(
    rt: &R,
    one: Client,
    other: Client,
    owner: Owner,
) -> (Client, (Client, Owner))
    requires one { IsFirstClient one.0 one.1 }
    requires other { IsFirstClient other.0 other.1 }
    requires home { IsFirstOwner owner.0 owner.1 }
    ensures one { IsClientOf counter_kind result.0.0 result.0.1 }
    ensures other { IsClientOf counter_kind result.1.0.0 result.1.0.1 }
    ensures home { IsTrusteeOf counter_kind result.1.1.0 result.1.1.1 }
    ensures same_one { IsSame one.0 result.0.0 }
    ensures same_other { IsSame other.0 result.1.0.0 }
    ensures same_home { IsSame owner.0 result.1.1.0 }
{
    thread::join(
        rt,
        move || -> Client
            requires { IsFirstClient one.0 one.1 }
            ensures mine { IsClientOf counter_kind result.0 result.1 }
            ensures same { IsSame one.0 result.0 }
        { ask(rt, one) },
        move || -> (Client, Owner)
            requires other { IsFirstClient other.0 other.1 }
            requires home { IsFirstOwner owner.0 owner.1 }
            requires sync { IsSync R.row }
            ensures other { IsClientOf counter_kind result.0.0 result.0.1 }
            ensures home { IsTrusteeOf counter_kind result.1.0 result.1.1 }
            ensures same_other { IsSame other.0 result.0.0 }
            ensures same_home { IsSame owner.0 result.1.0 }
        {
            thread::join(
                rt,
                move || -> Client
                    requires { IsFirstClient other.0 other.1 }
                    ensures mine { IsClientOf counter_kind result.0 result.1 }
                    ensures same { IsSame other.0 result.0 }
                { look(other) },
                move || -> Owner
                    requires { IsFirstOwner owner.0 owner.1 }
                    ensures mine { IsTrusteeOf counter_kind result.0 result.1 }
                    ensures same { IsSame owner.0 result.0 }
                { answer(rt, owner) },
            )
        },
    )
}

/// They meet: what each client has seen begins the trustee's log, and of the two one begins the other.
fn met(one: &mut Client, other: &mut Client, owner: &mut Owner) -> Result<bool, AllocError>
    requires one { IsClientOf counter_kind one.old.0 one.old.1 }
    requires other { IsClientOf counter_kind other.old.0 other.old.1 }
    requires home { IsTrusteeOf counter_kind owner.old.0 owner.old.1 }
    requires alike { IsSame owner.old.0 one.old.0 }
    requires same { IsSame owner.old.0 other.old.0 }
{
    handles_share_sides::<Counter>();
    let (table, home) = owner;
    table.compare(&mut one.1, &mut other.1)?;
    table.follow(home, &mut one.1)?;
    table.follow(home, &mut other.1)?;
    let Collected::Idle = table.collect(&mut one.1) else {
        return Ok(false);
    };
    let Collected::Idle = table.collect(&mut other.1) else {
        return Ok(true);
    };
    Ok(false)
}

#[test]
fn two_clients_and_the_trustee_in_threads(rt: HostRuntime) -> Result<(), Fail> {
    let (one, other, owner) = two(rt.alloc())?;
    let (mut one, (mut other, mut owner)) = all(&rt, one, other, owner);
    assert!(rt; met(&mut one, &mut other, &mut owner)?);
    Ok(())
}

fn is_send<T: Send>(_it: &T) {}

fn table_moves<S: Shareable + Send + Entrusted<Op: Send, Reply: Send, Task: Send>>(
    it: &SharedTable<S>,
) {
    is_send(it);
}

fn client_moves<S: Shareable + Send + Entrusted<Op: Send, Reply: Send, Task: Send>>(
    it: &SharedClient<S>,
) {
    is_send(it);
}

fn trustee_moves<S: Shareable + Send + Entrusted<Op: Send, Reply: Send, Task: Send>>(
    it: &SharedTrustee<S>,
) {
    is_send(it);
}
