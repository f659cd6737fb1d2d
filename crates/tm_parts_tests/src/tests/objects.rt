//! The calls on objects, on counters and through their bound.
ghost use Rattle.std.specs.Prelude.{◌≡◌, length, IsSome};
ghost use Rattle.tm_objects.specs.Live.{object_of};

use std::alloc::{AllocError, Global};
use std::test::Fail;
use tm_batch::{Name, Refusal};
use tm_objects::{Left, Objects};
use tm_seq::{Counter, CounterOp, CounterReply, Entrusted};

/// The counters of a trustee with few places. A call that may not be made answers `None`.
#[derive(Drop)]
struct Few {
    objects: Objects<Counter>,
    places: u32,
    ghost counted: { length objects.gifts ≡ places },
}

impl Few {
    fn new(alloc: Global, objects: u32, last_id: u64, places: u32) -> Result<Few, AllocError> {
        Ok(Few {
            objects: Objects::new(alloc, objects, last_id, places)?,
            places,
        })
    }

    fn entrust(&mut self, place: u32, value: u64) -> Option<Name> {
        if place >= self.places {
            return None;
        }
        self.objects.entrust(place, Counter { value }).ok()
    }

    fn refusal(&mut self, value: u64) -> Option<(Refusal, u64)> {
        if self.places == 0 {
            return None;
        }
        match self.objects.entrust(0, Counter { value }) {
            Ok(_) => None,
            Err((refusal, back)) => Some((refusal, back.value)),
        }
    }

    fn count(&self, name: Name, place: u32) -> Option<u32> {
        if place >= self.places || !self.objects.is_live(name) {
            return None;
        }
        Some(self.objects.count(name, place))
    }

    fn placed(&self, name: Name) -> Option<Name> {
        if !self.objects.is_live(name) {
            return None;
        }
        Some(self.objects.placed(name))
    }

    fn grant(&mut self, name: Name, to: u32) -> Option<bool> {
        if to >= self.places
            || !self.objects.is_live(name)
            || self.objects.total(name) == u64::MAX
        {
            return None;
        }
        Some(self.objects.grant(name, to))
    }

    fn gift(&mut self, place: u32) -> Option<Name> {
        if place >= self.places {
            return None;
        }
        self.objects.take_gift(place)
    }

    fn release(&mut self, name: Name, place: u32) -> Option<Left> {
        if place >= self.places
            || !self.objects.is_live(name)
            || self.objects.count(name, place) == 0
        {
            return None;
        }
        Some(self.objects.release(name, place))
    }

    fn reclaim(&mut self, name: Name, place: u32) -> Option<u64> {
        if place >= self.places
            || !self.objects.is_live(name)
            || self.objects.count(name, place) == 0
        {
            return None;
        }
        self.objects
            .reclaim(name, place)
            .ok()
            .map(|counter| counter.value)
    }

    // Whether the object goes on after a launch began and ended, and its total in between.
    fn launch(&mut self, name: Name) -> Option<(Left, u64)> {
        if !self.objects.is_live(name) || self.objects.total(name) == u64::MAX {
            return None;
        }
        self.objects.begin(name);
        let total = self.objects.total(name);
        Some((self.objects.finish(name), total))
    }

    fn add(&mut self, name: Name, by: u64) -> Option<CounterReply> {
        if !self.objects.is_live(name) {
            return None;
        }
        Some(run_on(&mut self.objects, name, CounterOp::Add(by)))
    }

    fn drop_client(&mut self, place: u32) -> Option<u32> {
        if place >= self.places {
            return None;
        }
        Some(self.objects.drop_client(place))
    }
}

/// Runs an operation on an object of any kind.
fn run_on<S: Entrusted>(objects: &mut Objects<S>, name: Name, op: S::Op) -> S::Reply
    requires { IsSome (object_of objects.old.live name.id) }
    ensures { length objects.new.gifts ≡ length objects.old.gifts }
{
    objects.value_mut(name).run(op)
}

#[test]
fn refuses_a_full_trustee_before_spent_ids(rt: HostRuntime) -> Result<(), Fail> {
    let mut few = Few::new(rt.alloc(), 1, 1, 2)?;
    let name = few.entrust(0, 5).unwrap_or_default();
    assert_eq!(rt; name.id, 1);
    assert_eq!(rt; few.refusal(6), Some((Refusal::ObjectsFull, 6)));
    assert_eq!(rt; few.release(name, 0), Some(Left::Dropped));
    assert_eq!(rt; few.refusal(7), Some((Refusal::SerialsSpent, 7)));
    Ok(())
}

#[test]
fn never_gives_an_id_again(rt: HostRuntime) -> Result<(), Fail> {
    let mut few = Few::new(rt.alloc(), 1, 2, 1)?;
    for want in 1..3u64 {
        let name = few.entrust(0, 5).unwrap_or_default();
        assert_eq!(rt; name.id, want);
        assert_eq!(rt; few.refusal(6), Some((Refusal::ObjectsFull, 6)));
        assert_eq!(rt; few.release(name, 0), Some(Left::Dropped));
        assert!(rt; !few.objects.is_live(name));
    }
    assert_eq!(rt; few.refusal(7), Some((Refusal::SerialsSpent, 7)));
    Ok(())
}

#[test]
fn as_many_objects_live_as_may(rt: HostRuntime) -> Result<(), Fail> {
    let mut few = Few::new(rt.alloc(), 4096, 5000, 2)?;
    let first = few.entrust(0, 1).unwrap_or_default();
    for want in 2..4097u64 {
        let name = few.entrust(1, want).unwrap_or_default();
        assert_eq!(rt; name.id, want);
    }
    assert_eq!(rt; few.refusal(7), Some((Refusal::ObjectsFull, 7)));
    assert_eq!(rt; few.drop_client(1), Some(4095));
    assert_eq!(rt; few.reclaim(first, 0), Some(1));
    let name = few.entrust(0, 6).unwrap_or_default();
    assert_eq!(rt; name.id, 4097);
    Ok(())
}

#[test]
fn gifts_leave_in_order_and_their_holds_stay(rt: HostRuntime) -> Result<(), Fail> {
    let mut few = Few::new(rt.alloc(), 4, 9, 2)?;
    let first = few.entrust(0, 1).unwrap_or_default();
    let second = few.entrust(0, 2).unwrap_or_default();
    assert_eq!(rt; few.grant(second, 1), Some(true));
    assert_eq!(rt; few.grant(first, 1), Some(true));
    assert_eq!(rt; few.reclaim(second, 0), None);
    assert_eq!(rt; few.gift(1), Some(second));
    assert_eq!(rt; few.gift(1), Some(first));
    assert_eq!(rt; few.gift(1), None);
    assert_eq!(rt; few.count(second, 1), Some(1));
    assert_eq!(rt; few.release(second, 0), Some(Left::More));
    assert!(rt; matches!(few.add(second, 5), Some(CounterReply::Is(7))));
    assert_eq!(rt; few.reclaim(second, 1), Some(7));
    assert_eq!(rt; few.release(second, 1), None);
    Ok(())
}

#[test]
fn as_many_gifts_wait_as_may(rt: HostRuntime) -> Result<(), Fail> {
    let mut few = Few::new(rt.alloc(), 4, 9, 2)?;
    let first = few.entrust(0, 1).unwrap_or_default();
    let second = few.entrust(0, 2).unwrap_or_default();
    for _ in 0..1024u32 {
        assert_eq!(rt; few.grant(first, 1), Some(true));
    }
    assert_eq!(rt; few.grant(second, 1), Some(false));
    assert_eq!(rt; few.count(second, 1), Some(0));
    assert_eq!(rt; few.gift(1), Some(first));
    assert_eq!(rt; few.grant(second, 1), Some(true));
    for _ in 0..1023u32 {
        assert_eq!(rt; few.gift(1), Some(first));
    }
    assert_eq!(rt; few.gift(1), Some(second));
    Ok(())
}

#[test]
fn a_place_that_goes_takes_its_gifts(rt: HostRuntime) -> Result<(), Fail> {
    let mut few = Few::new(rt.alloc(), 4, 9, 2)?;
    let kept = few.entrust(0, 3).unwrap_or_default();
    let gone = few.entrust(1, 4).unwrap_or_default();
    for _ in 0..17u32 {
        assert_eq!(rt; few.grant(kept, 1), Some(true));
    }
    assert_eq!(rt; few.drop_client(1), Some(1));
    assert!(rt; !few.objects.is_live(gone));
    assert_eq!(rt; few.gift(1), None);
    assert_eq!(rt; few.count(kept, 1), Some(0));
    assert_eq!(rt; few.reclaim(kept, 0), Some(3));
    Ok(())
}

#[test]
fn a_launch_holds_an_object(rt: HostRuntime) -> Result<(), Fail> {
    let mut few = Few::new(rt.alloc(), 4, 9, 2)?;
    let name = few.entrust(0, 3).unwrap_or_default();
    assert_eq!(rt; few.launch(name), Some((Left::More, 2)));
    assert_eq!(rt; few.count(name, 0), Some(1));
    Ok(())
}

#[test]
fn the_id_alone_names_an_object(rt: HostRuntime) -> Result<(), Fail> {
    let mut few = Few::new(rt.alloc(), 2, 9, 2)?;
    let first = few.entrust(0, 1).unwrap_or_default();
    let second = few.entrust(0, 2).unwrap_or_default();
    assert!(rt; second.place != first.place);
    let elsewhere = Name {
        id: second.id,
        place: first.place,
    };
    assert_eq!(rt; few.count(elsewhere, 0), Some(1));
    assert_eq!(rt; few.placed(elsewhere), Some(second));
    assert_eq!(rt; few.release(first, 0), Some(Left::Dropped));
    let third = few.entrust(1, 3).unwrap_or_default();
    assert_eq!(rt; third.place, first.place);
    assert_eq!(rt; few.count(first, 1), None);
    assert_eq!(rt; few.reclaim(elsewhere, 0), Some(2));
    Ok(())
}
