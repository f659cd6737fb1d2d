//! A listener in memory.
ghost use Rattle.std.specs.Prelude.{◌≡◌, ◌⊎◌, ◌↔◌, ℕ, [], ◌∷◌, Some, None, Contains, IsErr, IfOk, OnOk, OnErr};
ghost use Rattle.tm_base.specs.Causes.{HasCause};
ghost use Rattle.tm_base.specs.Listening.{IsBoundTo, one_link_more};
ghost use Rattle.tm_base.specs.Links.{after_bind, after_link, after_refusal};

use crate::failed::Failed;
use crate::fault_plan::FaultPlan;
use crate::link::Link;
use crate::listener::Listener;
use crate::mem_clock::MemClock;
use crate::mem_source::MemSource;
use crate::post_sink::PostSink;
use std::collections::VecDeque;
use std::marker::Model;
use std::sync::Wait;

/// A link in memory.
pub type MemLink<R> = Link<MemSource, PostSink<R>, MemClock>;

/// A listener that hands out the links that it was given, one after another, and fails at the calls that it was told, and
/// after the last link. It binds whatever port it is asked for.
#[derive(Drop)]
pub struct MemListener<R> {
    port: Option<u16>,
    links: VecDeque<MemLink<R>>,
    accepted: u64,
    plan: FaultPlan,
}

impl<R> Model for MemListener<R> {
    ghost use Rattle.tm_base.specs.Links.{ListenerState};

    ghost Value = { ListenerState };

    ghost view = { λ l. record { port = l.port; coming = l.links.items; accepted = l.accepted; plan = l.plan } };
}

impl<R> MemListener<R> {
    /// A listener that hands out these links. Its calls with a number in `failing`, counted from 0, fail: `bind` is
    /// call 0 where it is the first. It takes no memory.
    pub fn new(links: Vec<MemLink<R>>, failing: Vec<u64>) -> MemListener<R>
        ensures { result ≡ record {
          port = None;
          coming = links.items;
          accepted = 0;
          plan = record { failing = failing.items; calls = 0; faults = 0 };
        } }
    {
        MemListener {
            port: None,
            links: VecDeque::from(links),
            accepted: 0,
            plan: FaultPlan::new(failing),
        }
    }

    /// How many links were handed out. The count stays at `u64::MAX`.
    pub fn accepted(&self) -> u64
        ensures { result ≡ self.now.accepted }
    {
        self.accepted
    }

    /// The faults so far. The count stays at `u64::MAX`.
    pub fn faults(&self) -> u64
        ensures { result ≡ self.now.plan.faults }
    {
        self.plan.faults()
    }
}

impl<Q: Wait + Send + Drop + 'static> Listener for MemListener<Q> {
    type I = MemSource;

    type O = PostSink<Q>;

    type W = MemClock;

    ghost faults = { λ l. l.plan.faults };

    ghost port = { λ l. l.port };

    ghost accepted = { λ l. l.accepted };

    /// It binds the port that is wanted, also where that is 0.
    fn bind(&mut self, wanted: u16) -> Result<u16, Failed>
        ensures port { IfOk result (λ bound. IsBoundTo self.new.port bound) }
        ensures stays { OnErr result (self.new.port ≡ self.old.port) }
        ensures accepted { self.new.accepted ≡ self.old.accepted }
        ensures cause { HasCause self.old.plan.faults self.new.plan.faults result }
        ensures no_fault { OnOk result (self.new.plan.faults ≡ self.old.plan.faults) }

        // What happens exactly.
        ensures fails { IsErr result ↔ Contains self.old.plan.failing self.old.plan.calls }
        ensures given { IfOk result (λ bound. bound ≡ wanted) }
        ensures state { OnOk result (self.new ≡ after_bind wanted self.old) }
        ensures failed { OnErr result (self.new ≡ after_refusal self.old) }
    {
        if self.plan.fails_next() {
            return Err(Failed);
        }
        self.port = Some(wanted);
        Ok(wanted)
    }

    /// It does not wait.
    fn accept<R: Wait>(&mut self, _rt: &R) -> Result<MemLink<Q>, Failed>
        ensures port { self.new.port ≡ self.old.port }
        ensures accepted { OnOk result (self.new.accepted ≡ one_link_more self.old.accepted) }
        ensures stays { OnErr result (self.new.accepted ≡ self.old.accepted) }
        ensures cause { HasCause self.old.plan.faults self.new.plan.faults result }
        ensures no_fault { OnOk result (self.new.plan.faults ≡ self.old.plan.faults) }

        // What happens exactly.
        ensures fails { IsErr result ↔ (Contains self.old.plan.failing self.old.plan.calls ⊎ (self.old.coming ≡ [])) }
        ensures given { IfOk result (λ link. self.old.coming ≡ link ∷ self.new.coming) }
        ensures state { OnOk result (self.new ≡ after_link self.old) }
        ensures failed { OnErr result (self.new ≡ after_refusal self.old) }
    {
        if self.plan.fails_next() {
            return Err(Failed);
        }
        match self.links.pop_front() {
            Some(link) => {
                self.accepted = self.accepted.saturating_add(1);
                Ok(link)
            }
            None => {
                self.plan.count_fault();
                Err(Failed)
            }
        }
    }
}
