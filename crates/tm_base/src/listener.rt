//! What connections come from.
ghost use Rattle.std.specs.Prelude.{◌≡◌, ℕ, Option, IfOk, OnOk, OnErr};
ghost use Rattle.tm_base.specs.Causes.{HasCause};
ghost use Rattle.tm_base.specs.Listening.{IsBoundTo, one_link_more};

use crate::clock::Clock;
use crate::failed::Failed;
use crate::link::Link;
use crate::sink::Sink;
use crate::source::Source;
use std::sync::Wait;

/// What connections come from: it is bound to a port once, and then gives one link after another.
pub trait Listener {
    type I: Source + Send + Drop + 'static;

    type O: Sink + Send + Drop + 'static;

    type W: Clock + Send + Drop + 'static;

    /// The number of faults so far. It never falls.
    ghost faults: { Self → ℕ };

    /// The port that was bound last, where the listener tells it.
    ghost port: { Self → Option ℕ };

    /// The number of links handed out. It stays at `u64::MAX`.
    ghost accepted: { Self → ℕ };

    /// Binds the port that is wanted, where 0 leaves the choice to the listener, and returns the port that is bound.
    fn bind(&mut self, wanted: u16) -> Result<u16, Failed>
        ensures port { IfOk result (λ bound. IsBoundTo (port self.new) bound) }
        ensures stays { OnErr result (port self.new ≡ port self.old) }
        ensures accepted { accepted self.new ≡ accepted self.old }

        // Only the count of faults excuses a failure, and none is passed over.
        ensures cause { HasCause (faults self.old) (faults self.new) result }
        ensures no_fault { OnOk result (faults self.new ≡ faults self.old) };

    /// Waits for the next connection.
    fn accept<R: Wait>(&mut self, rt: &R) -> Result<Link<Self::I, Self::O, Self::W>, Failed>
        ensures port { port self.new ≡ port self.old }
        ensures accepted { OnOk result (accepted self.new ≡ one_link_more (accepted self.old)) }
        ensures stays { OnErr result (accepted self.new ≡ accepted self.old) }
        ensures cause { HasCause (faults self.old) (faults self.new) result }
        ensures no_fault { OnOk result (faults self.new ≡ faults self.old) };
}
