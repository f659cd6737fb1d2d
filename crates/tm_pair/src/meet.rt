//! What sides of one table tell of each other when they meet.
ghost use Rattle.std.specs.Prelude.{◌≡◌, OnOk};
ghost use Rattle.tm_pair.specs.Meets.{Meets, Follows};

use crate::table::PairTable;
use std::alloc::AllocError;
use tm_seq::Entrusted;

/// A table at which two sides may meet. A call tells what their logs have to do with each other; it
/// is no step of the slots, and changes nothing that a side stands for. It takes constant time and
/// never waits. An error is want of memory.
pub trait Meet<S: Entrusted>: PairTable<S> {
    /// Of what two clients have seen, one begins the other, and what was run in it for the place of
    /// one begins what that one sent.
    fn compare(
        &mut self,
        one: &mut Self::ClientSide,
        other: &mut Self::ClientSide,
    ) -> Result<(), AllocError>
        requires one { Self.PairTable.theory.HasClient self.old one.old }
        requires other { Self.PairTable.theory.HasClient self.old other.old }
        ensures ok { OnOk result (Meets (Self.PairTable.theory.client_view one.old) (Self.PairTable.theory.client_view other.old)) }
        ensures same { self.new ≡ self.old }
        ensures one { Self.PairTable.theory.HasClient self.new one.new }
        ensures other { Self.PairTable.theory.HasClient self.new other.new }
        ensures one_stays { Self.PairTable.theory.client_view one.new ≡ Self.PairTable.theory.client_view one.old }
        ensures other_stays { Self.PairTable.theory.client_view other.new ≡ Self.PairTable.theory.client_view other.old };

    /// What a client has seen begins the trustee's log, and what was run in that for the client's
    /// place begins what the client sent.
    fn follow(
        &mut self,
        home: &mut Self::TrusteeSide,
        side: &mut Self::ClientSide,
    ) -> Result<(), AllocError>
        requires home { Self.PairTable.theory.HasTrustee self.old home.old }
        requires side { Self.PairTable.theory.HasClient self.old side.old }
        ensures ok { OnOk result (Follows (Self.PairTable.theory.trustee_view home.old) (Self.PairTable.theory.client_view side.old)) }
        ensures same { self.new ≡ self.old }
        ensures home { Self.PairTable.theory.HasTrustee self.new home.new }
        ensures side { Self.PairTable.theory.HasClient self.new side.new }
        ensures home_stays { Self.PairTable.theory.trustee_view home.new ≡ Self.PairTable.theory.trustee_view home.old }
        ensures side_stays { Self.PairTable.theory.client_view side.new ≡ Self.PairTable.theory.client_view side.old };
}
