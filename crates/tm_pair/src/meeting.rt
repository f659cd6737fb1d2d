//! Sides of a table in one thread meet at its one core.
ghost use Rattle.std.specs.Prelude.{◌≡◌, OnOk, IsOk};
ghost use Rattle.tm_pair.specs.Meets.{Meets, Follows};
ghost use Rattle.tm_pair.specs.Plain.{client_at, trustee_at, IsClientOf, IsTrusteeOf};

use crate::fits_table::FitsTable;
use crate::meet::Meet;
use crate::plain::{PlainClient, PlainTable, PlainTrustee};
use std::alloc::AllocError;

impl<S: FitsTable> Meet<S> for PlainTable<S> {
    /// Nothing runs: the table's core is good, and shows what both have seen. It is never refused.
    fn compare(
        &mut self,
        one: &mut PlainClient<S>,
        other: &mut PlainClient<S>,
    ) -> Result<(), AllocError>
        requires one { IsClientOf S.kind self.old one.old }
        requires other { IsClientOf S.kind self.old other.old }
        ensures ok { OnOk result (Meets (client_at one.old) (client_at other.old)) }
        ensures same { self.new ≡ self.old }
        ensures one { IsClientOf S.kind self.new one.new }
        ensures other { IsClientOf S.kind self.new other.new }
        ensures one_stays { client_at one.new ≡ client_at one.old }
        ensures other_stays { client_at other.new ≡ client_at other.old }
        ensures always { IsOk result }
        ensures one_is { one.new ≡ one.old }
        ensures other_is { other.new ≡ other.old }
    {
        Ok(())
    }

    /// Nothing runs: the table's core is good, and shows the log and what the client has seen. It is
    /// never refused.
    fn follow(
        &mut self,
        home: &mut PlainTrustee<S>,
        side: &mut PlainClient<S>,
    ) -> Result<(), AllocError>
        requires home { IsTrusteeOf S.kind self.old home.old }
        requires side { IsClientOf S.kind self.old side.old }
        ensures ok { OnOk result (Follows (trustee_at home.old) (client_at side.old)) }
        ensures same { self.new ≡ self.old }
        ensures home { IsTrusteeOf S.kind self.new home.new }
        ensures side { IsClientOf S.kind self.new side.new }
        ensures home_stays { trustee_at home.new ≡ trustee_at home.old }
        ensures side_stays { client_at side.new ≡ client_at side.old }
        ensures always { IsOk result }
        ensures home_is { home.new ≡ home.old }
        ensures side_is { side.new ≡ side.old }
    {
        Ok(())
    }
}
