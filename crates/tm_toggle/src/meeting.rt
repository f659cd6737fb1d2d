//! Sides of a table for many threads meet by notes.
ghost use Rattle.std.specs.Prelude.{◌≡◌, OnOk, IsOk};
ghost use Rattle.tm_pair.specs.Meets.{Meets, Follows};
ghost use Rattle.tm_toggle.specs.Plays.{Compares};
ghost use Rattle.tm_toggle.specs.Shared.{client_at, trustee_at, client_past, trustee_past, IsClientOf, IsTrusteeOf};

use crate::fitting::Shareable;
use crate::ruling::{ClientNote, Compare, Follow, TakesNote, TrusteeNote};
use crate::shared::SharedTable;
use crate::sides::{SharedClient, SharedTrustee};
use std::alloc::AllocError;
use tm_pair::Meet;

impl<S: Shareable> Meet<S> for SharedTable<S> {
    /// Two notes, one in each direction, and six loads. It is never refused.
    fn compare(
        &mut self,
        one: &mut SharedClient<S>,
        other: &mut SharedClient<S>,
    ) -> Result<(), AllocError>
        requires one { IsClientOf S.kind self.old one.old }
        requires other { IsClientOf S.kind self.old other.old }
        ensures ok { OnOk result (Meets (client_at one.old) (client_at other.old)) }
        ensures same { self.new ≡ self.old }
        ensures one { IsClientOf S.kind self.new one.new }
        ensures other { IsClientOf S.kind self.new other.new }
        ensures one_stays { client_at one.new ≡ client_at one.old }
        ensures other_stays { client_at other.new ≡ client_at other.old }
        ensures one_calls { client_past one.new ≡ client_past one.old }
        ensures other_calls { client_past other.new ≡ client_past other.old }
        ensures always { IsOk result }
    {
        self.note(one, other);
        self.note(other, one);
        Ok(())
    }

    /// Two notes, one in each direction, and six loads. It is never refused.
    fn follow(
        &mut self,
        home: &mut SharedTrustee<S>,
        side: &mut SharedClient<S>,
    ) -> Result<(), AllocError>
        requires home { IsTrusteeOf S.kind self.old home.old }
        requires side { IsClientOf S.kind self.old side.old }
        ensures ok { OnOk result (Follows (trustee_at home.old) (client_at side.old)) }
        ensures same { self.new ≡ self.old }
        ensures home { IsTrusteeOf S.kind self.new home.new }
        ensures side { IsClientOf S.kind self.new side.new }
        ensures home_stays { trustee_at home.new ≡ trustee_at home.old }
        ensures side_stays { client_at side.new ≡ client_at side.old }
        ensures home_calls { trustee_past home.new ≡ trustee_past home.old }
        ensures side_calls { client_past side.new ≡ client_past side.old }
        ensures always { IsOk result }
    {
        let shared = &self.table.shared;
        let note = shared.split_seat::<ClientNote<S>>(&mut side.seat);
        shared.join_seat::<TakesNote<S>>(&mut home.seat, note);
        shared.load::<Follow<S>>(&mut home.seat, 0);
        let note = shared.split_seat::<TrusteeNote<S>>(&mut home.seat);
        shared.join_seat::<TakesNote<S>>(&mut side.seat, note);
        shared.load::<Compare<S>>(&mut side.seat, 0);
        Ok(())
    }
}

impl<S: Shareable> SharedTable<S> {
    /// One side takes a note of what another has seen.
    fn note(&self, one: &mut SharedClient<S>, other: &mut SharedClient<S>)
        requires one { IsClientOf S.kind self.now one.old }
        requires other { IsClientOf S.kind self.now other.old }
        ensures tells { Compares (client_at one.old).place (client_at one.old).seen (client_at one.old).sent (client_at other.old).seen }
        ensures one { IsClientOf S.kind self.now one.new }
        ensures other { IsClientOf S.kind self.now other.new }
        ensures one_stays { client_at one.new ≡ client_at one.old }
        ensures other_stays { client_at other.new ≡ client_at other.old }
        ensures one_calls { client_past one.new ≡ client_past one.old }
        ensures other_calls { client_past other.new ≡ client_past other.old }
    {
        let shared = &self.table.shared;
        let note = shared.split_seat::<ClientNote<S>>(&mut other.seat);
        shared.join_seat::<TakesNote<S>>(&mut one.seat, note);
        shared.load::<Compare<S>>(&mut one.seat, 0);
    }
}
