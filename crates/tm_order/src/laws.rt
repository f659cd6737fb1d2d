//! The order of what launched work asks, between any two turns.
ghost use Rattle.tm_order.specs.Order.{AsksRise, LaunchedRunsRise, RunsAreAsks};

use tm_pair::FitsTable;

/// What launched work on one object has asked of one greater trustee stands in the order of its launches: the tickets, which
/// are given in that order, never fall along it.
pub fn asks_rise<S: FitsTable, C: Drop>()
    ensures { AsksRise C S.kind }
{}

/// What a trustee has run for a lower one is a front of what that one's launched work has asked of it, in order.
pub fn runs_are_asks<S: FitsTable, C: Drop>()
    ensures { RunsAreAsks C S.kind }
{}

/// So of what a trustee has run for a lower one, the operations that launched work on one object of that one asked stand in
/// the order of its launches.
pub fn launched_runs_rise<S: FitsTable, C: Drop>()
    ensures { LaunchedRunsRise C S.kind }
{}
