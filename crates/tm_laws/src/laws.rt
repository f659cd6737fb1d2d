//! What the operations on one object did.
ghost use Rattle.tm_laws.specs.Objects.{ObjectsRun, OnePlaceRuns};

use tm_seq::Entrusted;

/// An object of the opening on which no work is launched has, behind a longer log, the value that the operations on it
/// lead to, each by the kind's `step` or with nothing changed for want of memory, and each with the reply in the log.
pub fn objects_run<S: Entrusted>()
    ensures { ObjectsRun S.kind }
{}

/// Where a log ran no operation but those of one place, the operations on an object are those of that place on it, in
/// their order.
pub fn one_place_runs<S: Entrusted>()
    ensures { OnePlaceRuns S S.Op S.Reply S.Task }
{}
