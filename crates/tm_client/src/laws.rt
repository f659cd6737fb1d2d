//! Laws of a client's side, for every kind of object.
//!
//! Nothing here runs: each function states a law.
ghost use Rattle.tm_client.specs.Tickets.{TicketsTell, CollectsEnd};
ghost use Rattle.tm_client.specs.SideLaws.{WaitsMayGo, RestIsHeld, ByesMayGo, CollectsBring, AnswersAreOfEntries, HeldIsLive};

use tm_seq::Entrusted;

/// The first of the requests that wait are orderly to send, where no more launches lack their completion with them than
/// the window.
pub fn waits_may_go<S: Entrusted>()
    ensures { WaitsMayGo S.kind }
{}

/// Where they were sent, each id that the rest names is still held behind them.
pub fn rest_is_held<S: Entrusted>()
    ensures { RestIsHeld S.kind }
{}

/// A Bye alone is orderly to send where none was sent and no launch lacks its completion.
pub fn byes_may_go<S: Entrusted>()
    ensures { ByesMayGo S.kind }
{}

/// The answers that a side collects are those to its batch that was out, position by position, and what
/// came to it grows by what they and the gifts bring.
pub fn collects_bring<S: Entrusted>()
    ensures { CollectsBring S.kind }
{}

/// Each answer that a side got is that of the entry of its own request in the log that it has seen.
pub fn answers_are_of_entries<S: Entrusted>()
    ensures { AnswersAreOfEntries S.kind }
{}

/// Until its Bye each id that a side holds by what it sent and got is live and held by it in the state
/// that the log leaves which it has seen.
pub fn held_is_live<S: Entrusted>()
    ensures { HeldIsLive S.kind }
{}

/// What came to a side tells which of its launches wait: a ticket comes once, its completion comes
/// once and after it, and each launch that was sent is out, waits for its completion, or ended.
pub fn tickets_tell<S: Entrusted>()
    ensures { TicketsTell S.kind }
{}

/// What a side collects ends launches that waited or whose tickets come with it, each once.
pub fn collects_end<S: Entrusted>()
    ensures { CollectsEnd S.kind }
{}
