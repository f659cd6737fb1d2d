//! A session: one connection, answered step by step.
ghost use Rattle.std.specs.Prelude.{◌≡◌, ◌≢◌, ◌↔◌, ◌⊎◌, ◌++◌, ℕ, List, [], length, true, false, IfOk, None, Some};
ghost use Rattle.tm_asking.specs.Asking.{NoneCounts};
ghost use Rattle.tm_asking.specs.declared.turning.Turned.TheVariants as looked;
ghost use Rattle.tm_asking.specs.Turning.{IsAtTables, TurnsBelow};
ghost use Rattle.mc_next.specs.Parts.{StoreView, store_kind};
ghost use Rattle.mc_next.specs.declared.ended.Ended.{Ended};
ghost use Rattle.mc_next.specs.Clients.{AreStoreTrusts};
ghost use Rattle.mc_next.specs.Works.{StoreState};
ghost use Rattle.mc_next.specs.Runs.{Setting, SessionView};
ghost use Rattle.mc_next.specs.Sessions.{IsFresh, IsOf, IsSession, HasMarked, IsOverSo, IsNotDone, seen};
ghost use Rattle.mc_next.specs.Steps.{IsWaiting, HasAdvanced, AsksOrTurns, KeepsMarks, MayRead, IsDraining, IsCaused};

use crate::ended::{Ended, Stepped};
use crate::work::Work;
use mc_intake::Intake;
use mc_item::Bytes;
use mc_route::Store;
use std::alloc::{AllocError, Global};
use tm_base::{Clock, Sink, Source};
use tm_client::{Client, Trust};
use tm_pair::PairTable;

/// Where at least so many bytes are gathered, they are written before the next message is taken.
pub const FULL: usize = 65_536;

/// One connection: what was read of its input, the command at work, and what is still to be written.
#[derive(Drop)]
pub struct Session {
    pub(crate) alloc: Global,
    pub(crate) limit: u64,
    pub(crate) intake: Intake,
    // The greatest reading of the clock so far.
    pub(crate) moment: u64,
    pub(crate) work: Option<Work>,
    pub(crate) gathered: Bytes,
    // Whether a `quit` was taken, whether a read gave the end, and whether one brought bytes above the limit.
    pub(crate) quit: bool,
    pub(crate) at_end: bool,
    pub(crate) too_much: bool,
    pub(crate) stopped: Option<Ended>,
    pub(crate) over: Option<Ended>,
}

// What a step says, by how the session is over, if it is, and whether something was done.
fn told(over: Option<Ended>, moved: bool) -> Stepped
    ensures over { (ended : Ended) → (result ≡ Stepped.Over ended) ↔ (over ≡ Some ended) }
    ensures moved { result ≡ Stepped.Moved → (over ≡ None) × (moved ≡ true) }
    ensures waits { result ≡ Stepped.Waiting → (over ≡ None) × (moved ≡ false) }
{
    match over {
        Some(ended) => Stepped::Over(ended),
        None => {
            if moved {
                Stepped::Moved
            } else {
                Stepped::Waiting
            }
        }
    }
}

impl Session {
    /// Before its first step. Of its input the first `limit` bytes are answered. It keeps a buffer of 65,536 bytes. An
    /// `Err` is want of memory.
    pub fn new(alloc: Global, limit: u64) -> Result<Session, AllocError>
        ensures { IfOk result (λ s. IsFresh limit s) }
    {
        let intake = Intake::new(alloc, limit)?;
        Ok(Session {
            alloc,
            limit,
            intake,
            moment: 0,
            work: None,
            gathered: Bytes::new(alloc),
            quit: false,
            at_end: false,
            too_much: false,
            stopped: None,
            over: None,
        })
    }

    /// Goes on by one step: takes a message, asks, makes the client's turns, takes replies in, writes, or reads once.
    ///
    /// `tables` are the tables of all trustees, in order, and `trusts` those of the 64 classes and the desk, in the order of
    /// [`store_first`](mc_route::store_first). Client, tables, trusts, source, sink and clock are those of the first step, at which
    /// no request counted and no trustee was closed. Between two steps nothing else asks of the client or takes its answers,
    /// or uses the source, the sink or the clock. A step never waits. After [`Stepped::Over`] each further step does nothing
    /// and answers the same.
    pub fn step<A: Source, B: Sink, W: Clock, P: PairTable<Store>>(
        &mut self,
        client: &mut Client<Store, u64, P>,
        tables: &mut [P],
        trusts: &[Trust],
        source: &mut A,
        sink: &mut B,
        clock: &mut W,
    ) -> Stepped
        requires trusts { AreStoreTrusts (length tables.old) client.old.books trusts.now }
        requires home { (openings : ℕ → StoreState) × IsAtTables P.theory openings tables.old client.old.books }
        requires session { (s : Setting) × (marks : List (ℕ → StoreView)) × (first : SessionView) × IsOf s trusts.now (length tables.old) × IsSession P.theory.client_view s marks self.old first
            (seen P.theory.client_view client.old.books (A.left source.old) (W.readings clock.old) (B.written sink.old)) client.old.books }
        // A command that was answered in this step stands at the end of the marks, with the client's sides as they stand now.
        ensures session { (s : Setting) (marks : List (ℕ → StoreView)) (first : SessionView) → IsOf s trusts.now (length tables.old)
            → IsSession P.theory.client_view s marks self.old first (seen P.theory.client_view client.old.books (A.left source.old) (W.readings clock.old) (B.written sink.old)) client.old.books
            → (more : List (ℕ → StoreView)) × HasMarked P.theory.client_view client.new.books more
            × IsSession P.theory.client_view s (marks ++ more) self.new first (seen P.theory.client_view client.new.books (A.left source.new) (W.readings clock.new) (B.written sink.new)) client.new.books }
        // It is over in the step that makes it so, and how it ended says why.
        ensures is_over { (ended : Ended) → (result ≡ Stepped.Over ended) ↔ (self.new.over ≡ Some ended) }
        // Once over, it does nothing more.
        ensures stays { (ended : Ended) → self.old.over ≡ Some ended → (self.new ≡ self.old) × (client.new ≡ client.old) × (tables.new ≡ tables.old)
            × (source.new ≡ source.old) × (sink.new ≡ sink.old) × (clock.new ≡ clock.old) }
        ensures ends { (ended : Ended) → self.old.over ≡ None → self.new.over ≡ Some ended → IsOverSo ended self.new client.new.books }
        ensures not_done { self.new.over ≡ None → IsNotDone self.new.stopped self.new client.new.books }
        ensures none { (ended : Ended) → result ≡ Stepped.Over ended → NoneCounts client.new.books }
        ensures moved { result ≡ Stepped.Moved → HasAdvanced P.theory self.old self.new tables.old client.old.books tables.new client.new.books }
        ensures waits { result ≡ Stepped.Waiting → IsWaiting P.theory.client_view self.old self.new client.old.books client.new.books source.old source.new sink.old sink.new clock.old clock.new }
        // It reads only where all whole messages are answered and written, and writes no empty piece.
        ensures reads { (source.new ≡ source.old) ⊎ MayRead self.old }
        ensures writes { (sink.new ≡ sink.old) ⊎ (self.old.gathered ≢ []) }
        // A fault stops it only where the device's count rose in this step.
        ensures cause { self.old.stopped ≡ None → IsCaused self.new.stopped (A.faults source.old) (A.faults source.new) (B.faults sink.old) (B.faults sink.new) }
        ensures drains { (why : Ended) → self.old.stopped ≡ Some why
            → IsDraining P.theory.client_view self.old self.new client.old.books client.new.books source.old source.new sink.old sink.new clock.old clock.new }
        // A step that did nothing looked for answers at each trustee where a request counts.
        ensures looks { result ≡ Stepped.Waiting → TurnsBelow P.theory store_kind (length tables.old) looked.Pending tables.old client.old.books tables.new client.new.books }
        // Client and tables tell a step as the client's own calls or as its turns.
        ensures turns { AsksOrTurns P.theory tables.old client.old.books tables.new client.new.books }
        ensures keeps { KeepsMarks client.old.books client.new.books }
        ensures trusts { AreStoreTrusts (length tables.new) client.new.books trusts.now }
        // What stopped it first stays, want of memory too.
        ensures stops { (why : Ended) → self.old.stopped ≡ Some why → self.new.stopped ≡ Some why }
        ensures home { (openings : ℕ → StoreState) → IsAtTables P.theory openings tables.old client.old.books → IsAtTables P.theory openings tables.new client.new.books }
    {
        if let Some(ended) = self.over {
            return Stepped::Over(ended);
        }
        let moved = self.go(client, tables, trusts, source, sink, clock);
        self.over = self.end(client, tables.len());
        told(self.over, moved)
    }
}
