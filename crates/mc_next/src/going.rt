//! What a session does in a step.
ghost use Rattle.std.specs.Prelude.{◌≡◌, ◌≢◌, ◌≤◌, ◌⊎◌, ◌||◌, ℕ, [], List, Option, Some, None, length, true, false};
ghost use Rattle.tm_base.specs.Causes.{HasCause};
ghost use Rattle.tm_asking.specs.Asking.{NoneCounts, sides_of};
ghost use Rattle.tm_client.specs.Clients.{IsClient};
ghost use Rattle.tm_asking.specs.declared.turning.Turned.{Turned};
ghost use Rattle.tm_asking.specs.declared.turning.Turned.TheVariants as looked;
ghost use Rattle.tm_asking.specs.Turning.{IsAtTables, TurnsBelow};
ghost use Rattle.mc_next.specs.Parts.{StoreView, store_kind};
ghost use Rattle.mc_model.specs.declared.message.Message.{Message};
ghost use Rattle.mc_intake.specs.Intake.{unfed, IsIntake};
ghost use Rattle.mc_next.specs.Clients.{AreStoreTrusts};
ghost use Rattle.mc_next.specs.declared.ended.Ended.{Ended};
ghost use Rattle.mc_next.specs.declared.work.Work.{Work};
ghost use Rattle.mc_next.specs.Works.{KeepsClient, StoreState};
ghost use Rattle.mc_next.specs.Runs.{Setting, SessionView};
ghost use Rattle.mc_next.specs.Sessions.{IsOn, IsGoing, IsGoingOn, IsNotOver, IsNotDone, HasGivenUp, seen, IsOf};
ghost use Rattle.mc_next.specs.Deeds.{told_by, HasWritten, HasReadOnce, HasGoneIdle, RestsAtWork};
ghost use Rattle.mc_next.specs.Steps.{shown_by, before_of, IsWaiting, AllPending, NextIsFull, MayDoNothing, HasTakenSome, HasWorkedOn, HasAdvanced, KeepsMarks, MayRead, AsksNothing, AsksOrTurns, IsDraining, IsCaused};

use crate::ended::Ended;
use crate::session::{FULL, Session};
use crate::work::Work;
use crate::writing::write_out;
use mc_intake::Came;
use mc_route::Store;
use tm_asking::{Turned, turn_where_counting};
use tm_base::{Clock, Sink, Source};
use tm_client::{Client, Trust};
use tm_pair::PairTable;

/// Whether one of two things holds.
// A function of its own, so that its callers have no branch.
fn is_either(one: bool, other: bool) -> bool
    ensures { result ≡ (one || other) }
{
    one || other
}

impl Session {
    // Writes what was gathered.
    fn write<B: Sink>(&mut self, sink: &mut B)
        ensures { HasWritten (B.written sink.old) (B.written sink.new) (B.faults sink.old) (B.faults sink.new) self.old self.new }
    {
        match write_out(&mut self.gathered, sink) {
            Ok(()) => {}
            Err(_) => self.stopped = Some(Ended::WriteFault),
        }
    }

    // Notes what a read said of the end and of the limit.
    fn note(&mut self, came: Came)
        ensures { self.new ≡ told_by came self.old.intake self.old }
    {
        match came {
            Came::Some => {}
            Came::TooMuch => self.too_much = true,
            Came::End => self.at_end = true,
        }
    }

    // Reads once more.
    fn read<A: Source>(&mut self, source: &mut A)
        requires intake { (limit : ℕ) × (text : List ℕ) × (messages : List Message) × IsIntake limit text messages self.old.intake }
        requires fed { unfed self.old.intake ≡ [] }
        ensures { HasReadOnce (A.left source.old) (A.left source.new) (A.faults source.old) (A.faults source.new) self.old self.new }
    {
        match self.intake.read(source) {
            Ok(came) => self.note(came),
            Err(_) => self.stopped = Some(Ended::ReadFault),
        }
    }

    // Writes what was gathered, or, where nothing was, reads once more, unless more came than is answered.
    fn write_or_read<A: Source, B: Sink>(&mut self, source: &mut A, sink: &mut B)
        requires intake { (limit : ℕ) × (text : List ℕ) × (messages : List Message) × IsIntake limit text messages self.old.intake }
        requires fed { self.old.gathered ≡ [] → unfed self.old.intake ≡ [] }
        ensures wrote { self.old.gathered ≢ []
            → (source.new ≡ source.old) × HasWritten (B.written sink.old) (B.written sink.new) (B.faults sink.old) (B.faults sink.new) self.old self.new }
        ensures read { self.old.gathered ≡ [] → self.old.too_much ≡ false
            → (sink.new ≡ sink.old) × HasReadOnce (A.left source.old) (A.left source.new) (A.faults source.old) (A.faults source.new) self.old self.new }
        ensures rests { self.old.gathered ≡ [] → self.old.too_much ≡ true → (sink.new ≡ sink.old) × (source.new ≡ source.old) × (self.new ≡ self.old) }
    {
        if !self.gathered.is_empty() {
            self.write(sink);
        } else if !self.too_much {
            self.read(source);
        }
    }

    // Goes on where no command is at work: takes a message, writes or reads.
    fn take_or_read<A: Source, B: Sink, W: Clock, P: PairTable<Store>>(
        &mut self,
        client: &Client<Store, u64, P>,
        trustees: u32,
        source: &mut A,
        sink: &mut B,
        clock: &mut W,
    )
        requires on { (s : Setting) × (marks : List (ℕ → StoreView)) × (first : SessionView) × IsOn P.theory.client_view s marks self.old first
            (seen P.theory.client_view client.now.books (A.left source.old) (W.readings clock.old) (B.written sink.old)) client.now.books }
        requires client { (openings : ℕ → StoreState) × IsClient P.theory.client_view openings client.now.books }
        requires many { trustees ≡ length client.now.books.lanes.items }
        requires idle { self.old.work ≡ None }
        requires running { self.old.stopped ≡ None }
        requires not_over { IsNotOver self.old }
        ensures did { HasGoneIdle (A.left source.old) (A.left source.new) (A.faults source.old) (A.faults source.new)
            (B.written sink.old) (B.written sink.new) (B.faults sink.old) (B.faults sink.new) source.old source.new sink.old sink.new clock.old clock.new self.old self.new }
        ensures goes { (s : Setting) (marks : List (ℕ → StoreView)) (first : SessionView) → s.trustees ≡ trustees
            → IsOn P.theory.client_view s marks self.old first (seen P.theory.client_view client.now.books (A.left source.old) (W.readings clock.old) (B.written sink.old)) client.now.books
            → IsGoingOn P.theory.client_view s marks self.new first (seen P.theory.client_view client.now.books (A.left source.new) (W.readings clock.new) (B.written sink.new)) client.now.books }
    {
        if self.gathered.len() >= FULL {
            self.write(sink);
            return;
        }
        if self.take_unless_quit(client, trustees, clock) {
            return;
        }
        self.write_or_read(source, sink);
    }

    // Keeps the command at work.
    fn keep(&mut self, work: Work)
        ensures { self.new ≡ record self.old { work = Some work } }
    {
        self.work = Some(work);
    }

    // Asks for the command at work, takes its replies in, and shows them once all are there. Whether something was done.
    fn ask_and_take<P: PairTable<Store>>(
        &mut self,
        mut work: Work,
        client: &mut Client<Store, u64, P>,
        trustees: usize,
        trusts: &[Trust],
    ) -> bool
        requires running { self.old.stopped ≡ None }
        requires idle { self.old.work ≡ None }
        requires many { trustees ≡ length client.old.books.lanes.items }
        requires trusts { AreStoreTrusts trustees client.old.books trusts.now }
        requires client { (openings : ℕ → StoreState) × IsClient P.theory.client_view openings client.old.books }
        requires on { (s : Setting) × (marks : List (ℕ → StoreView)) × (first : SessionView) × (now : SessionView) × IsOf s trusts.now trustees × IsOn P.theory.client_view s marks (record self.old { work = Some work }) first now client.old.books }
        ensures goes { (s : Setting) (marks : List (ℕ → StoreView)) (first : SessionView) (left readings written : Option (List ℕ)) → IsOf s trusts.now trustees
            → IsOn P.theory.client_view s marks (record self.old { work = Some work }) first (seen P.theory.client_view client.old.books left readings written) client.old.books
            → IsGoingOn P.theory.client_view s marks self.new first (seen P.theory.client_view client.new.books left readings written) client.new.books }
        ensures moved { (result ≡ true) → HasWorkedOn (record self.old { work = Some work }) self.new client.old.books client.new.books }
        ensures rests { (result ≡ false) → (client.new ≡ client.old) × RestsAtWork work self.old self.new client.new.books }
        ensures cause { (reads writes : ℕ) → IsCaused self.new.stopped reads reads writes writes }
        ensures over { self.new.over ≡ self.old.over }
        ensures keeps { KeepsClient client.old.books client.new.books }
        ensures client { (openings : ℕ → StoreState) → IsClient P.theory.client_view openings client.old.books → IsClient P.theory.client_view openings client.new.books }
    {
        let asked = work.ask_on(client, trusts);
        let took = work.take_all(client);
        if work.is_replied(client, trustees) {
            self.finish(work, client);
            return true;
        }
        self.keep(work);
        is_either(asked, took)
    }

    // Makes the client's turns, and where they move nothing, writes what was gathered. Whether something was done.
    fn turn_or_write<B: Sink, P: PairTable<Store>>(
        &mut self,
        client: &mut Client<Store, u64, P>,
        tables: &mut [P],
        sink: &mut B,
    ) -> bool
        requires running { self.old.stopped ≡ None }
        requires busy { (w : Work) × (self.old.work ≡ Some w) }
        requires full { NextIsFull self.old.work client.old.books }
        requires counts { ¬ (NoneCounts client.old.books) }
        requires none { client.old.books.arrived.items ≡ [] }
        requires home { (openings : ℕ → StoreState) × IsAtTables P.theory openings tables.old client.old.books }
        ensures moved { (result ≡ true) → HasAdvanced P.theory self.old self.new tables.old client.old.books tables.new client.new.books }
        ensures waits { (result ≡ false) → (sink.new ≡ sink.old) × (self.new ≡ self.old) × AllPending P.theory.client_view client.old.books client.new.books
            × MayDoNothing self.new client.new.books × (¬ (NoneCounts client.new.books)) }
        ensures writes { (sink.new ≡ sink.old) ⊎ (self.old.gathered ≢ []) }
        ensures cause { (reads : ℕ) → IsCaused self.new.stopped reads reads (B.faults sink.old) (B.faults sink.new) }
        ensures over { self.new.over ≡ self.old.over }
        ensures looks { (result ≡ false) → TurnsBelow P.theory store_kind (length tables.old) looked.Pending tables.old client.old.books tables.new client.new.books }
        ensures turns { (told : Turned) × TurnsBelow P.theory store_kind (length tables.old) told tables.old client.old.books tables.new client.new.books }
        ensures keeps { KeepsMarks client.old.books client.new.books }
        ensures goes { (s : Setting) (marks : List (ℕ → StoreView)) (first : SessionView) (left readings : Option (List ℕ))
            → IsOn P.theory.client_view s marks self.old first (seen P.theory.client_view client.old.books left readings (B.written sink.old)) client.old.books
            → IsGoing P.theory.client_view s marks self.new.stopped self.new first (seen P.theory.client_view client.new.books left readings (B.written sink.new)) client.new.books }
        ensures home { (openings : ℕ → StoreState) → IsAtTables P.theory openings tables.old client.old.books → IsAtTables P.theory openings tables.new client.new.books }
    {
        if let Turned::Moved = turn_where_counting(client, tables) {
            return true;
        }
        if self.gathered.is_empty() {
            return false;
        }
        self.write(sink);
        true
    }

    // After a fault or for want of memory: takes in what came, and drops it. Whether there was something.
    fn drop_replies<P: PairTable<Store>>(&mut self, client: &mut Client<Store, u64, P>) -> bool
        requires client { (openings : ℕ → StoreState) × IsClient P.theory.client_view openings client.old.books }
        requires given { (s : Setting) × (marks : List (ℕ → StoreView)) × (first : SessionView) × (now : SessionView) × HasGivenUp P.theory.client_view s marks self.old first now client.old.books }
        ensures given { (s : Setting) (marks : List (ℕ → StoreView)) (first : SessionView) (now : SessionView) → HasGivenUp P.theory.client_view s marks self.old first now client.old.books
            → HasGivenUp P.theory.client_view s marks self.new first now client.new.books }
        ensures took { (result ≡ true) → HasTakenSome client.old.books client.new.books }
        ensures rests { (result ≡ false) → (client.new ≡ client.old) × (self.new ≡ self.old) × (client.old.books.arrived.items ≡ []) }
        ensures session { self.new ≡ record self.old { work = self.new.work } }
        ensures before { before_of self.new ≡ before_of self.old }
        ensures keeps { KeepsClient client.old.books client.new.books }
        ensures client { (openings : ℕ → StoreState) → IsClient P.theory.client_view openings client.old.books → IsClient P.theory.client_view openings client.new.books }
    {
        match &mut self.work {
            Some(work) => work.take_all(client),
            None => false,
        }
    }

    // After a fault or for want of memory: takes in what comes, and drops it. Whether something was done.
    fn drain<P: PairTable<Store>>(
        &mut self,
        client: &mut Client<Store, u64, P>,
        tables: &mut [P],
    ) -> bool
        requires home { (openings : ℕ → StoreState) × IsAtTables P.theory openings tables.old client.old.books }
        requires counts { ¬ (NoneCounts client.old.books) }
        requires given { (s : Setting) × (marks : List (ℕ → StoreView)) × (first : SessionView) × (now : SessionView) × HasGivenUp P.theory.client_view s marks self.old first now client.old.books }
        ensures moved { (result ≡ true) → HasAdvanced P.theory self.old self.new tables.old client.old.books tables.new client.new.books }
        ensures waits { (result ≡ false) → (self.new ≡ self.old) × AllPending P.theory.client_view client.old.books client.new.books × (¬ (NoneCounts client.new.books)) }
        ensures session { self.new ≡ record self.old { work = self.new.work } }
        ensures lanes { AsksNothing P.theory.client_view client.old.books client.new.books }
        ensures looks { (result ≡ false) → TurnsBelow P.theory store_kind (length tables.old) looked.Pending tables.old client.old.books tables.new client.new.books }
        ensures turns { AsksOrTurns P.theory tables.old client.old.books tables.new client.new.books }
        ensures keeps { KeepsMarks client.old.books client.new.books }
        ensures given { (s : Setting) (marks : List (ℕ → StoreView)) (first : SessionView) (now : SessionView) → HasGivenUp P.theory.client_view s marks self.old first now client.old.books
            → HasGivenUp P.theory.client_view s marks self.new first now client.new.books }
        ensures home { (openings : ℕ → StoreState) → IsAtTables P.theory openings tables.old client.old.books → IsAtTables P.theory openings tables.new client.new.books }
    {
        if self.drop_replies(client) {
            return true;
        }
        matches!(turn_where_counting(client, tables), Turned::Moved)
    }

    // Goes on with the command at work. Whether something was done.
    fn work_on<B: Sink, P: PairTable<Store>>(
        &mut self,
        work: Work,
        client: &mut Client<Store, u64, P>,
        tables: &mut [P],
        trusts: &[Trust],
        sink: &mut B,
    ) -> bool
        requires running { self.old.stopped ≡ None }
        requires idle { self.old.work ≡ None }
        requires trusts { AreStoreTrusts (length tables.old) client.old.books trusts.now }
        requires home { (openings : ℕ → StoreState) × IsAtTables P.theory openings tables.old client.old.books }
        requires on { (s : Setting) × (marks : List (ℕ → StoreView)) × (first : SessionView) × (now : SessionView) × IsOf s trusts.now (length tables.old) × IsOn P.theory.client_view s marks (record self.old { work = Some work }) first now client.old.books }
        ensures moved { (result ≡ true) → HasAdvanced P.theory (record self.old { work = Some work }) self.new tables.old client.old.books tables.new client.new.books }
        ensures waits { (result ≡ false) → (sink.new ≡ sink.old) × (shown_by self.new ≡ shown_by (record self.old { work = Some work }))
            × AllPending P.theory.client_view client.old.books client.new.books × MayDoNothing self.new client.new.books × (¬ (NoneCounts client.new.books)) }
        ensures writes { (sink.new ≡ sink.old) ⊎ (self.old.gathered ≢ []) }
        ensures cause { (reads : ℕ) → IsCaused self.new.stopped reads reads (B.faults sink.old) (B.faults sink.new) }
        ensures over { self.new.over ≡ self.old.over }
        ensures looks { (result ≡ false) → TurnsBelow P.theory store_kind (length tables.old) looked.Pending tables.old client.old.books tables.new client.new.books }
        ensures turns { AsksOrTurns P.theory tables.old client.old.books tables.new client.new.books }
        ensures keeps { KeepsMarks client.old.books client.new.books }
        ensures goes { (s : Setting) (marks : List (ℕ → StoreView)) (first : SessionView) (left readings : Option (List ℕ)) → IsOf s trusts.now (length tables.old)
            → IsOn P.theory.client_view s marks (record self.old { work = Some work }) first (seen P.theory.client_view client.old.books left readings (B.written sink.old)) client.old.books
            → IsGoingOn P.theory.client_view s marks self.new first (seen P.theory.client_view client.new.books left readings (B.written sink.new)) client.new.books }
        ensures home { (openings : ℕ → StoreState) → IsAtTables P.theory openings tables.old client.old.books → IsAtTables P.theory openings tables.new client.new.books }
    {
        if self.ask_and_take(work, client, tables.len(), trusts) {
            return true;
        }
        self.turn_or_write(client, tables, sink)
    }

    // Goes on, where the session is not over. Whether something was done.
    pub(crate) fn go<A: Source, B: Sink, W: Clock, P: PairTable<Store>>(
        &mut self,
        client: &mut Client<Store, u64, P>,
        tables: &mut [P],
        trusts: &[Trust],
        source: &mut A,
        sink: &mut B,
        clock: &mut W,
    ) -> bool
        requires trusts { AreStoreTrusts (length tables.old) client.old.books trusts.now }
        requires home { (openings : ℕ → StoreState) × IsAtTables P.theory openings tables.old client.old.books }
        requires going { (s : Setting) × (marks : List (ℕ → StoreView)) × (first : SessionView) × IsOf s trusts.now (length tables.old) × IsGoing P.theory.client_view s marks self.old.stopped self.old first
            (seen P.theory.client_view client.old.books (A.left source.old) (W.readings clock.old) (B.written sink.old)) client.old.books }
        requires not_done { IsNotDone self.old.stopped self.old client.old.books }
        ensures goes { (s : Setting) (marks : List (ℕ → StoreView)) (first : SessionView) → IsOf s trusts.now (length tables.old)
            → IsGoing P.theory.client_view s marks self.old.stopped self.old first (seen P.theory.client_view client.old.books (A.left source.old) (W.readings clock.old) (B.written sink.old)) client.old.books
            → IsGoingOn P.theory.client_view s marks self.new first (seen P.theory.client_view client.new.books (A.left source.new) (W.readings clock.new) (B.written sink.new)) client.new.books }
        ensures moved { (result ≡ true) → HasAdvanced P.theory self.old self.new tables.old client.old.books tables.new client.new.books }
        ensures waits { (result ≡ false) → IsWaiting P.theory.client_view self.old self.new client.old.books client.new.books source.old source.new sink.old sink.new clock.old clock.new }
        ensures reads { (source.new ≡ source.old) ⊎ MayRead self.old }
        ensures writes { (sink.new ≡ sink.old) ⊎ (self.old.gathered ≢ []) }
        ensures cause { self.old.stopped ≡ None → IsCaused self.new.stopped (A.faults source.old) (A.faults source.new) (B.faults sink.old) (B.faults sink.new) }
        ensures drains { (why : Ended) → self.old.stopped ≡ Some why
            → IsDraining P.theory.client_view self.old self.new client.old.books client.new.books source.old source.new sink.old sink.new clock.old clock.new }
        ensures over { self.new.over ≡ self.old.over }
        ensures looks { (result ≡ false) → TurnsBelow P.theory store_kind (length tables.old) looked.Pending tables.old client.old.books tables.new client.new.books }
        ensures turns { AsksOrTurns P.theory tables.old client.old.books tables.new client.new.books }
        ensures keeps { KeepsMarks client.old.books client.new.books }
        ensures home { (openings : ℕ → StoreState) → IsAtTables P.theory openings tables.old client.old.books → IsAtTables P.theory openings tables.new client.new.books }
    {
        if self.stopped.is_some() {
            return self.drain(client, tables);
        }
        let Some(work) = self.work.take() else {
            self.take_or_read(client, tables.len() as u32, source, sink, clock);
            return true;
        };
        self.work_on(work, client, tables, trusts, sink)
    }
}
