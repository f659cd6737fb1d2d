//! A message is taken.
ghost use Rattle.std.specs.Prelude.{◌≡◌, ◌≢◌, ◌↔◌, ℕ, ◌∷◌, [], List, Option, Some, None, length, true, false, IsTrue};
ghost use Rattle.tm_base.specs.Visible.{Grows};
ghost use Rattle.tm_client.specs.Clients.{IsClient};
ghost use Rattle.tm_asking.specs.Asking.{NoneCounts, sides_of};
ghost use Rattle.mc_model.specs.Moments.{latest};
ghost use Rattle.mc_model.specs.Quits.{is_quit_command};
ghost use Rattle.mc_model.specs.declared.message.Message.{Message};
ghost use Rattle.mc_intake.specs.Intake.{unfed, IsIntake};
ghost use Rattle.mc_next.specs.Parts.{StoreView};
ghost use Rattle.mc_next.specs.Works.{left_of, StoreState};
ghost use Rattle.mc_next.specs.Runs.{Setting, SessionView};
ghost use Rattle.mc_next.specs.Sessions.{IsOn, IsGoingOn, seen};
ghost use Rattle.mc_next.specs.Deeds.{HasGathered, HasFinished, HasBegun, HasMet, HasTakenOne, FeedsOnly, HasNoMore, ticked, with_command};

use crate::ended::Ended;
use crate::session::Session;
use crate::work::Work;
use mc_grammar::Next;
use mc_item::LATEST_TIME;
use mc_model::{Command, Shown};
use mc_reply::{fault_shows, render};
use mc_route::Store;
use tm_base::Clock;
use tm_client::Client;
use tm_pair::PairTable;

// Whether a command ends the stream.
fn is_quit(command: &Command) -> bool
    ensures { result ≡ is_quit_command command.now }
{
    matches!(command, Command::Quit)
}

impl Session {
    // Reads the clock, and moves on to the moment that it tells.
    fn tick<W: Clock>(&mut self, clock: &mut W)
        ensures { (reading : ℕ) × Grows (W.readings clock.old) (W.readings clock.new) (reading ∷ []) × (self.new ≡ ticked reading self.old) }
    {
        let reading = clock.now();
        self.moment = self.moment.max(reading.min(LATEST_TIME));
    }

    // Puts the bytes of what is shown behind those that are still to be written.
    fn gather(&mut self, shown: &Shown)
        ensures { HasGathered shown.now self.old self.new }
    {
        match render(shown, &mut self.gathered) {
            Ok(()) => {}
            Err(_) => self.stopped = Some(Ended::NoMemory),
        }
    }

    // Shows what the command at work shows, whose replies are all there.
    pub(crate) fn finish<P: PairTable<Store>>(&mut self, work: Work, client: &Client<Store, u64, P>)
        requires all { work.asking.asked ≡ length work.asking.replies.items }
        requires none { NoneCounts client.now.books }
        requires client { (openings : ℕ → StoreState) × IsClient P.theory.client_view openings client.now.books }
        ensures { HasFinished P.theory.client_view work self.old self.new client.now.books }
    {
        match work.show(self.alloc, client) {
            Ok(shown) => self.gather(&shown),
            Err(_) => self.stopped = Some(Ended::NoMemory),
        }
    }

    // Plans a command that was taken: it is at work, or it asks nothing and is shown.
    fn begin<P: PairTable<Store>>(
        &mut self,
        command: Command,
        client: &Client<Store, u64, P>,
        trustees: u32,
    )
        requires none { NoneCounts client.now.books }
        requires client { (openings : ℕ → StoreState) × IsClient P.theory.client_view openings client.now.books }
        ensures { HasBegun P.theory.client_view command trustees self.old self.new client.now.books }
    {
        match Work::of(self.alloc, command, self.moment, trustees) {
            Ok(work) => {
                if work.is_asked() {
                    self.finish(work, client);
                } else {
                    self.work = Some(work);
                }
            }
            Err(_) => self.stopped = Some(Ended::NoMemory),
        }
    }

    // Takes a command: reads the clock, and plans what is asked.
    fn take_command<W: Clock, P: PairTable<Store>>(
        &mut self,
        command: Command,
        client: &Client<Store, u64, P>,
        trustees: u32,
        clock: &mut W,
    )
        requires none { NoneCounts client.now.books }
        requires client { (openings : ℕ → StoreState) × IsClient P.theory.client_view openings client.now.books }
        ensures { (reading : ℕ) × Grows (W.readings clock.old) (W.readings clock.new) (reading ∷ [])
            × HasBegun P.theory.client_view command trustees (with_command command reading self.old) self.new client.now.books }
    {
        self.tick(clock);
        self.quit = is_quit(&command);
        self.begin(command, client, trustees);
    }

    // Takes what the intake gave: plans a command, shows a fault. Whether it was a message.
    fn meet<W: Clock, P: PairTable<Store>>(
        &mut self,
        next: Next,
        client: &Client<Store, u64, P>,
        trustees: u32,
        clock: &mut W,
    ) -> bool
        requires none { NoneCounts client.now.books }
        requires client { (openings : ℕ → StoreState) × IsClient P.theory.client_view openings client.now.books }
        ensures { HasMet P.theory.client_view trustees next (W.readings clock.old) (W.readings clock.new) clock.old clock.new self.old self.new client.now.books result }
    {
        match next {
            Next::Command(command) => {
                self.take_command(command, client, trustees, clock);
                true
            }
            Next::Fault(fault) => {
                self.gather(&fault_shows(fault));
                true
            }
            Next::More => false,
        }
    }

    // Takes the next message, if a whole one was read. Whether there was one, or memory was wanting.
    fn take_next<W: Clock, P: PairTable<Store>>(
        &mut self,
        client: &Client<Store, u64, P>,
        trustees: u32,
        clock: &mut W,
    ) -> bool
        requires intake { (limit : ℕ) × (text : List ℕ) × (messages : List Message) × IsIntake limit text messages self.old.intake }
        requires none { NoneCounts client.now.books }
        requires client { (openings : ℕ → StoreState) × IsClient P.theory.client_view openings client.now.books }
        requires many { trustees ≡ length client.now.books.lanes.items }
        requires idle { self.old.work ≡ None }
        requires running { self.old.stopped ≡ None }
        requires no_quit { self.old.quit ≡ false }
        ensures goes { (s : Setting) (marks : List (ℕ → StoreView)) (first : SessionView) (left written : Option (List ℕ)) → s.trustees ≡ trustees
            → IsOn P.theory.client_view s marks self.old first (seen P.theory.client_view client.now.books left (W.readings clock.old) written) client.now.books
            → IsGoingOn P.theory.client_view s marks self.new first (seen P.theory.client_view client.now.books left (W.readings clock.new) written) client.now.books }
        ensures taken { (result ≡ true) → HasTakenOne self.old self.new }
        ensures rests { (result ≡ false) → (self.new ≡ record self.old { intake = self.new.intake }) × (clock.new ≡ clock.old) }
        ensures more { (result ≡ false) → HasNoMore self.old.intake self.new.intake }
    {
        match self.intake.next() {
            Ok(next) => self.meet(next, client, trustees, clock),
            Err(_) => {
                self.stopped = Some(Ended::NoMemory);
                true
            }
        }
    }

    // Takes the next message, unless a `quit` was taken. Whether there was one, or memory was wanting.
    pub(crate) fn take_unless_quit<W: Clock, P: PairTable<Store>>(
        &mut self,
        client: &Client<Store, u64, P>,
        trustees: u32,
        clock: &mut W,
    ) -> bool
        requires intake { (limit : ℕ) × (text : List ℕ) × (messages : List Message) × IsIntake limit text messages self.old.intake }
        requires none { NoneCounts client.now.books }
        requires client { (openings : ℕ → StoreState) × IsClient P.theory.client_view openings client.now.books }
        requires many { trustees ≡ length client.now.books.lanes.items }
        requires idle { self.old.work ≡ None }
        requires running { self.old.stopped ≡ None }
        ensures goes { (s : Setting) (marks : List (ℕ → StoreView)) (first : SessionView) (left written : Option (List ℕ)) → s.trustees ≡ trustees
            → IsOn P.theory.client_view s marks self.old first (seen P.theory.client_view client.now.books left (W.readings clock.old) written) client.now.books
            → IsGoingOn P.theory.client_view s marks self.new first (seen P.theory.client_view client.now.books left (W.readings clock.new) written) client.now.books }
        ensures taken { (result ≡ true) → HasTakenOne self.old self.new }
        ensures rests { (result ≡ false) → (self.new ≡ record self.old { intake = self.new.intake }) × (clock.new ≡ clock.old) × FeedsOnly self.old.intake self.new.intake }
        ensures more { (result ≡ false) → self.old.quit ≡ false → HasNoMore self.old.intake self.new.intake }
    {
        if self.quit {
            return false;
        }
        self.take_next(client, trustees, clock)
    }
}
