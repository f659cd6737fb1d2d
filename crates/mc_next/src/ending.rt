//! When a session is over.
ghost use Rattle.std.specs.Prelude.{◌≡◌, ℕ, ◌<◌, ◌^◌, true, false, List, length, MatchOption};
ghost use Rattle.mc_model.specs.declared.message.Message.{Message};
ghost use Rattle.mc_intake.specs.Intake.{IsIntake};
ghost use Rattle.mc_next.specs.Sessions.{HasEndedSo, HasNotEnded, IsNotDone, IsOverSo};

use crate::ended::Ended;
use crate::session::Session;
use mc_route::Store;
use tm_asking::none_counts;
use tm_client::Client;
use tm_pair::PairTable;

impl Session {
    // How an input has ended of which a read gave the end.
    fn end_of_input(&self) -> Option<Ended>
        requires quit { self.now.quit ≡ false }
        requires at_end { self.now.at_end ≡ true }
        ensures { MatchOption result (HasNotEnded self.now) (λ ended. HasEndedSo ended self.now) }
    {
        if self.intake.is_between() {
            Some(Ended::AtEnd)
        } else {
            Some(Ended::Inside)
        }
    }

    // How the input has ended, if it has.
    fn input_end(&self) -> Option<Ended>
        requires { (limit : ℕ) × (text : List ℕ) × (messages : List Message) × IsIntake limit text messages self.now.intake }
        ensures { MatchOption result (HasNotEnded self.now) (λ ended. HasEndedSo ended self.now) }
    {
        if self.quit {
            return Some(Ended::Quit);
        }
        if self.at_end {
            return self.end_of_input();
        }
        if !self.too_much {
            return None;
        }
        if self.intake.is_fed() {
            Some(Ended::TooMuch)
        } else {
            None
        }
    }

    // Whether it is over, and how it ended.
    pub(crate) fn end<P: PairTable<Store>>(
        &self,
        client: &Client<Store, u64, P>,
        trustees: usize,
    ) -> Option<Ended>
        requires intake { (limit : ℕ) × (text : List ℕ) × (messages : List Message) × IsIntake limit text messages self.now.intake }
        requires many { trustees ≡ length client.now.books.lanes.items }
        requires few { trustees < 2 ^ 32 }
        ensures { MatchOption result (IsNotDone self.now.stopped self.now client.now.books) (λ ended. IsOverSo ended self.now client.now.books) }
    {
        if let Some(why) = self.stopped {
            if none_counts(client, trustees) {
                return Some(why);
            }
            return None;
        }
        if self.work.is_some() {
            return None;
        }
        if !self.gathered.is_empty() {
            return None;
        }
        self.input_end()
    }
}
