//! Operations on the whole class.
ghost use Rattle.std.specs.Prelude.{◌≡◌};
ghost use Rattle.mc_model.specs.Class.{flush_step, count_step};

use crate::state::State;
use mc_item::LATEST_TIME;
use mc_model::ShardReply;

impl State {
    /// Lets all items go, at once or after so many seconds.
    pub(crate) fn flush(&mut self, delay: u32, moment: u64) -> ShardReply
        ensures { (self.new, result) ≡ flush_step self.old delay moment }
    {
        self.settle(moment);
        self.flush_at(moment.min(LATEST_TIME) + u64::from(delay));
        ShardReply::Flushed
    }

    /// Counts the items, and tells how many stores there were.
    pub(crate) fn count(&mut self, moment: u64) -> ShardReply
        ensures { (self.new, result) ≡ count_step self.old moment }
    {
        self.settle(moment);
        ShardReply::Counts {
            held: self.held(),
            stored: self.stored,
        }
    }
}
