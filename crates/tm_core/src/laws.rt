//! What each step of the slots keeps, whatever is asked and answered.
//!
//! Nothing here runs: each function states a law.
ghost use Rattle.std.specs.Prelude.{ℕ, List};
ghost use Rattle.tm_model.specs.GoodSlots.{Mark, FirstSlotsAreGood, PublishKeepsSlots, SeeKeepsSlots, AnswerKeepsSlots, CollectKeepsSlots};
ghost use Rattle.tm_core.specs.Steps.{StepsKeepSlots};

/// How the slots read a log: its requests `Q`, its answer batches `G` and its entries `E`.
pub trait SlotLog<Q, G, E> {
    /// What an entry is to the slots.
    ghost mark: { E → Mark Q };

    /// The answer batches that left for a place by a log.
    ghost out: { ℕ → List E → List G };

    /// Which logs are legal.
    ghost legal: { List E → Type 0 };
}

/// The slots are good at first.
pub fn first_slots_are_good<Q, G, E, L: SlotLog<Q, G, E>>()
    ensures { FirstSlotsAreGood L.mark L.out L.legal }
{}

/// A publish keeps the slots good.
pub fn publish_keeps_slots<Q, G, E, L: SlotLog<Q, G, E>>()
    ensures { PublishKeepsSlots L.mark L.out L.legal }
{}

/// A look of the trustee keeps the slots good.
pub fn see_keeps_slots<Q, G, E, L: SlotLog<Q, G, E>>()
    ensures { SeeKeepsSlots L.mark L.out L.legal }
{}

/// An answer keeps the slots good.
pub fn answer_keeps_slots<Q, G, E, L: SlotLog<Q, G, E>>()
    ensures { AnswerKeepsSlots L.mark L.out L.legal }
{}

/// A look of a client keeps the slots good.
pub fn collect_keeps_slots<Q, G, E, L: SlotLog<Q, G, E>>()
    ensures { CollectKeepsSlots L.mark L.out L.legal }
{}

/// From the slots at first on, over numbers, they are good after every list of steps that are allowed.
pub fn steps_keep_slots()
    ensures { StepsKeepSlots }
{}
