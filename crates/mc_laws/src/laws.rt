//! 64 classes are one list of all items.
ghost use Rattle.mc_laws.specs.Laws.{FirstClassesStand, ClassesStandLater, ClassesReplyAsOne, ClassesRunAsOne};

/// The classes at first stand for the store at first.
pub fn first_classes_stand()
    ensures { FirstClassesStand }
{}

/// What the classes stand for at a moment, they stand for at each later one.
pub fn classes_stand_later()
    ensures { ClassesStandLater }
{}

/// Where the classes stand for a store, the store may have their replies to a command, and they stand for what it
/// leaves. Sharding is sound for commands of one key, for a `get` of several, and for `flush_all` and `stats` over all
/// classes in order.
pub fn classes_reply_as_one()
    ensures { ClassesReplyAsOne }
{}

/// The store may have the replies of the classes to any commands, at the moments of any readings of the clock.
pub fn classes_run_as_one()
    ensures { ClassesRunAsOne }
{}
