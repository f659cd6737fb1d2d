//! That what is asked of classes is what the commands mean, and that work over all classes asks each of them.
ghost use Rattle.mc_route.specs.Laws.{PartsAreSteps, ClassesAreFound};
ghost use Rattle.mc_route.specs.ClassLaunches.{LaunchesAreReplies};
ghost use Rattle.mc_route.specs.Launches.{DeskAsksEachClass, DeskStopsForMemory};

/// What a class does that is asked a part is what the part's operation does there.
pub fn parts_are_steps()
    ensures { PartsAreSteps }
{}

/// Among the objects that [`store_first`](crate::store_first) places on the trustee of a class, the class is the one at
/// its index. So a launch on the desk, which names objects by trustee and index, finds each class.
pub fn classes_are_found()
    ensures { ClassesAreFound }
{}

/// A launch on the desk that begins and is told each class's own reply asks all 64 classes once, in the order of their
/// numbers, each where it stands. It ends with `Flushed`, or with the sums of what the classes count.
pub fn desk_asks_each_class()
    ensures { DeskAsksEachClass }
{}

/// Where memory is wanting for a class, the launch asks no further one and ends with that, and is not counted.
pub fn desk_stops_for_memory()
    ensures { DeskStopsForMemory }
{}

/// Where the 64 classes reply to what a launch of `flush_all` or `stats` asks, each by its step until memory is wanting
/// for one, the launch ends, and what the classes have replied to the command is its end.
pub fn launches_are_replies()
    ensures { LaunchesAreReplies }
{}
