//! What trustees are between commands.
ghost use Rattle.tm_course.specs.Courses.{IdleLogsAreQuiet, LaunchesTakeCourses};

use tm_seq::Entrusted;

/// Where no launch is unfinished and no place asks anything, a log grows by nothing that launched work asks or is told.
pub fn idle_logs_are_quiet<S: Entrusted>()
    ensures { IdleLogsAreQuiet S.kind }
{}

/// A launch that is alone takes its course from its task to its end: what it asks, in order, what it is told, and the reply
/// with which it ends.
pub fn launches_take_courses<S: Entrusted>()
    ensures { LaunchesTakeCourses S.kind }
{}
