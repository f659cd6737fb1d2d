//! What a launch on the desk does to the classes.
ghost use Rattle.mc_desk_laws.specs.Desk.{DeskCoursesAreReplies};

use mc_route::launches_are_replies;

/// Where the desk's launch of a flush or a count took a course, and each class was led from one state to another by just
/// what it was asked there, with the replies that the launch was told, the end of the launch is what all 64 classes reply
/// to the command.
pub fn desk_courses_are_replies()
    ensures { DeskCoursesAreReplies }
{
    launches_are_replies();
}
