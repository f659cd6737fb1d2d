//! What operations do to the classes, class by class.
ghost use Rattle.mc_store_laws.specs.Parts.{PartsRun, ValuesAreClasses};

use mc_route::parts_are_steps;

/// Where each class alone was led from one state to another by the parts that are its own, with their replies, all 64
/// classes have these replies to the parts of the command, one after another.
pub fn parts_run()
    ensures { PartsRun }
{
    parts_are_steps();
}

/// Operations on an object that is a class leave a class: each is its step, or nothing has changed for want of memory.
pub fn values_are_classes()
    ensures { ValuesAreClasses }
{}
