//! What lines say, in short.
ghost use Rattle.std.specs.Prelude.{◌≡◌};
ghost use Rattle.mc_model.specs.Commands as spec;

use mc_model::{Command, Fault, Message, Saying};

// A command whose line is all of it.
pub(crate) fn asks(command: Command) -> Saying
    ensures { result ≡ spec.asks command }
{
    Saying::Alone(Message::Command(command))
}

// A fault whose line is all of it.
pub(crate) fn fails(fault: Fault) -> Saying
    ensures { result ≡ spec.fails fault }
{
    Saying::Alone(Message::Fault(fault))
}

// A known name in a wrong form.
pub(crate) fn bad() -> Saying
    ensures { result ≡ spec.bad }
{
    fails(Fault::BadLine)
}
