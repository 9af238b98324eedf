//! Why the program failed.

ghost use Rattle.std.specs.Prelude.{◌≡◌};
ghost use Rattle.tool_output.specs.Stops.{status_of, status_of_stop};

use crate::stop::Stop;
use pdb_text::WriteFailed;
use tool_arguments::mistakes::{Mistake, TaskError};
use tool_arguments::options::ValueAt;

/// Why the program failed.
#[derive(Clone, Copy, Debug, PartialEq, Eq)]
pub enum Fault {
    /// An argument is wrong.
    Mistaken(Mistake),
    /// The argument of this index isn't UTF-8.
    NotText(usize),
    /// Standard input, which is to be read, is closed.
    NoInput,
    /// A command stopped over the file that the argument of this index names.
    Stopped(Stop, usize),
    /// The image that the value of an option names can't be used.
    Image(Stop, ValueAt),
    /// A file isn't the wanted one, and that was said.
    OtherKey,
    /// A command stopped over a file that no argument names, and that was said.
    Reported(Stop),
}

impl From<Stop> for Fault {
    fn from(stop: Stop) -> Fault {
        Fault::Stopped(stop, 0)
    }
}

impl From<WriteFailed> for Fault {
    ghost use Rattle.tool_output.specs.declared.fault.Fault.TheVariants.{Stopped};
    ghost use Rattle.tool_output.specs.declared.stop.Stop.TheVariants.{Write};

    ghost from_gives = { λ _ f. f ≡ Stopped Write 0 };

    fn from(_e: WriteFailed) -> Fault {
        Fault::Stopped(Stop::Write, 0)
    }
}

impl From<TaskError> for Fault {
    ghost use Rattle.tool_output.specs.Faults.{fault_of_task};

    ghost from_gives = { λ e f. f ≡ fault_of_task e };

    fn from(e: TaskError) -> Fault {
        match e {
            TaskError::Mistake(mistake) => Fault::Mistaken(mistake),
            TaskError::OutOfMemory => Fault::Stopped(Stop::Memory, 0),
        }
    }
}

/// The exit status of a command that stopped.
fn status_of_stop(stop: Stop) -> u8
    ensures { result ≡ status_of_stop stop }
{
    match stop {
        Stop::Unopened(_) | Stop::Read | Stop::Input => 3,
        Stop::Open(_) | Stop::Image(_) | Stop::NoPdb => 4,
        Stop::Memory => 5,
        Stop::Write => 6,
    }
}

/// The exit status of a fault.
pub fn status_of(fault: Fault) -> u8
    ensures { result ≡ status_of fault }
{
    match fault {
        Fault::Mistaken(_) | Fault::NotText(_) => 2,
        Fault::NoInput => 3,
        Fault::Stopped(stop, _) | Fault::Image(stop, _) | Fault::Reported(stop) => {
            status_of_stop(stop)
        }
        Fault::OtherKey => 7,
    }
}
