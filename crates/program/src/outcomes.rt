// The program's fault for one of a command on a disk.

ghost use Rattle.std.specs.Prelude.{◌≡◌};
ghost use Rattle.program.specs.Command.{of_command};

use disk_commands::Fault;
use runs::commands::CommandFault;

/// Returns the program's fault for one of a command on a disk.
pub fn of_command(fault: CommandFault) -> Fault
    ensures { result ≡ of_command fault }
{
    match fault {
        CommandFault::NoMemory => Fault::NoMemory,
        CommandFault::Log(fault) => Fault::Log(fault),
        CommandFault::Recovery(fault) => Fault::Recovery(fault),
        CommandFault::Session(fault) => Fault::Session(fault),
        CommandFault::Rounds => Fault::Rounds,
        CommandFault::Stopped { .. } => Fault::Stopped,
        CommandFault::Migrate(fault) => Fault::Migrate(fault),
        CommandFault::Output => Fault::Output,
    }
}
