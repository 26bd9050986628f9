// The version of a program, and what `--version` prints.

ghost use Rattle.eventkey.specs.Writing.{TakesBeginning, Writes};
ghost use Rattle.program.specs.Version.{version_text};
ghost use Rattle.std.specs.Io.KnownBytes.{Appends};
ghost use Rattle.std.specs.Prelude.{◌≡◌, ◌⊎◌};

use crate::status::print_fault;
use disk_commands::Fault;
use std::io::{Result as IoResult, Write};
use texts::write_text;

/// The version of this program and of programs over other models, and the format of their disks.
pub const VERSION: &str = "0.4.0 (disks of format 2)";

/// Prints the version of the program of this name on `out`, which is flushed, and returns the exit
/// status: 0, or 1 after the fault `Output`, which is printed on `err`, if `out` refuses the text.
pub(crate) fn print_version<O: Write, E: Write>(name: &str, out: &mut O, err: &mut E) -> u8
    ensures status { (result ≡ 0) ⊎ (result ≡ 1) }
    ensures printed { result ≡ 0 →
        Appends (O.contents out.old) (O.contents out.new) (version_text name.now) }
    ensures failed { result ≡ 1 →
        TakesBeginning (O.contents out.old) (O.contents out.new) (version_text name.now) }
    ensures quiet { result ≡ 0 → err.new ≡ err.old }
{
    match write_version(name, out) {
        Ok(()) => 0,
        Err(_) => print_fault(name, Fault::Output, err),
    }
}

/// Writes the name of a program and its version, and flushes the writer.
fn write_version<O: Write>(name: &str, out: &mut O) -> IoResult<()>
    ensures { Writes (O.contents out.old) (O.contents out.new) result (version_text name.now) }
{
    write_text(name, out)?;
    write_text(" ", out)?;
    write_text(VERSION, out)?;
    write_text("\n", out)?;
    out.flush()
}
