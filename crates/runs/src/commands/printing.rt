// The lines that the commands print.

ghost use Rattle.std.specs.Prelude.{◌++◌, codes, decimal, flat_map, length, IsOkUnless};
ghost use Rattle.runs.specs.Commands.{extended_text, formatted_text, node_text, ran_text};
ghost use Rattle.runs.specs.Commands.{stopped_text};
ghost use Rattle.runs.specs.Migrating.{migrated_text};
ghost use Rattle.runs.specs.declared.commands.fault.CommandFault.TheVariants.{Output};
ghost use Rattle.model.specs.World.{below};
ghost use Rattle.eventkey.specs.Writing.{Writes};

use crate::commands::CommandFault;
use std::io::{Result as IoResult, Write};
use texts::{write_number, write_text};

/// Writes the number of sectors of a newly formatted disk, and flushes the writer.
pub fn write_formatted<O: Write>(sectors: u32, out: &mut O) -> Result<(), CommandFault>
    ensures written { Writes (O.contents out.old) (O.contents out.new) result
        (formatted_text sectors) }
    ensures fault { IsOkUnless result Output }
{
    write_number("formatted ", u64::from(sectors), out)?;
    write_text(" sectors\n", out)?;
    out.flush()?;
    Ok(())
}

/// Writes the end that was in force and the one that is now, and flushes the writer.
pub fn write_extended<O: Write>(before: u64, end: u64, out: &mut O) -> Result<(), CommandFault>
    ensures written { Writes (O.contents out.old) (O.contents out.new) result
        (extended_text before end) }
    ensures fault { IsOkUnless result Output }
{
    write_number("extended ", before, out)?;
    write_number(" to ", end, out)?;
    write_text("\n", out)?;
    out.flush()?;
    Ok(())
}

/// Writes the time of a migrated disk and the number of events of its log, and flushes the writer.
pub fn write_migrated<O: Write>(time: u64, count: usize, out: &mut O) -> Result<(), CommandFault>
    ensures written { Writes (O.contents out.old) (O.contents out.new) result
        (migrated_text time count) }
    ensures fault { IsOkUnless result Output }
{
    write_number("migrated ", time, out)?;
    write_number(" events ", count as u64, out)?;
    write_text("\n", out)?;
    out.flush()?;
    Ok(())
}

/// Writes what is committed after a run that was asked to stop, and flushes the writer.
pub fn write_stopped<O: Write>(time: u64, events: usize, out: &mut O) -> Result<(), CommandFault>
    ensures written { Writes (O.contents out.old) (O.contents out.new) result
        (stopped_text time events) }
    ensures fault { IsOkUnless result Output }
{
    write_number("committed ", time, out)?;
    write_number(" events ", events as u64, out)?;
    write_text("\n", out)?;
    out.flush()?;
    Ok(())
}

/// Writes the output of a run: how many messages each node handled, and what is committed. Flushes
/// the writer.
pub fn write_ran<O: Write>(
    handled_per_node: &[u64],
    time: u64,
    events: usize,
    out: &mut O,
) -> Result<(), CommandFault>
    ensures written { Writes (O.contents out.old) (O.contents out.new) result
        (ran_text handled_per_node.now time events) }
    ensures fault { IsOkUnless result Output }
{
    write_nodes(handled_per_node, out)?;
    write_number("committed ", time, out)?;
    write_number(" events ", events as u64, out)?;
    write_text("\n", out)?;
    out.flush()?;
    Ok(())
}

/// Writes a line for each node.
fn write_nodes<O: Write>(handled_per_node: &[u64], out: &mut O) -> IoResult<()>
    ensures { Writes (O.contents out.old) (O.contents out.new) result
        (flat_map (node_text handled_per_node.now) (below (length handled_per_node.now))) }
{
    for node in 0..handled_per_node.len() {
        write_node(node, handled_per_node[node], out)?;
    }
    Ok(())
}

/// Writes the line of one node.
fn write_node<O: Write>(node: usize, handled: u64, out: &mut O) -> IoResult<()>
    ensures { Writes (O.contents out.old) (O.contents out.new) result
        (codes "node " ++ decimal node ++ (codes " ran " ++ decimal handled) ++ codes "\n") }
{
    write_number("node ", node as u64, out)?;
    write_number(" ran ", handled, out)?;
    write_text("\n", out)
}
