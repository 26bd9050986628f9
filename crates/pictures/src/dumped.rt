// The changes of named numbers as a value change dump (IEEE 1364).

use crate::Changes;
use crate::changes::{Change, Variable};
use std::io::{Result, Write};
use texts::{write_number, write_text};

/// Writes changes as a value change dump: a tick is a nanosecond; a scope for each kind of
/// processes, and in it a scope for each process, as `doctor_0` for `doctor[0]`; if the kind has no
/// name, `lp` and in it `lp0`; and a variable of as many bits as the number has, in whose name `[3]`
/// is written `_3`. At the first tick there are all values, then at each tick those that change, and
/// last the tick at which the dump ends.
///
/// If the writer fails, its error is returned, and it has taken a beginning of the dump.
pub fn write_changes<W: Write>(changes: &Changes<'_>, out: &mut W) -> Result<()> {
    let variables = changes.variables.as_slice();
    write_text("$timescale 1 ns $end\n", out)?;
    write_variables(variables, out)?;
    write_number("$enddefinitions $end\n#", changes.from, out)?;
    write_text("\n$dumpvars\n", out)?;
    for (place, variable) in variables.iter().enumerate() {
        write_value(variable.bits, variable.first, place, out)?;
    }
    write_text("$end\n", out)?;
    write_all(variables, changes.changes.as_slice(), changes.from, out)?;
    write_number("#", changes.to, out)?;
    write_text("\n", out)
}

/// Writes the variables in their scopes.
fn write_variables<W: Write>(variables: &[Variable<'_>], out: &mut W) -> Result<()> {
    for (place, variable) in variables.iter().enumerate() {
        let before = match place.checked_sub(1) {
            Some(before) => variables.get(before),
            None => None,
        };
        write_scopes(before, variable, out)?;
        write_number("$var wire ", u64::from(variable.bits), out)?;
        write_text(" ", out)?;
        write_code(place, out)?;
        write_text(" ", out)?;
        write_name(variable.name, out)?;
        write_text(" $end\n", out)?;
    }
    if variables.is_empty() {
        return Ok(());
    }
    write_text(UPSCOPE, out)?;
    write_text(UPSCOPE, out)
}

const UPSCOPE: &str = "$upscope $end\n";

/// Leaves the scopes of the variable before this one that it is not in, and enters its own.
fn write_scopes<W: Write>(
    before: Option<&Variable<'_>>,
    variable: &Variable<'_>,
    out: &mut W,
) -> Result<()> {
    let mut is_inside = false;
    if let Some(before) = before {
        if before.process == variable.process {
            return Ok(());
        }
        write_text(UPSCOPE, out)?;
        is_inside = before.kind == variable.kind;
        if !is_inside {
            write_text(UPSCOPE, out)?;
        }
    }
    if !is_inside {
        let kind = if variable.kind.is_empty() {
            "lp"
        } else {
            variable.kind
        };
        write_text("$scope module ", out)?;
        write_text(kind, out)?;
        write_text(" $end\n", out)?;
    }
    write_text("$scope module ", out)?;
    if variable.kind.is_empty() {
        write_number("lp", u64::from(variable.process), out)?;
    } else {
        write_text(variable.kind, out)?;
        write_number("_", u64::from(variable.number), out)?;
    }
    write_text(" $end\n", out)
}

/// Writes a name without brackets: a simulator would read them as a bit of the variable.
fn write_name<W: Write>(name: &str, out: &mut W) -> Result<()> {
    for byte in name.bytes() {
        match byte {
            b'[' => write_text("_", out)?,
            b']' => {}
            _ => out.write_all(&[byte])?,
        }
    }
    Ok(())
}

/// Writes the code of the variable at a place: digits of base 94, the lowest first.
fn write_code<W: Write>(place: usize, out: &mut W) -> Result<()> {
    let mut rest = place;
    // 94^10 is above 2^64.
    for _ in 0..10 {
        out.write_all(&[b'!' + (rest % 94) as u8])?;
        rest /= 94;
        if rest == 0 {
            break;
        }
    }
    Ok(())
}

/// Writes the changes after the first tick, those of each tick after a line with its number.
fn write_all<W: Write>(
    variables: &[Variable<'_>],
    changes: &[Change],
    from: u64,
    out: &mut W,
) -> Result<()> {
    let mut time = from;
    for change in changes {
        if change.time != time {
            time = change.time;
            write_number("#", time, out)?;
            write_text("\n", out)?;
        }
        if let Some(variable) = variables.get(change.variable) {
            write_value(variable.bits, change.value, change.variable, out)?;
        }
    }
    Ok(())
}

/// Writes the value of the variable at a place.
fn write_value<W: Write>(bits: u8, value: u64, place: usize, out: &mut W) -> Result<()> {
    if bits == 1 {
        write_number("", value, out)?;
    } else {
        write!(out, "b{value:b} ")?;
    }
    write_code(place, out)?;
    write_text("\n", out)
}
