// Traces are read, and each drawing of their course is well formed. What these show is in the script
// `course`.

use crate::shapes::is_well_formed;
use pictures::{Row, read_rows, write_course};
use std::alloc::Global;
use std::test::Fail;

const HEAD: &str =
    "round,node,budget,gvt,delivered,antimessages,handled,sent,reported,committed,events\n";

/// Two turns of the first round, and one of the second.
const ROWS: &str = "\
1,0,16,0,3,0,16,16,0,0,0
1,1,16,2,0,0,4,4,3,0,0
2,0,16,9,4,2,16,16,12,5,15
";

/// A row of the largest numbers.
const GREATEST: &str = "\
18446744073709551615,18446744073709551615,18446744073709551615,18446744073709551615,\
18446744073709551615,18446744073709551615,18446744073709551615,18446744073709551615,\
18446744073709551615,18446744073709551615,18446744073709551615
";

fn read(alloc: Global, rows: &str) -> Result<Vec<Row>, Fail> {
    let text = format!(in alloc; "{HEAD}{rows}")?;
    Ok(read_rows(alloc, text.as_bytes())?)
}

#[test]
fn a_trace_is_read(rt: HostRuntime) -> Result<(), Fail> {
    let rows = read(rt.alloc(), ROWS)?;
    assert_eq!(rt; rows.len(), 3);
    let last = Row {
        round: 2,
        node: 0,
        budget: 16,
        gvt: 9,
        delivered: 4,
        antimessages: 2,
        handled: 16,
        sent: 16,
        reported: 12,
        committed: 5,
        events: 15,
    };
    assert_eq!(rt; rows[2], last);
    assert_eq!(rt; read(rt.alloc(), "")?.len(), 0);
    Ok(())
}

/// Whether the course of these rows is well formed.
fn is_drawn(alloc: Global, rows: &str) -> Result<bool, Fail> {
    let rows = read(alloc, rows)?;
    let mut bytes = Vec::new(alloc);
    write_course(rows.as_slice(), &mut bytes)?;
    Ok(is_well_formed(alloc, String::from_utf8(bytes)?.as_str())?)
}

#[test]
fn each_course_is_well_formed(rt: HostRuntime) -> Result<(), Fail> {
    for rows in [ROWS, "", GREATEST, "0,0,0,0,0,0,0,0,0,0,0\n"] {
        assert!(rt; is_drawn(rt.alloc(), rows)?, "{rows}");
    }
    Ok(())
}
