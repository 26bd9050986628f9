// Statistics over virtual time, and the changes of named numbers. Whole runs are compared with
// another computation by `tools/try-statistics`.

use models::TokenRing;
use pictures::{Cell, Decimal, Statistics, Tally, View, changes_of, statistics_of, write_changes};
use std::alloc::Global;
use std::test::Fail;
use texts::{Column, Names};

/// A ring of 3 processes, and a number of each: how many tokens it has passed on. Of process 0 it
/// is 0 at tick 0, then 1, and 2 from tick 7 on; of process 1 it is 1 at ticks 3 to 8, and 2 at
/// tick 9; of process 2 it is 1 from tick 5 on.
fn ring() -> TokenRing {
    TokenRing::new(3, 2, 1)
}

/// The names of a ring whose processes have this number.
fn names_of(alloc: Global, column: Column) -> Result<Names, Fail> {
    let mut columns = Vec::new(alloc);
    columns.push(column)?;
    let mut words = Vec::new(alloc);
    words.push(String::new(alloc))?;
    words.push(String::from_str(alloc, "hop")?)?;
    Ok(Names::new(alloc, 3, columns, words)?)
}

fn ring_names(alloc: Global) -> Result<Names, Fail> {
    names_of(alloc, Column::word(String::from_str(alloc, "passed")?, 0))
}

fn decimal<'a>(whole: u64, millionths: u64) -> Cell<'a> {
    Cell::Decimal(Decimal { whole, millionths })
}

#[test]
fn numbers_have_their_means_over_virtual_time(rt: HostRuntime) -> Result<(), Fail> {
    let names = ring_names(rt.alloc())?;
    let statistics = statistics_of(rt.alloc(), &ring(), Some(&names), 10, 10, 0)?;
    let means = [
        decimal(1, 200_000),
        decimal(0, 800_000),
        decimal(0, 500_000),
    ];
    let rows = statistics.by_process(rt.alloc())?;
    assert_eq!(rt; rows.len(), 3);
    for (row, mean) in rows.iter().zip(&means) {
        assert!(rt; row.cells()[4] == *mean);
    }
    let rows = statistics.by_kind(rt.alloc())?;
    assert_eq!(rt; rows.len(), 1);
    let cells = rows[0].cells();
    assert!(rt; cells[2] == Cell::Text("passed") && cells[3] == Cell::Number(3));
    assert!(rt; cells[4] == decimal(0, 833_333) && cells[5] == Cell::Number(0));
    assert!(rt; cells[6] == Cell::Number(2) && cells[7] == decimal(1, 666_666));
    assert!(rt;
        is_warm(
            &statistics_of(rt.alloc(), &ring(), Some(&names), 10, 10, 5)?,
            rt.alloc()
        )?
    );
    Ok(())
}

/// Whether the mean over the ticks from 5 on is that of all processes.
fn is_warm(statistics: &Statistics<'_>, alloc: Global) -> Result<bool, Fail> {
    match statistics.overall(alloc)?.first() {
        Some(row) => Ok(row.cells()[4] == decimal(1, 266_666)),
        None => Ok(false),
    }
}

#[test]
fn words_have_their_figures(rt: HostRuntime) -> Result<(), Fail> {
    let names = ring_names(rt.alloc())?;
    let statistics = statistics_of(rt.alloc(), &ring(), Some(&names), 10, 10, 0)?;
    let rows = statistics.words(rt.alloc())?;
    assert_eq!(rt; rows.len(), 1);
    let cells = rows[0].cells();
    assert!(rt; cells[1] == Cell::Text("hop") && cells[2] == Cell::Number(5));
    assert!(rt; cells[3] == decimal(2, 0) && cells[4] == decimal(1, 414_213));
    assert!(rt; cells[6] == Cell::Number(4) && cells[7] == Cell::Number(2));
    assert!(rt; cells[8] == Cell::Number(4) && cells[10] == Cell::Number(4));
    Ok(())
}

/// Whether the percentiles of 1 to this number of values are these.
fn has_percentiles(alloc: Global, count: u64, percentiles: [u64; 4]) -> Result<bool, Fail> {
    let mut tally = Tally::new(alloc);
    for value in 1..=count {
        tally.add(alloc, value)?;
    }
    match tally.figures(alloc)? {
        Some(figures) => Ok(figures.percentiles == percentiles),
        None => Ok(false),
    }
}

#[test]
fn percentiles_of_many_values_are_rounded_up(rt: HostRuntime) -> Result<(), Fail> {
    let exact = [32768, 58983, 62260, 64881];
    assert!(rt; has_percentiles(rt.alloc(), 65536, exact)?);
    // The 32,769th value is in the bucket of 32,768 to 33,023.
    let rounded = [33023, 59135, 62463, 65023];
    assert!(rt; has_percentiles(rt.alloc(), 65537, rounded)?);
    Ok(())
}

const DUMP: &str = "\
$timescale 1 ns $end
$scope module lp $end
$scope module lp1 $end
$var wire 64 ! passed $end
$upscope $end
$scope module lp2 $end
$var wire 64 \" passed $end
$upscope $end
$upscope $end
$enddefinitions $end
#3
$dumpvars
b1 !
b0 \"
$end
#5
b1 \"
#9
b10 !
#10
";

/// Whether the dump of the ring's processes in this range, from a tick on, has this text.
fn is_dumped(alloc: Global, names: &Names, view: &View, text: &str) -> Result<bool, Fail> {
    let changes = changes_of(alloc, &ring(), Some(names), 10, 10, view)?;
    let mut dump = Vec::new(alloc);
    write_changes(&changes, &mut dump)?;
    Ok(dump.as_slice() == text.as_bytes())
}

#[test]
fn the_changes_of_a_ring_are_dumped(rt: HostRuntime) -> Result<(), Fail> {
    let names = ring_names(rt.alloc())?;
    let view = View {
        from: 3,
        to: None,
        first: 1,
        last: 2,
    };
    assert!(rt; is_dumped(rt.alloc(), &names, &view, DUMP)?);
    Ok(())
}

const FLAG: &str = "\
$timescale 1 ns $end
$scope module lp $end
$scope module lp0 $end
$var wire 1 ! odd_0 $end
$upscope $end
$upscope $end
$enddefinitions $end
#0
$dumpvars
0!
$end
#1
1!
#7
0!
#9
";

#[test]
fn one_bit_of_an_array_is_dumped(rt: HostRuntime) -> Result<(), Fail> {
    let odd = Column {
        name: String::from_str(rt.alloc(), "odd[0]")?,
        place: 0,
        shift: 0,
        bits: 1,
    };
    let names = names_of(rt.alloc(), odd)?;
    let view = View {
        from: 0,
        to: Some(9),
        first: 0,
        last: 0,
    };
    assert!(rt; is_dumped(rt.alloc(), &names, &view, FLAG)?);
    Ok(())
}

#[test]
fn a_decimal_has_six_digits(rt: HostRuntime) -> Result<(), Fail> {
    let decimal = Decimal {
        whole: 12,
        millionths: 345,
    };
    let text = format!(in rt.alloc(); "{decimal}")?;
    assert!(rt; text.as_str() == "12.000345");
    Ok(())
}
