// The wave of three inverters in a ring, worked out on paper.

use crate::model_files::wrong_file;
use circuit::{Circuit, wave};
use disk::{MemDisk, Returned};
use model::{Continued, World};
use recovery::front_of;
use segments::archiving::{begin_on, origin_on};
use std::alloc::Global;
use std::test::Fail;
use texts::{Mistake, ModelFault, read_model};

/// The delays are 2, 3 and 4 ticks. One name is not a simple identifier, and one logic gate has no
/// name.
const RING: &str = r#"
end = 12
gates = [
    { name = "first", table = 0x55, delay = 2, first = 0, count = 1 },
    { name = "2nd", table = 0x55, delay = 3, first = 1, count = 1 },
    { table = 0x55, delay = 4, first = 2, count = 1 },
]
wires = [{ to = 1, pin = 0 }, { to = 2, pin = 0 }, { to = 0, pin = 0 }]
"#;

/// Each inverter starts with a 1, which reaches the next one after its delay. At tick 9 values
/// reach all three, in the order of their senders.
const WAVE: &str = r"$timescale 1 ns $end
$scope module circuit $end
$scope module first $end
$var wire 1 o0 output $end
$var wire 1 p0 pin0 $end
$var wire 1 q0 pin1 $end
$var wire 1 r0 pin2 $end
$upscope $end
$scope module \2nd $end
$var wire 1 o1 output $end
$var wire 1 p1 pin0 $end
$var wire 1 q1 pin1 $end
$var wire 1 r1 pin2 $end
$upscope $end
$scope module gate2 $end
$var wire 1 o2 output $end
$var wire 1 p2 pin0 $end
$var wire 1 q2 pin1 $end
$var wire 1 r2 pin2 $end
$upscope $end
$upscope $end
$enddefinitions $end
#0
$dumpvars
1o0
0p0
0q0
0r0
1o1
0p1
0q1
0r1
1o2
0p2
0q2
0r2
$end
#2
0o1
1p1
#3
0o2
1p2
#4
0o0
1p0
#5
1o2
0p2
#6
1o1
0p1
#7
1o0
0p0
#9
0o1
1p1
0o2
1p2
0o0
1p0
#11
1o1
0p1
#12
";

#[test]
fn the_wave_of_inverters_in_a_ring_matches_a_manual_calculation(
    rt: HostRuntime,
) -> Result<(), Fail> {
    let Ok((circuit, end)) = read_model::<Circuit>(rt.alloc(), RING) else {
        return Err("a circuit".into());
    };
    let mut world = World::open(rt.alloc(), &circuit, end)?;
    world.run_to(&circuit, end)?;
    let text = wave(rt.alloc(), &circuit, None, 0, world.time(), world.log())?;
    assert_eq!(rt; text.as_str(), WAVE);
    Ok(())
}

/// Times from which segments go on: at events, between them, and at the end. For each the values
/// before the events of that tick, and the last lines of the whole wave that come before them.
const PARTS: [(u64, &str, &str); 3] = [
    (
        4,
        "1o0\n0p0\n0q0\n0r0\n0o1\n1p1\n0q1\n0r1\n0o2\n1p2\n0q2\n0r2\n",
        "\n#4\n",
    ),
    (
        8,
        "1o0\n0p0\n0q0\n0r0\n1o1\n0p1\n0q1\n0r1\n1o2\n0p2\n0q2\n0r2\n",
        "\n#7\n1o0\n0p0\n",
    ),
    (
        12,
        "0o0\n1p0\n0q0\n0r0\n1o1\n0p1\n0q1\n0r1\n0o2\n1p2\n0q2\n0r2\n",
        "\n#12\n",
    ),
];

/// Returns the wave of the segment that goes on from the ring's simulation up to a time, made on a
/// disk in memory.
fn wave_from(alloc: Global, time: u64) -> Result<String, Fail> {
    let Ok((circuit, end)) = read_model::<Circuit>(alloc, RING) else {
        return Err("a circuit".into());
    };
    let mut world = World::open(alloc, &circuit, end)?;
    world.run_to(&circuit, time)?;
    let front = front_of(alloc, world, time)?;
    if front.numbers.as_slice().len() != front.states.as_slice().len() {
        return Err(Fail::from("the front has other numbers"));
    }
    let blank = MemDisk::blank(alloc, 32)?;
    let Returned { disk, outcome } = begin_on(alloc, &circuit, end, &front, blank);
    outcome?;
    let Returned {
        disk: _disk,
        outcome,
    } = origin_on(alloc, &circuit, disk);
    let (origin, from) = outcome?;
    let Some(origin) = origin else {
        return Err(Fail::from("no origin"));
    };
    let on = Continued::new(&circuit, Some(&origin));
    let mut world = World::open(alloc, &on, end)?;
    world.run_to(&on, end)?;
    let text = wave(
        alloc,
        &circuit,
        Some(&origin),
        from,
        world.time(),
        world.log(),
    )?;
    Ok(text)
}

#[test]
fn the_wave_of_a_segment_is_that_of_the_whole_run_from_its_time_on(
    rt: HostRuntime,
) -> Result<(), Fail> {
    let (head, _) = WAVE.split_once("#0\n").unwrap_or(("", ""));
    for (time, values, before) in PARTS {
        let (_, rest) = WAVE.split_once(before).unwrap_or(("", ""));
        let text = wave_from(rt.alloc(), time)?;
        let expected = format!(in rt.alloc(); "{head}#{time}\n$dumpvars\n{values}$end\n{rest}")?;
        assert_eq!(rt; text.as_str(), expected.as_str());
    }
    Ok(())
}

#[test]
fn names_with_spaces_are_refused(rt: HostRuntime) -> Result<(), Fail> {
    for name in "'a b'|''|3".split('|') {
        let text = format!(in rt.alloc();
            "end = 1\nwires = []\ngates = [{{ name = {name}, table = 0, delay = 1, first = 0, count = 0 }}]\n"
        )?;
        let read = read_model::<Circuit>(rt.alloc(), text.as_str()).err();
        assert!(rt;
            matches!(
                read,
                Some(ModelFault::BadModel(Mistake::Not { key: "gates", .. }))
            ),
            "{text}"
        );
    }
    Ok(())
}

/// Model files, and the text of their mistakes. It leaves out a first mistake whose own text says
/// everything, such as a number out of range.
const WRONG: &str = r#"end = 0
gates = [{ table = 0, delay = 1, first = 0, count = 0 }, { table = 0, first = 0, count = 0 }, 7]
wires = [{ to = 0, pin = 0 }, { to = 1 }]
names = []
=>
  gates[1]: a table; expected a table with table, delay, first and count, and perhaps a name without blanks
  gates[2]: 7; expected a table with table, delay, first and count, and perhaps a name without blanks
  wires[1]: a table; expected a table with to and pin
  "names": the model has no such key
--
# Gates and wires that are valid but do not fit each other.
end = 10
gates = [{ table = 1, delay = 0, first = 0, count = 0 }, { table = 1, delay = 1, first = 1, count = 2 }]
wires = [{ to = 2, pin = 0 }, { to = 1, pin = 0 }]
=>
  gates[0]: a table; expected a delay, and at most 8 of the listed wires
  gates[1]: a table; expected a delay, and at most 8 of the listed wires
  wires[0]: a table; expected a wire to one of the listed gates
--
end = 10
gates = []
wires = []
=>
  gates: a list; expected 1 to 1024 gates
--
end = 10
wires = 'none'
=>
  gates: missing; expected a list of tables with table, delay, first and count
  wires: a string; expected a list of tables with to and pin
"#;

#[test]
fn each_mistake_names_its_place(rt: HostRuntime) -> Result<(), Fail> {
    assert_eq!(rt; wrong_file::<Circuit>(rt.alloc(), "", WRONG, "")?, None);
    Ok(())
}
