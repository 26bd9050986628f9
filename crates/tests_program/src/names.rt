// The printed name of each fault. A fault that carries another is printed with that one's name
// after a space; a mistake in a model file is printed in plain words, with the key.

use commitlog::LogFault;
use coordinator::SessionFault;
use disk::{DiskFault, FileFault, GrowthFault};
use eventkey::KeyFault;
use gvt::LedgerFault;
use model::WorldFault;
use node::NodeFault;
use process::ProcessFault;
use program::{Fault, SegmentFault};
use recovery::RecoveryFault;
use runs::commands::CommandFault;
use runs::{RunFault, SimulationFault};
use segments::archiving::ArchiveFault;
use std::alloc::Global;
use std::fmt::{Display, Write};
use texts::{Mistake, ModelFault, SettingFault};
use upkeep::growing::GrowingFault;
use upkeep::inspection::InspectionFault;
use upkeep::migration::MigrateFault;
use upkeep::{CutFault, ReopenFault, SalvageFault, VerifyFault};
use wire::{PortFault, WireFault};

/// The names of faults as they are printed, and as they have to be, a line each.
#[derive(Drop)]
struct Names {
    printed: String,
    wanted: String,
}

impl Names {
    fn new(alloc: Global) -> Names {
        Names {
            printed: String::new(alloc),
            wanted: String::new(alloc),
        }
    }

    fn are_right(&self) -> bool {
        !self.wanted.is_empty() && self.printed.as_str() == self.wanted.as_str()
    }
}

/// Prints these, a line each.
fn put<T: Display>(text: &mut String, items: &[T]) {
    for item in items {
        let _ = writeln!(text, "{item}");
    }
}

/// Puts the faults of one enum and their names into `$names`. The match has no wildcard arm, so
/// that it does not compile if a variant has no row.
macro_rules! put_names {
    ($names:expr; $kind:ident {
        $($name:ident $(($($carried:tt)*))? $({ $($field:tt)* })? => $text:literal,)*
    }) => {{
        let faults = [$($kind::$name $(($($carried)*))? $({ $($field)* })?),*];
        match &faults[0] {
            $($kind::$name { .. } => {})*
        }
        put(&mut $names.printed, &faults);
        put(&mut $names.wanted, &[$($text),*]);
    }};
}

/// Puts the message and world faults into `names`.
fn put_message_and_world_faults(names: &mut Names) {
    put_names!(names; KeyFault {
        Short => "Short",
        TimeTooLarge => "TimeTooLarge",
        BadSign => "BadSign",
    });
    put_names!(names; WorldFault {
        NoMemory => "NoMemory",
        NumberLimit => "NumberLimit",
    });
}

#[test]
fn message_and_world_faults_have_names(rt: HostRuntime) {
    let mut names = Names::new(rt.alloc());
    put_message_and_world_faults(&mut names);
    assert!(rt; names.are_right());
}

/// Puts the node faults into `names`.
fn put_node_faults(names: &mut Names) {
    put_names!(names; ProcessFault {
        NotMine => "NotMine",
        BelowFloor => "BelowFloor",
        NoMemory => "NoMemory",
        NumberLimit => "NumberLimit",
        Spent => "Spent",
    });
    put_names!(names; NodeFault {
        NotMine => "NotMine",
        BelowFloor => "BelowFloor",
        NoMemory => "NoMemory",
        NumberLimit => "NumberLimit",
        Spent => "Spent",
        FloorFell => "FloorFell",
    });
    put_names!(names; LedgerFault {
        Busy => "Busy",
        Idle => "Idle",
        NoSuchNode => "NoSuchNode",
        NoSuchPick => "NoSuchPick",
        NoMemory => "NoMemory",
    });
}

#[test]
fn node_faults_have_names(rt: HostRuntime) {
    let mut names = Names::new(rt.alloc());
    put_node_faults(&mut names);
    assert!(rt; names.are_right());
}

/// Puts the port faults into `names`.
fn put_port_faults(names: &mut Names) {
    put_names!(names; WireFault {
        Truncated => "Truncated",
        TooLong => "TooLong",
        BadKind => "BadKind",
        BadBody => "BadBody",
        Io => "Io",
        NoMemory => "NoMemory",
    });
    put_names!(names; PortFault {
        Wire(WireFault::Io) => "Wire Io",
        Peer(NodeFault::FloorFell) => "Peer FloorFell",
        Closed => "Closed",
        BadReply => "BadReply",
    });
}

#[test]
fn port_faults_have_names(rt: HostRuntime) {
    let mut names = Names::new(rt.alloc());
    put_port_faults(&mut names);
    assert!(rt; names.are_right());
}

/// Puts the disk and log faults into `names`.
fn put_disk_and_log_faults(names: &mut Names) {
    put_names!(names; DiskFault {
        Device => "Device",
        NoSuchSector => "NoSuchSector",
    });
    put_names!(names; FileFault {
        File => "File",
        NoMemory => "NoMemory",
    });
    put_names!(names; GrowthFault {
        Fewer => "Fewer",
        TooMany => "TooMany",
        NoMemory => "NoMemory",
        Device => "Device",
    });
    put_names!(names; LogFault {
        NotBlank => "NotBlank",
        NotFormatted => "NotFormatted",
        Corrupt => "Corrupt",
        Full => "Full",
        TooLong => "TooLong",
        Disk(DiskFault::NoSuchSector) => "Disk NoSuchSector",
        NoMemory => "NoMemory",
        Spent => "Spent",
    });
}

#[test]
fn disk_and_log_faults_have_names(rt: HostRuntime) {
    let mut names = Names::new(rt.alloc());
    put_disk_and_log_faults(&mut names);
    assert!(rt; names.are_right());
}

/// Puts the recovery and upkeep faults into `names`.
fn put_recovery_and_upkeep_faults(names: &mut Names) {
    put_names!(names; RecoveryFault {
        OtherModel => "OtherModel",
        BadRecord => "BadRecord",
        NotTheLeast => "NotTheLeast",
        GoesBack => "GoesBack",
        BadCheckpoint => "BadCheckpoint",
        NoMemory => "NoMemory",
        NumberLimit => "NumberLimit",
        Log(LogFault::Corrupt) => "Log Corrupt",
        BadEnd => "BadEnd",
    });
    put_names!(names; InspectionFault {
        Log(LogFault::NotFormatted) => "Log NotFormatted",
        Recovery(RecoveryFault::OtherModel) => "Recovery OtherModel",
        Record { number: 0, fault: RecoveryFault::GoesBack } => "Record 0 GoesBack",
    });
    put_names!(names; VerifyFault {
        Log(LogFault::NotFormatted) => "Log NotFormatted",
        Recovery(RecoveryFault::OtherModel) => "Recovery OtherModel",
        Record { number: 0, fault: RecoveryFault::GoesBack } => "Record 0 GoesBack",
    });
    put_names!(names; ReopenFault {
        NotShut => "NotShut",
        Behind(VerifyFault::Log(LogFault::Full)) => "Log Full",
        Disk(DiskFault::Device) => "Disk Device",
        NoMemory => "NoMemory",
    });
    put_names!(names; CutFault {
        NothingToCut => "NothingToCut",
        Log(LogFault::Corrupt) => "Log Corrupt",
        Recovery(RecoveryFault::OtherModel) => "Recovery OtherModel",
        Disk(DiskFault::Device) => "Disk Device",
    });
    put_names!(names; SalvageFault {
        OtherModel => "OtherModel",
        Disk(DiskFault::Device) => "Disk Device",
        NoMemory => "NoMemory",
        New(LogFault::Full) => "New Full",
    });
    put_names!(names; GrowingFault {
        Recovery(RecoveryFault::OtherModel) => "OtherModel",
        Growth(GrowthFault::Device) => "Device",
    });
    put_names!(names; MigrateFault {
        NotEmpty => "NotEmpty",
        Old(RecoveryFault::OtherModel) => "Old OtherModel",
        New(LogFault::Full) => "New Full",
    });
}

#[test]
fn recovery_and_upkeep_faults_have_names(rt: HostRuntime) {
    let mut names = Names::new(rt.alloc());
    put_recovery_and_upkeep_faults(&mut names);
    assert!(rt; names.are_right());
}

/// Puts the session and run faults into `names`.
fn put_session_and_run_faults(names: &mut Names) {
    put_names!(names; SessionFault {
        Busy => "Busy",
        Idle => "Idle",
        NoSuchNode => "NoSuchNode",
        NoSuchPick => "NoSuchPick",
        Full => "Full",
        Port(PortFault::Closed) => "Port Closed",
        Disk => "Disk",
        NoMemory => "NoMemory",
        NumberLimit => "NumberLimit",
        TooLong => "TooLong",
        Recovery(RecoveryFault::OtherModel) => "Recovery OtherModel",
        Spent => "Spent",
        EndRefused => "EndRefused",
        Reports => "Reports",
    });
    put_names!(names; RunFault {
        Session(SessionFault::Full) => "Session Full",
        Rounds => "Rounds",
        Stopped { time: 7, events: 3 } => "Stopped",
        NoMemory => "NoMemory",
    });
}

#[test]
fn session_and_run_faults_have_names(rt: HostRuntime) {
    let mut names = Names::new(rt.alloc());
    put_session_and_run_faults(&mut names);
    assert!(rt; names.are_right());
}

/// Puts the model file faults into `names`.
fn put_model_file_faults(names: &mut Names) {
    put_names!(names; ModelFault {
        BadModel(Mistake::Toml) => "BadModel",
        NoMemory => "NoMemory",
    });
    put_names!(names; Mistake {
        Toml => "not TOML",
        Not { key: "model", expected: "ring" } => "model: not ring",
        Missing("hold") => "hold: missing",
        NoNumber("lps") => "lps: not a whole number",
        Outside { key: "lps", found: -1, least: 1, most: 1024 } =>
            "lps: -1 is not within 1 to 1024",
        Unknown => "a key that the model does not have",
    });
}

#[test]
fn model_file_faults_have_names(rt: HostRuntime) {
    let mut names = Names::new(rt.alloc());
    put_model_file_faults(&mut names);
    assert!(rt; names.are_right());
}

/// Puts the command and program faults into `names`.
fn put_command_and_program_faults(names: &mut Names) {
    put_names!(names; CommandFault {
        NoMemory => "NoMemory",
        Log(LogFault::Full) => "Log Full",
        Recovery(RecoveryFault::GoesBack) => "Recovery GoesBack",
        Session(SessionFault::Disk) => "Session Disk",
        Rounds => "Rounds",
        Stopped { time: 7, events: 3 } => "Stopped",
        Migrate(MigrateFault::NotEmpty) => "Migrate NotEmpty",
        Output => "Output",
    });
    put_names!(names; SimulationFault {
        File => "File",
        Log(LogFault::Full) => "Log Full",
        Recovery(RecoveryFault::GoesBack) => "Recovery GoesBack",
        Session(SessionFault::Disk) => "Session Disk",
        Rounds => "Rounds",
        Stopped => "Stopped",
        World(WorldFault::NumberLimit) => "World NumberLimit",
        NoMemory => "NoMemory",
        Output => "Output",
    });
    put_names!(names; ArchiveFault {
        File => "File",
        Full => "Full",
        TooLong => "TooLong",
        NotTheNext => "NotTheNext",
        Recovery(RecoveryFault::OtherModel) => "OtherModel",
        Log(LogFault::NotBlank) => "NotBlank",
        NoMemory => "NoMemory",
    });
    put_names!(names; Fault {
        BadModel => "BadModel",
        File => "File",
        World(WorldFault::NumberLimit) => "World NumberLimit",
        Log(LogFault::NotBlank) => "Log NotBlank",
        Recovery(RecoveryFault::OtherModel) => "Recovery OtherModel",
        Session(SessionFault::Full) => "Session Full",
        Wire(WireFault::BadKind) => "Wire BadKind",
        OtherModel => "OtherModel",
        OtherNode { node: 1 } => "Node 1 OtherModel",
        Rounds => "Rounds",
        Stopped => "Stopped",
        Migrate(MigrateFault::Old(RecoveryFault::BadEnd)) => "Migrate Old BadEnd",
        Grow(GrowthFault::Fewer) => "Grow Fewer",
        Shut => "Shut",
        Reopen(ReopenFault::NotShut) => "Reopen NotShut",
        Recover(LogFault::Full) => "Recover New Full",
        NothingToCut => "NothingToCut",
        Record { number: 7, fault: RecoveryFault::BadRecord } => "Record 7 BadRecord",
        BadTrace => "BadTrace",
        Mistake(Mistake::Missing("hold")) => "hold: missing",
        NoSuchProcess { processes: 3 } => "NoSuchProcess",
        NoSuchWord => "NoSuchWord",
        NoMemory => "NoMemory",
        Output => "Output",
        Segment(SegmentFault::TooLong) => "Segment TooLong",
        Setting(SettingFault::NoSuchKey(2)) => "Setting 2 NoSuchKey",
    });
    put_names!(names; SettingFault {
        NoSuchKey(1) => "1 NoSuchKey",
        OtherKind(3) => "3 OtherKind",
    });
    put_names!(names; SegmentFault {
        NotTheNext => "NotTheNext",
        TooLong => "TooLong",
    });
}

#[test]
fn command_and_program_faults_have_names(rt: HostRuntime) {
    let mut names = Names::new(rt.alloc());
    put_command_and_program_faults(&mut names);
    assert!(rt; names.are_right());
}
