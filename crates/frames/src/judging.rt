// Ports that compare what their nodes report with a model.

mod differences;
mod known;
mod port;
mod ports;
mod sends;

pub use differences::{Differences, ReportDifference};
pub use port::Judged;
pub use ports::judged_ports;
