// The ports of a session, one per node.

ghost use Rattle.std.specs.Prelude.{◌≡◌, ◌<◌, ◌≤◌, ◌^◌, map, length, nat_lt};
ghost use Rattle.std.specs.List.{list_all};
ghost use Rattle.node.specs.declared.Parcel.{Parcel};
ghost use Rattle.wire.specs.Port.Stage.{Idle, Posted};
ghost use Rattle.gvt.specs.Replies.{is_reported_there, names_there};
ghost use Rattle.eventkey.specs.declared.Signed.{Signed};
ghost use Rattle.coordinator.specs.Ports.{IsPost, IsTake, PortChanges};
ghost use Rattle.coordinator.specs.Session.{port_at};

use eventkey::Signed;
use node::{Parcel, Reply};
use process::{Report, Reports};
use wire::{Port, PortFault};

/// Posts a parcel to the node at this place.
pub(crate) fn post<P: Port>(
    ports: &mut Vec<P>,
    node: usize,
    parcel: Parcel,
) -> Result<(), PortFault>
    requires there { node < length ports.old.items }
    requires idle { (port_at (map P.state ports.old.items) node).stage ≡ Idle }
    requires range { parcel.floor ≤ 2 ^ 40 }
    ensures many { length ports.new.items ≡ length ports.old.items }
    ensures changes { PortChanges (IsPost parcel result) (map P.state ports.old.items)
        (map P.state ports.new.items) node }
{
    let port = &mut ports[node];
    port.post(parcel)
}

/// Asks the node at this place for its reply.
pub(crate) fn take<P: Port>(ports: &mut Vec<P>, node: usize) -> Result<Reply, PortFault>
    requires there { node < length ports.old.items }
    requires posted { (parcel : Parcel) × ((port_at (map P.state ports.old.items) node).stage
        ≡ Posted parcel) }
    ensures many { length ports.new.items ≡ length ports.old.items }
    ensures changes { PortChanges (IsTake result) (map P.state ports.old.items)
        (map P.state ports.new.items) node }
{
    let port = &mut ports[node];
    port.take()
}

/// Returns whether every receiver in a node's reply is a process of the model, and every handling
/// that the reply reports is of a process of this node.
pub(crate) fn names_valid_processes(reply: &Reply, lps: u32, nodes: usize, node: usize) -> bool
    requires { 0 < nodes }
    ensures { result ≡ names_there lps nodes node reply.now }
{
    are_sent_there(reply.out.as_slice(), lps)
        && are_reported_there(&reply.fossils, lps, nodes, node)
}

/// Returns whether all receivers are processes of the model.
fn are_sent_there(out: &[Signed], lps: u32) -> bool
    ensures { result ≡ list_all (λ (s : Signed). nat_lt s.message.to lps) out.now }
{
    out.iter().all(|signed| signed.message.to() < lps)
}

/// Returns whether this handling is of a process of this node, and all receivers of what it sent
/// are processes of the model.
fn is_reported_there(report: &Report<'_>, lps: u32, nodes: usize, node: usize) -> bool
    requires { 0 < nodes }
    ensures { result ≡ is_reported_there lps nodes node report.now }
{
    let to = report.message().to();
    to < lps && to as usize % nodes == node && report.are_sent_below(lps)
}

/// Returns whether all these handlings are of processes of this node, and all receivers of what
/// they sent are processes of the model.
fn are_reported_there(fossils: &Reports, lps: u32, nodes: usize, node: usize) -> bool
    requires { 0 < nodes }
    ensures { result ≡ list_all (is_reported_there lps nodes node) fossils.now }
{
    let mut left = fossils.iter();
    while let Some(report) = left.next() {
        if !is_reported_there(&report, lps, nodes, node) {
            return false;
        }
    }
    true
}
