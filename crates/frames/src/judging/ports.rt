// Ports that judge, over those of a run.

ghost use Rattle.std.specs.Prelude.{◌≡◌, IfOk, map};
ghost use Rattle.frames.specs.Judged.{new_judge};

use crate::judging::differences::Differences;
use crate::judging::port::Judged;
use model::Model as Simulated;
use std::alloc::{AllocError, Global};
use wire::Port;

/// Returns ports that judge by this model what the nodes behind these ports report, one report in
/// `every` of each process, or none if `every` is 0. `differences`, if it is given, keeps of which
/// event the first report is that one of them refuses.
pub fn judged_ports<'m, M: Simulated, P: Port + Drop>(
    alloc: Global,
    model: &'m M,
    every: u32,
    differences: Option<&'m Differences>,
    ports: Vec<P>,
) -> Result<Vec<Judged<'m, M, P>>, AllocError>
    ensures { IfOk result (λ judged.
        judged.items ≡ map (λ p. new_judge model.now every p) ports.items) }
{
    let mut judged = Vec::with_capacity(alloc, ports.len())?;
    'ports: for port in ports {
        judged.push(Judged::new(alloc, model, port, every).noting(differences))?;
    }
    Ok(judged)
}
