// Models that the plain runner runs to their end. A run prints the number of events and a digest of
// the world.

ghost use Rattle.std.specs.Prelude.{◌≤◌, ◌^◌, IfOk};

use crate::failure::Failure;
use eventkey::Message;
use model::{Model as Simulated, World, WorldFault};
use models::AnyModel;
use rule_files::FileModel;
use std::alloc::Global;
use std::fs;
use texts::{Described, read_model};

/// The model of a model file, and its end in ticks.
pub fn read<M: Described>(rt: &HostRuntime, path: &str) -> Result<(M, u64), Failure>
    ensures some { IfOk result (λ file. 1 ≤ file.1) }
    ensures end { IfOk result (λ file. file.1 ≤ 2 ^ 40) }
{
    let bytes = fs::read(rt, path).map_err(|_| Failure::Usage)?;
    let text = str::from_utf8(bytes.as_slice()).map_err(|_| Failure::Usage)?;
    match read_model(rt.alloc(), text) {
        Ok(file) => Ok(file),
        Err(fault) => Err(Failure::Model(fault)),
    }
}

/// The world of a model, run to its end.
fn simulated<M: Simulated>(alloc: Global, model: &M, end: u64) -> Result<World, WorldFault>
    requires some { 1 ≤ end }
    requires end { end ≤ 2 ^ 40 }
{
    let mut world = World::open(alloc, model, end)?;
    world.run_to(model, end)?;
    Ok(world)
}

/// The world of the model in a file's model, run to its end as a program of its own would run it.
fn simulated_as_itself(alloc: Global, model: &FileModel, end: u64) -> Result<World, WorldFault>
    requires some { 1 ≤ end }
    requires end { end ≤ 2 ^ 40 }
{
    match model {
        FileModel::Rules(rules, _) => simulated(alloc, rules, end),
        FileModel::BuiltIn(AnyModel::TokenRing(ring)) => simulated(alloc, ring, end),
        FileModel::BuiltIn(AnyModel::Phold(hold)) => simulated(alloc, hold, end),
        FileModel::BuiltIn(AnyModel::JobShop(shop)) => simulated(alloc, shop, end),
    }
}

/// The digest after one more number.
fn with(digest: u64, number: u64) -> u64 {
    (digest ^ number).wrapping_mul(1099511628211)
}

/// The digest after these messages.
fn with_messages(mut digest: u64, messages: &[Message]) -> u64 {
    for x in messages {
        digest = with(with(digest, x.time()), u64::from(x.from()));
        digest = with(with(digest, x.number()), u64::from(x.to()));
        digest = with(with(digest, x.a()), x.b());
        digest = with(with(digest, x.c()), x.d());
    }
    digest
}

/// The digest of the states.
fn digest_of(world: &World) -> u64 {
    let mut digest = 14695981039346656037;
    for state in world.states() {
        for word in state.as_slice() {
            digest = with(digest, *word);
        }
    }
    digest
}

/// The digest of the states, the send numbers and the pending messages.
fn digest_with_pending(world: &mut World) -> u64 {
    let mut digest = digest_of(world);
    for number in world.numbers() {
        digest = with(digest, *number);
    }
    with_messages(digest, world.pending())
}

/// Runs the model of a model file. `benchmarks/runner` times this.
pub fn run(rt: &HostRuntime, path: &str) -> Result<(), Failure> {
    let (model, end) = match read::<AnyModel>(rt, path) {
        Ok(file) => file,
        Err(failure) => return Err(failure),
    };
    let mut world = simulated(rt.alloc(), &model, end).map_err(Failure::World)?;
    let digest = digest_with_pending(&mut world);
    let last = world.log().last().map_or(0, |m| m.to());
    println!(rt; "events {} last {last} world {digest}", world.log().len()).map_err(Failure::Output)
}

/// Runs a model by rules, or a built-in one, and prints a digest of the log too.
/// `benchmarks/rules` times this.
pub fn run_rules(rt: &HostRuntime, path: &str) -> Result<(), Failure> {
    let (model, end) = read::<FileModel>(rt, path)?;
    let world = simulated_as_itself(rt.alloc(), &model, end).map_err(Failure::World)?;
    let digest = with_messages(digest_of(&world), world.log());
    println!(rt; "events {} digest {digest}", world.log().len()).map_err(Failure::Output)
}
