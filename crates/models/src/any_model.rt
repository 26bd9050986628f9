// The models that a model file can name.

use crate::job_shop::JobShop;
use crate::parallel_hold::Phold;
use crate::ring::TokenRing;
use eventkey::Message;
use model::{Model as Simulated, Origin, Sends, Words};
use smallvec::SmallVec;
use std::alloc::Global;

/// One of the models that a model file can name.
#[derive(Clone, Copy, Debug, PartialEq, Eq)]
pub enum AnyModel {
    /// Processes in a ring that hand tokens round.
    TokenRing(TokenRing),
    /// Processes that send each message on to a drawn process.
    Phold(Phold),
    /// Machines in a ring that serve jobs and send them on.
    JobShop(JobShop),
}

impl Simulated for AnyModel {
    ghost use Rattle.models.specs.Any.{any_lawful, any_meaning};

    ghost meaning = { any_meaning };

    ghost lawful = { any_lawful };

    fn lps(&self) -> u32 {
        match self {
            AnyModel::TokenRing(ring) => ring.lps(),
            AnyModel::Phold(hold) => hold.lps(),
            AnyModel::JobShop(shop) => shop.lps(),
        }
    }

    fn identity(&self, alloc: Global) -> SmallVec<u64, 8> {
        match self {
            AnyModel::TokenRing(ring) => ring.identity(alloc),
            AnyModel::Phold(hold) => hold.identity(alloc),
            AnyModel::JobShop(shop) => shop.identity(alloc),
        }
    }

    fn origin(&self) -> Option<&Origin> {
        match self {
            AnyModel::TokenRing(ring) => ring.origin(),
            AnyModel::Phold(hold) => hold.origin(),
            AnyModel::JobShop(shop) => shop.origin(),
        }
    }

    fn start(&self, alloc: Global, lp: u32) -> (Words, Sends) {
        match self {
            AnyModel::TokenRing(ring) => ring.start(alloc, lp),
            AnyModel::Phold(hold) => hold.start(alloc, lp),
            AnyModel::JobShop(shop) => shop.start(alloc, lp),
        }
    }

    fn handle(&self, alloc: Global, lp: u32, state: &Words, message: &Message) -> (Words, Sends) {
        match self {
            AnyModel::TokenRing(ring) => ring.handle(alloc, lp, state, message),
            AnyModel::Phold(hold) => hold.handle(alloc, lp, state, message),
            AnyModel::JobShop(shop) => shop.handle(alloc, lp, state, message),
        }
    }

    fn handle_into(
        &self,
        alloc: Global,
        lp: u32,
        state: &Words,
        message: &Message,
        next: &mut Words,
        sends: &mut Sends,
    ) {
        match self {
            AnyModel::TokenRing(ring) => ring.handle_into(alloc, lp, state, message, next, sends),
            AnyModel::Phold(hold) => hold.handle_into(alloc, lp, state, message, next, sends),
            AnyModel::JobShop(shop) => shop.handle_into(alloc, lp, state, message, next, sends),
        }
    }
}
