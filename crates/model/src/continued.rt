// Models whose simulation goes on from another one.

ghost use Rattle.std.specs.Prelude.{◌≡◌};
ghost use Rattle.std.specs.Option.{option_map};
ghost use Rattle.model.specs.Lawful.{begin_prop};
ghost use Rattle.model.specs.Meaning.{CanBegin};

use crate::origin::Origin;
use crate::{Model as Simulated, Sends, Words};
use eventkey::Message;
use smallvec::SmallVec;
use std::alloc::Global;

/// A model whose simulation begins with an origin. Without one it is the model itself. It owns
/// neither of the two.
#[derive(Drop)]
pub struct Continued<'m, M: Simulated> {
    /// The model.
    pub model: &'m M,
    /// The origin.
    pub origin: Option<&'m Origin>,
    pub ghost sound: { CanBegin (M.meaning model.now).lps (option_map (λ o. o.now) origin) } by { begin_prop (M.meaning model.now).lps (option_map (λ o. o.now) origin) },
}

impl<'m, M: Simulated> Continued<'m, M> {
    /// Returns the model whose simulation begins with this origin, or the model itself if there is
    /// none. It does not allocate.
    pub fn new(model: &'m M, origin: Option<&'m Origin>) -> Continued<'m, M>
        requires { CanBegin (M.meaning model.now).lps (option_map (λ o. o.now) origin) }
        ensures model { result.model.now ≡ model.now }
        ensures origin { option_map (λ o. o.now) result.origin ≡ option_map (λ o. o.now) origin.entry }
    {
        Continued { model, origin }
    }
}

impl<'m, M: Simulated> Simulated for Continued<'m, M> {
    ghost use Rattle.model.specs.Origins.{continued};
    ghost use Rattle.model.specs.Lawful.{continued_lawful};
    ghost use Rattle.std.specs.Option.{option_map};

    ghost meaning = { λ c. continued (M.meaning c.model.now) (option_map (λ o. o.now) c.origin) };

    ghost lawful = { λ c. continued_lawful (M.meaning c.model.now)
        (option_map (λ o. o.now) c.origin) (M.lawful c.model.now) c.sound };

    fn lps(&self) -> u32 {
        self.model.lps()
    }

    fn identity(&self, alloc: Global) -> SmallVec<u64, 8> {
        self.model.identity(alloc)
    }

    fn origin(&self) -> Option<&Origin> {
        match self.origin {
            Some(origin) => Some(origin),
            None => self.model.origin(),
        }
    }

    fn start(&self, alloc: Global, lp: u32) -> (Words, Sends) {
        self.model.start(alloc, lp)
    }

    fn handle(&self, alloc: Global, lp: u32, state: &Words, message: &Message) -> (Words, Sends) {
        self.model.handle(alloc, lp, state, message)
    }

    fn handle_into(
        &self,
        alloc: Global,
        lp: u32,
        state: &Words,
        message: &Message,
        next: &mut Words,
        sends: &mut Sends,
    ) {
        self.model
            .handle_into(alloc, lp, state, message, next, sends);
    }
}
