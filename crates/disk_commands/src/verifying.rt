// The course of a verification.

use terminal::Progress;
use upkeep::{Verified, VerifyWatch};
use views::Shows;

/// Passes what is verified on to a `Progress`.
#[derive(Drop)]
pub struct Verifying<'p, P> {
    /// What it is passed on to.
    pub progress: &'p mut P,
}

impl<P: Progress> VerifyWatch for Verifying<'_, P> {
    fn begins(&mut self, end: u64) {
        self.progress.begin(end);
    }

    fn verified(&mut self, seen: Verified) {
        self.progress.committed(seen.time, seen.events as usize);
    }
}

impl<P: Progress> Shows for Verifying<'_, P> {
    fn clear(&mut self) {
        self.progress.clear();
    }
}
