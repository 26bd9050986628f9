// A job shop: machines in a ring that serve jobs one after another.

ghost use Rattle.std.specs.Prelude.{◌≡◌, ◌≤◌, ◌<◌, ◌^◌, [], ◌∷◌, map, slice_index};
ghost use Rattle.model.specs.World.{below};
ghost use Rattle.models.specs.JobShop.{IsShop, Shop, first_job, shop_meaning};
ghost use Rattle.models.specs.ShopLaws.{shop_lawful};

use crate::words::{next_key, word};
use eventkey::Message;
use model::{Model as Simulated, Origin, Outgoing, Sends, Words};
use smallvec::SmallVec;
use std::alloc::Global;
use std::marker::Model;

/// A job shop (a model of this project): machines in a ring that serve jobs one after another.
///
/// A machine serves one job at a time, in the order of arrival, for 1 to `service` ticks by a drawn
/// word, and then sends it to the next machine. Each machine starts with `jobs` jobs, which arrive
/// one per tick from time 1 on. A job that would leave more than 2^32 - 1 ticks after its arrival
/// is turned away. The state is the time at which the machine is free, how many jobs it has served,
/// how many ticks they waited in all, how many jobs it has turned away, and the key of the next
/// words. A message's content is the job's number and how many machines have served it.
#[derive(Clone, Copy, Debug, PartialEq, Eq)]
pub struct JobShop {
    lps: u32,
    jobs: u32,
    service: u32,
    seed: u64,
    ghost good: { IsShop (record { lps = lps; jobs = jobs; service = service; seed = seed }) },
}

impl Model for JobShop {
    ghost use Rattle.models.specs.JobShop.{GoodShop};

    ghost Value = { GoodShop };

    ghost view = { λ s. record {
      shop = record { lps = s.lps; jobs = s.jobs; service = s.service; seed = s.seed };
      good = s.good;
    } };

    ghost inverse = { λ v. record {
      lps = v.shop.lps;
      jobs = v.shop.jobs;
      service = v.shop.service;
      seed = v.shop.seed;
      good = v.good;
    } };
}

impl JobShop {
    /// Makes a job shop of `lps` machines, 1 to 1,024, each with `jobs` jobs, 1 to 8, that serve a
    /// job for 1 to `service` ticks, `service` at least 1. The key of the first words is `seed`,
    /// below 2^63.
    pub fn new(lps: u32, jobs: u32, service: u32, seed: u64) -> JobShop
        requires some { 1 ≤ lps }
        requires few { lps ≤ 1024 }
        requires some_jobs { 1 ≤ jobs }
        requires few_jobs { jobs ≤ 8 }
        requires some_service { 1 ≤ service }
        requires seed { seed < 2 ^ 63 }
        ensures { result.shop ≡ record { lps = lps; jobs = jobs; service = service; seed = seed } }
    {
        JobShop {
            lps,
            jobs,
            service,
            seed,
        }
    }

    /// Returns how many jobs each machine starts with.
    pub fn jobs(&self) -> u32
        ensures { result ≡ self.now.shop.jobs }
    {
        self.jobs
    }

    /// Returns the most ticks for which a machine serves a job.
    pub fn service(&self) -> u32
        ensures { result ≡ self.now.shop.service }
    {
        self.service
    }

    /// Returns the seed of the drawn words.
    pub fn seed(&self) -> u64
        ensures { result ≡ self.now.shop.seed }
    {
        self.seed
    }

    /// Returns the sends by which a machine starts: its first jobs.
    fn first_sends(&self, alloc: Global, lp: u32) -> Sends
        requires { lp < self.now.shop.lps }
        ensures { result.items ≡ map (first_job self.now.shop lp) (below self.now.shop.jobs) }
    {
        let mut sends = SmallVec::new(alloc);
        'sends: for k in 0..self.jobs {
            sends.push_reserved(Outgoing {
                to: lp,
                delay: 1 + k,
                a: u64::from(lp) * u64::from(self.jobs) + u64::from(k),
                b: 0,
                c: 0,
                d: 0,
            });
        }
        sends
    }
}

/// The state of a machine: the words of its process, where a missing word counts as 0.
#[derive(Clone, Copy)]
struct Machine {
    free_at: u64,
    served: u64,
    waited: u64,
    turned_away: u64,
    key: u64,
}

impl Simulated for JobShop {
    ghost meaning = { λ s. shop_meaning s.shop };

    ghost lawful = { shop_lawful };

    fn lps(&self) -> u32 {
        self.lps
    }

    fn identity(&self, alloc: Global) -> SmallVec<u64, 8> {
        let mut words = SmallVec::new(alloc);
        words.push_reserved(3);
        words.push_reserved(u64::from(self.jobs));
        words.push_reserved(u64::from(self.service));
        words.push_reserved(self.seed);
        words
    }

    fn origin(&self) -> Option<&Origin> {
        None
    }

    fn start(&self, alloc: Global, lp: u32) -> (Words, Sends) {
        let machine = Machine {
            free_at: 0,
            served: 0,
            waited: 0,
            turned_away: 0,
            key: next_key(self.seed, lp, 0),
        };
        let mut words = SmallVec::new(alloc);
        machine.write(&mut words);
        (words, self.first_sends(alloc, lp))
    }

    fn handle(&self, alloc: Global, lp: u32, state: &Words, message: &Message) -> (Words, Sends) {
        let mut next = SmallVec::new(alloc);
        let mut sends = SmallVec::new(alloc);
        self.handle_into(alloc, lp, state, message, &mut next, &mut sends);
        (next, sends)
    }

    fn handle_into(
        &self,
        _alloc: Global,
        lp: u32,
        state: &Words,
        message: &Message,
        next: &mut Words,
        sends: &mut Sends,
    ) {
        let mut machine = Machine::of(state.as_slice());
        message.ranged();
        let time = message.time();
        let begun = time.max(machine.free_at);
        let work = 1 + u64::from(word(machine.key, lp, 0) % self.service);
        machine.key = next_key(machine.key, lp, 1);
        // A sum that overflows is above every delay, so it may saturate.
        match u32::try_from((begun - time).saturating_add(work)) {
            Ok(delay) => {
                machine.free_at = begun + work;
                machine.served = machine.served.saturating_add(1);
                machine.waited = machine.waited.saturating_add(begun - time);
                sends.push_reserved(Outgoing {
                    to: (lp + 1) % self.lps,
                    delay,
                    a: message.a(),
                    b: message.b().wrapping_add(1),
                    c: message.c(),
                    d: message.d(),
                });
            }
            Err(_) => machine.turned_away = machine.turned_away.saturating_add(1),
        }
        machine.write(next);
    }
}

impl Machine {
    fn of(words: &[u64]) -> Machine
        ensures { result ≡ record {
          free_at = slice_index words.now 0;
          served = slice_index words.now 1;
          waited = slice_index words.now 2;
          turned_away = slice_index words.now 3;
          key = slice_index words.now 4;
        } }
    {
        let word = |i: usize| words.get(i).copied().unwrap_or(0);
        Machine {
            free_at: word(0),
            served: word(1),
            waited: word(2),
            turned_away: word(3),
            key: word(4),
        }
    }

    /// Writes the words into an empty list.
    fn write(self, words: &mut Words)
        requires { (words.old.items ≡ []) × (16 ≤ words.old.capacity) }
        ensures { words.new.items ≡ self.free_at ∷ self.served ∷ self.waited
            ∷ self.turned_away ∷ self.key ∷ [] }
    {
        words.push_reserved(self.free_at);
        words.push_reserved(self.served);
        words.push_reserved(self.waited);
        words.push_reserved(self.turned_away);
        words.push_reserved(self.key);
    }
}
