//! What the threads share.
ghost use Rattle.std.specs.Prelude.{◌≡◌};
ghost use Rattle.srcu.specs.Words.{AreBoxesOf, IsCellOf};

use srcu::{Boxes, Chain, ChainView, Live, Refusal, Stop, Table, TableView};
use std::sync::atomic::Ordering::SeqCst;
use std::sync::atomic::{AtomicBool, AtomicU64};
use std::thread::sleep;
use std::time::{Clock, Duration};

/// What comes of a call.
pub type Try<T> = Result<T, Refusal>;

/// A job is the number of a policy that was replaced.
pub type Worker<'a> = srcu::Worker<'a, u64>;

pub type Team<'a> = srcu::Team<'a, u64>;

/// What is done with packets of whose port no rule speaks: whether they pass.
#[derive(Drop)]
pub struct Policy {
    pub number: u64,
    pub passes: bool,
}

/// What a thread reads the policy with.
pub type Reader = Boxes<Policy>;

/// What the control thread alone writes: the rules, and the chain of the subscribers, both of one domain.
#[derive(Drop)]
pub struct Tools {
    pub rules: Table,
    pub chain: Chain,
    pub hears: ChainView,
    ghost both: { (chain.ids ≡ 2) × (hears.ids ≡ 2) },
}

/// The port whose rule is changed.
pub const PORT: u32 = 7;

/// What the filter reads, the sign that ends the driver, and what threads tell each other.
#[derive(Drop)]
pub struct Shared {
    pub rules: TableView,
    pub policy: Live<Policy>,
    pub stop: Stop<u64>,
    pub host: HostRuntime,
    /// How many packets passed by the old rules, and by the new ones.
    pub by_old: AtomicU64,
    pub by_new: AtomicU64,
    /// How many policies were filed, whether the old rules were read, and whether the new ones are there.
    pub filed: AtomicU64,
    pub old: AtomicBool,
    pub new: AtomicBool,
    ghost rules_here: { IsCellOf stop.domain rules },
    ghost policy_here: { AreBoxesOf stop.domain policy.boxes },
}

impl Shared {
    /// Files a policy that no section reads any more.
    pub fn file(&self) {
        self.filed.fetch_add(1, SeqCst);
    }

    /// Waits until another thread has come so far, for ten seconds at most: it may not have been started.
    pub fn wait_for<R: Clock>(&self, rt: &R, sign: &AtomicBool) -> Try<()> {
        for _ in 0..10_000 {
            if sign.load(SeqCst) {
                return Ok(());
            }
            sleep(rt, Duration::from_millis(1));
        }
        Err(Refusal::TimedOut)
    }
}
