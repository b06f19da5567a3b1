//! Asking for grace periods: a new tree of needs, and a thread for each of its processors.
ghost use Rattle.std.specs.Prelude.{◌≡◌, ◌*◌, ◌+◌, ◌^◌, ◌≤◌, true, false, All, IfOk};
ghost use Rattle.srcubench.specs.Asking.{asked_number, CanAsk, AsksAll, HasAskedAll, HaveAskedAll, AreAskersOfOne, HasAskedAlone};

use crate::work::Timed;
use anyhow::Result;
use funnel::FunnelSeat;
use sseq::Number;
use std::alloc::{AllocError, Allocator};
use std::thread;
use std::thread::Threads;
use std::time::{Clock, Duration, Instant};

/// The number of one of so many asks: each time a new one, which is greater than those before, or always the same one,
/// which is there from the first ask on.
fn number_asked(new: bool, asked: u64) -> Number
    requires { asked ≤ 2 ^ 54 }
    ensures { result ≡ asked_number new asked }
{
    let period = if new { asked + 1 } else { 1 };
    Number::new(4 * period).unwrap()
}

/// Asks so many times.
pub fn make_asks<A: Allocator>(needs: &mut FunnelSeat<A>, asks: u64, new: bool)
    requires { CanAsk asks needs.old }
    ensures { AsksAll new asks needs.old needs.new }
{
    for asked in 0..asks {
        needs.ask(number_asked(new, asked));
    }
}

/// A processor that asked, and how often.
#[derive(Drop)]
pub struct Asker {
    pub needs: FunnelSeat,
    pub asked: u64,
}

/// Asks so many times with a new seat, each time for a number that is new.
fn ask_anew(mut needs: FunnelSeat, asks: u64) -> Asker
    requires { CanAsk asks needs }
    ensures { HasAskedAll true asks needs result }
{
    make_asks(&mut needs, asks, true);
    Asker { needs, asked: asks }
}

/// The same, each time for a number that is there.
fn ask_again(mut needs: FunnelSeat, asks: u64) -> Asker
    requires { CanAsk asks needs }
    ensures { HasAskedAll false asks needs result }
{
    make_asks(&mut needs, asks, false);
    Asker { needs, asked: asks }
}

/// What threads did that were started together.
#[derive(Drop)]
pub struct Trial {
    /// The seat of each of them.
    pub askers: Vec<Asker>,
    /// From before the first one's start until all had ended.
    pub elapsed: Duration,
}

/// Has each processor ask so many times in a thread of its own.
fn ask_at_once<R: Threads + Sync>(
    rt: &R,
    seats: Vec<FunnelSeat>,
    asks: u64,
    new: bool,
) -> Result<Vec<Asker>, AllocError>
    requires { All (CanAsk asks) seats.items }
    ensures { IfOk result (λ askers. HaveAskedAll new asks seats.items askers.items) }
{
    if new {
        thread::map_vec(rt, seats, &|needs| ask_anew(needs, asks))
    } else {
        thread::map_vec(rt, seats, &|needs| ask_again(needs, asks))
    }
}

/// Asks so many times in each of the threads. Its `elapsed` is what the clock told, of which no clause speaks.
pub fn run<R: Threads + Sync + Clock + AllocGlobal>(
    rt: &R,
    threads: usize,
    asks: u64,
    new: bool,
) -> Result<Trial>
    requires few { asks ≤ 2 ^ 54 }
    requires threads { threads ≤ 2 ^ 16 }
    ensures { IfOk result (λ trial. AreAskersOfOne threads new asks trial.askers.items) }
{
    let (seats, _engine) = funnel::make(rt.alloc(), threads)?;
    let start = Instant::now(rt)?;
    let askers = ask_at_once(rt, seats, asks, new)?;
    let elapsed = start.elapsed(rt)?;
    Ok(Trial { askers, elapsed })
}

/// Has one processor of a new tree of so many ask so many times, while no other asks. Its `elapsed` is what the clock told,
/// of which no clause speaks.
pub fn run_alone<R: Clock + AllocGlobal>(
    rt: &R,
    processors: usize,
    asks: u64,
    new: bool,
) -> Result<Timed>
    requires few { asks ≤ 2 ^ 54 }
    requires processors { (1 ≤ processors) × (processors ≤ 2 ^ 16) }
    ensures done { IfOk result (λ timed. timed.done ≡ asks) }
    ensures asked { IfOk result (λ _. HasAskedAlone processors new asks) }
{
    let (mut seats, _engine) = funnel::make(rt.alloc(), processors)?;
    let mut needs = seats.pop().unwrap();
    let start = Instant::now(rt)?;
    make_asks(&mut needs, asks, new);
    let elapsed = start.elapsed(rt)?;
    Ok(Timed {
        done: asks,
        elapsed,
    })
}
