//! `soak` has nine threads do all that a domain is for, at once and for as long as one likes: they open, hold, hand over
//! and close sections, use devices that come and go, ask and wait for grace periods, queue jobs and run them, and wait for
//! barriers. In the end the domain is taken down, and what it then tells is compared with what the threads counted.
#![tactic(auto)]

ghost use Rattle.std.specs.Prelude.{◌≡◌, IfOk};
ghost use Rattle.std.specs.Process.{exit_status};
ghost use Rattle.soak.specs.Outcomes.{IsExact};

mod boxing;
mod command_line;
mod counts;
mod devices;
mod driving;
mod outcome;
mod run;
mod signs;
mod tables;
#[cfg(test)]
mod tests;
mod updating;
mod worker;

use anyhow::Result;
use command_line::length_of;
use outcome::Outcome;
use run::run;
use std::env;
use std::process::ExitCode;
use std::rt::Env;
use std::sync::Wait;
use std::thread::Threads;
use std::time::Clock;
use worker::Length;

/// The status of a run whose command line can't be read.
const MISUSED: u8 = 2;

/// Prints what a run came to, and answers the status for it. Some of it depends on the threads: that is left out where
/// each does a fixed number of rounds, so that each such run prints the same.
fn tell<R: Print + AllocGlobal>(rt: &R, length: Length, outcome: &Outcome) -> Result<ExitCode>
    ensures { IfOk result (λ s. exit_status s ≡ 0 → IsExact outcome.now) }
{
    if let Length::Seconds(seconds) = length {
        println!(rt; "seconds: {seconds}")?;
        println!(rt; "sections handed over: {}", outcome.counts.handed)?;
        println!(rt; "boxes put: {}", outcome.counts.boxes)?;
        println!(rt; "devices inserted: {}", outcome.counts.devices)?;
        println!(rt; "uses of devices: {}", outcome.counts.used)?;
        if let Ok(totals) = outcome.totals {
            println!(rt; "grace periods: {}", totals.periods)?;
        }
    }
    println!(rt; "{outcome}")?;
    Ok(outcome.status())
}

/// Does what the words of the command line ask for.
fn act<R: Threads + Sync + Wait + Clock + Env + Print + Eprint + AllocGlobal>(
    rt: &R,
) -> Result<ExitCode> {
    let words: Vec<String> = env::args(rt)?.skip(1).collect(rt.alloc())?;
    let Some(length) = length_of(words.as_slice()) else {
        eprintln!(rt; "usage: soak [SECONDS]")?;
        return Ok(ExitCode::from(MISUSED));
    };
    tell(rt, length, &run(rt, length)?)
}

fn main(rt: HostRuntime) -> Result<ExitCode> {
    act(&rt)
}
