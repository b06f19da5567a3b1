//! Sections that find a version and read words of it.
ghost use Rattle.std.specs.Prelude.{◌≡◌, ◌≤◌, ◌<◌, ◌⊎◌, All, IfOk, MatchResult};
ghost use Rattle.sections.specs.Words.{cells_in};
ghost use Rattle.sections.specs.Calls.{LooksInVain};
ghost use Rattle.sections.specs.Reads.{IsPinned};
ghost use Rattle.srcubench.specs.Finding.{ReadsWords, LooksUp, FindsOnce, FindsAll, StopsFinding, CanFind, HasFoundAll, HaveFoundAll, AreFindersOfOne};

use crate::pairs::Reader;
use crate::trial::Trial;
use anyhow::Result;
use sections::{Cpu, Exhausted, Limits, Made, Pin, Reading, make};
use std::alloc::{AllocError, Allocator};
use std::thread;
use std::thread::Threads;
use std::time::{Clock, Instant};

/// Loads so many words of the version that the pin found.
fn read_words<A: Allocator>(cpu: &mut Cpu<A>, pin: &mut Pin<'_>, words: usize)
    requires here { pin.old.section.now.domain ≡ cpu.old.domain }
    requires pinned { IsPinned pin.old.section.now pin.old.found }
    requires words { words ≤ 16 }
    ensures reads { ReadsWords words pin.old.section.now pin.old.found cpu.old cpu.new }
    ensures same { (pin.new.section.now ≡ pin.old.section.now) × (pin.new.found ≡ pin.old.found) }
    ensures same_reference { pin.new.section.ghost_name ≡ pin.old.section.ghost_name }
{
    for place in 0..words {
        cpu.word(pin, place);
    }
}

/// Finds what is current in the first cell, and loads so many words of it. Behind that the reading is free again.
fn look_up<A: Allocator>(cpu: &mut Cpu<A>, reading: &mut Reading, words: usize)
    requires here { reading.old.domain ≡ cpu.old.domain }
    requires cell { 0 < cells_in cpu.old.domain }
    requires words { words ≤ 16 }
    ensures looks { LooksUp words reading.old cpu.old cpu.new }
    ensures reading { reading.new ≡ reading.old }
{
    let mut pin = cpu.find(reading, 0);
    read_words(cpu, &mut pin, words);
}

/// The same in a section of its own. All sixteen are loaded by the call that ends it.
fn find_once<A: Allocator>(cpu: &mut Cpu<A>, words: usize) -> Result<(), Exhausted>
    requires cell { 0 < cells_in cpu.old.domain }
    requires words { words ≤ 16 }
    ensures { MatchResult result (λ _. FindsOnce words cpu.old cpu.new) (λ _. LooksInVain cpu.old cpu.new) }
{
    let mut reading = cpu.read_lock()?;
    if words == 16 {
        cpu.words_and_unlock(reading, 0);
        return Ok(());
    }
    look_up(cpu, &mut reading, words);
    cpu.read_unlock(reading);
    Ok(())
}

/// Does so in so many sections, one after the other, and answers how many: all of them, unless so many sections of an
/// index were begun here that no more may be.
pub fn find_often<A: Allocator>(cpu: &mut Cpu<A>, words: usize, times: u64) -> u64
    requires cell { 0 < cells_in cpu.old.domain }
    requires words { words ≤ 16 }
    ensures { FindsAll words times result cpu.old cpu.new ⊎ StopsFinding words times result cpu.old cpu.new }
{
    for found in 0..times {
        match find_once(cpu, words) {
            Ok(()) => {}
            Err(_) => return found,
        }
    }
    times
}

/// Does so on a new processor, which has room for all of the sections.
fn find_all(mut cpu: Cpu, words: usize, times: u64) -> Reader
    requires room { CanFind times cpu }
    requires words { words ≤ 16 }
    ensures { HasFoundAll words times cpu result }
{
    let made = find_often(&mut cpu, words, times);
    Reader { cpu, made }
}

/// Has each processor do so in a thread of its own.
fn find_at_once<R: Threads + Sync>(
    rt: &R,
    cpus: Vec<Cpu>,
    words: usize,
    times: u64,
) -> Result<Vec<Reader>, AllocError>
    requires room { All (CanFind times) cpus.items }
    requires words { words ≤ 16 }
    ensures { IfOk result (λ readers. HaveFoundAll words times cpus.items readers.items) }
{
    thread::map_vec(rt, cpus, &|cpu| find_all(cpu, words, times))
}

/// Does so many in each of the threads. Its `elapsed` is what the clock told, of which no clause speaks.
pub fn run<R: Threads + Sync + Clock + AllocGlobal>(
    rt: &R,
    threads: usize,
    words: usize,
    times: u64,
) -> Result<Trial>
    requires { words ≤ 16 }
    ensures { IfOk result (λ trial. AreFindersOfOne threads words times trial.readers.items) }
{
    let limits = Limits {
        sections: times,
        periods: 1,
        cells: 1,
        slots: 2,
    };
    let Made { cpus, .. } = make(rt.alloc(), threads, limits)?;
    let start = Instant::now(rt)?;
    let readers = find_at_once(rt, cpus, words, times)?;
    let elapsed = start.elapsed(rt)?;
    Ok(Trial { readers, elapsed })
}
