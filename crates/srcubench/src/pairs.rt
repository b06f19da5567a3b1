//! The loop that is measured.
ghost use Rattle.std.specs.Prelude.{◌⊎◌};
ghost use Rattle.srcubench.specs.Pairs.{MakesPairs, AllMade, StopsEarly, HasRoom};
ghost use Rattle.srcubench.specs.Readers.{HasMadeAll};

use sections::Cpu;
use std::alloc::Allocator;

/// Begins and ends so many sections one after the other, and answers how many: all of them, unless so many sections of
/// an index were begun here that no more may be.
pub fn make_pairs<A: Allocator>(cpu: &mut Cpu<A>, pairs: u64) -> u64
    ensures made { MakesPairs result cpu.old cpu.new }
    ensures all { AllMade pairs result cpu.old cpu.new ⊎ StopsEarly pairs result cpu.old cpu.new }
{
    for made in 0..pairs {
        match cpu.read_lock() {
            Ok(reading) => cpu.read_unlock(reading),
            Err(_) => return made,
        }
    }
    pairs
}

/// A processor that made pairs, and how many.
#[derive(Drop)]
pub struct Reader {
    pub cpu: Cpu,
    pub made: u64,
}

/// Makes so many pairs on a new processor, which has room for all of them.
pub fn make_all_pairs(mut cpu: Cpu, pairs: u64) -> Reader
    requires { HasRoom pairs cpu }
    ensures { HasMadeAll pairs cpu result }
{
    let made = make_pairs(&mut cpu, pairs);
    Reader { cpu, made }
}
