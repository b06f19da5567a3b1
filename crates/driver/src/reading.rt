//! Sections that close themselves.
ghost use Rattle.std.specs.Prelude.{MatchResult};
ghost use Rattle.driver.specs.Works.{MayRead, KeepsReadings, ReadsIn, IsRefused, IsKept};

use domain::{Cpu, Exhausted, Reading};

/// Runs the work in a section of this processor, which begins before it (`srcu_read_lock`) and ends behind it
/// (`srcu_read_unlock`), whichever way the work ends. So `?` may stand in it: what it answers, also an error, is handed on.
/// The work is lent the processor and the reading, to find versions in the section and to load their words. It may begin
/// and end other sections, and leaves the reading as it is.
///
/// `Exhausted` where no section may begin. Then the work is not run.
pub fn read<J, T, F: FnOnce(&mut Cpu<J>, &mut Reading) -> T>(
    cpu: &mut Cpu<J>,
    work: F,
) -> Result<T, Exhausted>
    requires may { MayRead F.FnOnce work cpu.old }
    requires keeps { KeepsReadings F.FnOnce work cpu.old }
    ensures reads { MatchResult result (λ answer. ReadsIn F.FnOnce work cpu.old answer cpu.new) (λ _. IsRefused cpu.old cpu.new) }
    ensures kept { IsKept cpu.old cpu.new }
{
    let mut reading = cpu.read_lock()?;
    let answer = work(cpu, &mut reading);
    cpu.read_unlock(reading);
    Ok(answer)
}
