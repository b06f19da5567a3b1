//! Taking a batch of a domain in one hand.
ghost use Rattle.std.specs.Prelude.{◌<◌, MatchResult};
ghost use Rattle.calls.specs.Calls.{TakesNothingIn};
ghost use Rattle.domain.specs.Views.{IsOf};
ghost use Rattle.domain.specs.Acting.{loads, takes, ActsAs};
ghost use Rattle.solo.specs.Taking.{TakesUp};

use calls::{Batch, TakeRefusal};
use domain::{Cpu, Domain};
use std::alloc::Allocator;
use std::sync::Wait;

/// Takes out what is ready on the processor, and looks at the own queued word, so that the batch is seen to be out.
pub(crate) fn take_out<J: Drop, A: Allocator + Copy>(
    domain: &Domain<J, A>,
    rt: &impl Wait,
    cpu: &mut Cpu<J, A>,
    processor: u16,
    max: usize,
) -> Result<Option<Batch<J, A>>, TakeRefusal>
    requires domain { IsOf domain.now cpu.old }
    requires processor { processor < domain.now.processors }
    ensures here { IsOf domain.now cpu.new }
    ensures acts { MatchResult result (λ _. ActsAs (takes cpu.new.cpu.changes processor) cpu.old cpu.new) (λ _. ActsAs loads cpu.old cpu.new) }
    ensures taken { MatchResult result (λ taken. TakesUp domain.now processor max taken cpu.old cpu.new) (λ refusal. TakesNothingIn processor cpu.old.cpu cpu.old.calls refusal cpu.new.cpu cpu.new.calls) }
{
    let Some(mut batch) = domain.take_ready(rt, cpu, processor, max)? else {
        return Ok(None);
    };
    domain.see_out(cpu, &mut batch);
    Ok(Some(batch))
}
