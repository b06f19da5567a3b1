//! The parts of one box are laid, and come together again.
ghost use Rattle.std.specs.Prelude.{◌≡◌, ◌-◌, ◌*◌, ◌^◌, ◌<◌};
ghost use Rattle.sections.specs.Boxes.{bank_in};
ghost use Rattle.sections.specs.Writers.{IsOwn};
ghost use Rattle.boxes.specs.Laying.{share, HasKeys, LaysSome, CollectsSome};

use parts::Part;
use sections::{Cpu, Slot, Writer};
use std::alloc::Allocator;
use vault::{Pile, Vault};

/// How many parts of a box lie at each processor: 2^46. Of fewer than 2^16 processors that is less than half of the whole.
const SHARE: u64 = 70_368_744_177_664;

/// Lays as many parts of a box at each processor, in a slot that is out and has none. Returns the others.
pub(crate) fn lay_all<V: Drop, A: Allocator, B: Allocator>(
    writer: &mut Writer,
    cpu: &Cpu<B>,
    slot: &Slot,
    vault: &Vault<V, A>,
    processors: usize,
    all: Part<V>,
) -> Part<V>
    requires here { (cpu.now.domain ≡ writer.old.domain) × (cpu.now.processors ≡ processors) }
    requires own { IsOwn writer.old slot.now × (slot.now.slot < 8) }
    requires keys { HasKeys processors vault.now writer.old }
    requires empty { ((bank_in writer.old slot.now.slot).laid ≡ 0) × ((bank_in writer.old slot.now.slot).each ≡ 0) }
    requires whole { all.count ≡ 2 ^ 63 }
    ensures lays { LaysSome processors slot.now.slot all.round writer.old writer.new }
    ensures rest { result ≡ record all { count = 2 ^ 63 - processors * share } }
{
    let mut rest = all;
    for processor in 0..processors {
        let part = rest.split(SHARE);
        let pile = Pile { part, count: SHARE };
        writer.lay(cpu, slot, processor as u16, vault, pile);
    }
    rest
}

/// Takes back all parts of a slot, which is out.
pub(crate) fn collect_all<V: Drop, A: Allocator, B: Allocator>(
    writer: &mut Writer,
    cpu: &Cpu<B>,
    slot: &Slot,
    vault: &Vault<V, A>,
    processors: usize,
    rest: Part<V>,
) -> Part<V>
    requires here { (cpu.now.domain ≡ writer.old.domain) × (cpu.now.processors ≡ processors) }
    requires own { IsOwn writer.old slot.now × (slot.now.slot < 8) }
    requires keys { HasKeys processors vault.now writer.old }
    requires new { (bank_in writer.old slot.now.slot).emptied ≡ 0 }
    requires round { (bank_in writer.old slot.now.slot).round ≡ rest.round }
    ensures collects { CollectsSome processors processors slot.now.slot writer.old writer.new rest result }
{
    let mut all = rest;
    for processor in 0..processors {
        let found = writer.collect(cpu, slot, processor as u16, vault);
        if let Some(Pile { part, count: _ }) = found {
            all.join(part);
        }
    }
    all
}
