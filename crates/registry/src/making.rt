//! A cell becomes a registry.
ghost use Rattle.std.specs.Prelude.{◌≡◌, [], None, IfOk, MatchResult, replicate};
ghost use Rattle.domain.specs.Views.{IsOf};
ghost use Rattle.domain.specs.Waiting.{HasNoneOpen};
ghost use Rattle.boxes.specs.Boxes.{IsCellIn, cell_of};
ghost use Rattle.boxes.specs.Writing.{Equips, IsHandedBack, IsPlain};

use crate::devices::Devices;
use crate::registry::Registry;
use crate::users::Users;
use domain::{Cpu, Domain, Writer};
use std::alloc::Allocator;

/// Makes a cell a registry with no device in it. The writer comes back where there is no memory, or no slot of its cell is
/// blank.
pub fn make<K: Ord + Copy, V: Drop, J, A: Allocator + Copy, B: Allocator>(
    alloc: A,
    domain: &Domain<J, B>,
    cpu: &mut Cpu<J, B>,
    writer: Writer,
) -> Result<(Registry<K, V, A>, Users<K, V, A>), Writer>
    requires domain { IsOf domain.now cpu.old }
    requires here { writer.domain ≡ domain.now.domain }
    requires plain { IsPlain writer }
    ensures here { IsOf domain.now cpu.new }
    ensures still_none { HasNoneOpen cpu.old → HasNoneOpen cpu.new }
    ensures registry { IfOk result (λ m. IsCellIn domain.now (cell_of m.0.writer)) }
    ensures writer { IfOk result (λ m. m.0.writer.writer.cell ≡ writer.cell) }
    ensures nothing { IfOk result (λ m. (m.0.here ≡ []) × (m.0.leaving ≡ []) × (m.0.writer.stored ≡ replicate 8 None) × (m.0.changes ≡ 0)) }
    ensures users { IfOk result (λ m. m.1.boxes ≡ cell_of m.0.writer) }
    ensures puts { MatchResult result
        (λ m. Equips writer cpu.old m.0.writer.writer cpu.new)
        (λ back. IsHandedBack writer back × (cpu.new ≡ cpu.old)) }
{
    // The proof needs that there are eight at most, as a version has a place for each.
    let _slots = writer.slots();
    match boxes::make(alloc, domain, cpu, writer) {
        Ok((writer, boxes)) => {
            let devices = Devices {
                here: Vec::new(alloc),
                leaving: Vec::new(alloc),
            };
            let registry = Registry {
                alloc,
                writer,
                devices,
                changes: 0,
            };
            Ok((registry, Users { boxes, last: None }))
        }
        Err(writer) => Err(writer),
    }
}
