//! A cell becomes one of boxes.
ghost use Rattle.std.specs.Prelude.{◌≡◌, ◌*◌, ◌^◌, ◌<◌, ◌≤◌, IfOk, MatchResult, length, replicate, None};
ghost use Rattle.std.specs.Arc.{arc_value};
ghost use Rattle.vault.specs.Keys.{AreKeys};
ghost use Rattle.domain.specs.Views.{IsOf};
ghost use Rattle.boxes.specs.Boxes.{IsCellIn, cell_of};
ghost use Rattle.boxes.specs.Laying.{HasKeys};
ghost use Rattle.boxes.specs.Writing.{IsPlain, Equips, IsHandedBack};

use crate::readers::Boxes;
use crate::writer::BoxWriter;
use domain::{Cpu, Domain, Writer};
use std::alloc::{AllocError, Allocator};
use std::sync::Arc;
use vault::{Key, Vault};

/// Makes a cell one of boxes, with no box in it. The writer comes back where there is no memory, or no slot of its cell is
/// blank.
pub fn make<V: Drop, J, A: Allocator + Clone, B: Allocator>(
    alloc: A,
    domain: &Domain<J, B>,
    cpu: &mut Cpu<J, B>,
    writer: Writer,
) -> Result<(BoxWriter<V, A>, Boxes<V, A>), Writer>
    requires domain { IsOf domain.now cpu.old }
    requires here { writer.domain ≡ domain.now.domain }
    requires plain { IsPlain writer }
    ensures here { IsOf domain.now cpu.new }
    ensures writer { IfOk result (λ m. IsCellIn domain.now (cell_of m.0) × (m.0.writer.cell ≡ writer.cell)) }
    ensures boxes { IfOk result (λ m. m.1 ≡ cell_of m.0) }
    ensures nothing { IfOk result (λ m. m.0.stored ≡ replicate 8 None) }
    ensures puts { MatchResult result
        (λ m. Equips writer cpu.old m.0.writer cpu.new)
        (λ back. IsHandedBack writer back × (cpu.new ≡ cpu.old)) }
{
    let mut writer = writer;
    let processors = domain.processors() as usize;
    let Some(slot) = writer.blank() else {
        return Err(writer);
    };
    let Ok((vault, other, keys)) = room(alloc, 8 * processors) else {
        writer.give_back(slot);
        return Err(writer);
    };
    lay_keys(&mut writer, &*cpu, &*vault, processors, keys);
    domain.put_and_ask(cpu, &mut writer, slot);
    let cell = writer.cell();
    let first = cpu.current(&writer);
    let made = BoxWriter {
        writer,
        vault,
        processors,
        rests: [None, None, None, None, None, None, None, None],
    };
    let boxes = Boxes {
        vault: other,
        processors,
        cell,
        first,
    };
    Ok((made, boxes))
}

/// A vault of so many places, for two, and its keys, in order.
fn room<V: Drop, A: Allocator + Clone>(
    alloc: A,
    places: usize,
) -> Result<(Arc<Vault<V, A>, A>, Arc<Vault<V, A>, A>, Vec<Key, A>), AllocError>
    ensures same { IfOk result (λ r. arc_value r.1 ≡ arc_value r.0) }
    ensures keys { IfOk result (λ r. (length r.2.items ≡ places) × AreKeys (arc_value r.0) 0 r.2.items) }
{
    let (vault, keys) = Vault::new(alloc.clone()?, alloc.clone()?, places)?;
    let vault = Arc::new(alloc, vault)?;
    let other = Arc::try_clone(&vault)?;
    Ok((vault, other, keys))
}

/// Lays the keys of a new vault, in their order.
fn lay_keys<V: Drop, A: Allocator, B: Allocator>(
    writer: &mut Writer,
    cpu: &sections::Cpu<B>,
    vault: &Vault<V, A>,
    processors: usize,
    keys: Vec<Key, A>,
)
    requires here { (cpu.now.domain ≡ writer.old.domain) × (cpu.now.processors ≡ processors) }
    requires many { (1 ≤ processors) × (processors < 2 ^ 16) }
    requires plain { IsPlain writer.old }
    requires keys { (length keys.items ≡ 8 * processors) × AreKeys vault.now 0 keys.items }
    ensures keys { HasKeys processors vault.now writer.new }
    ensures rest { writer.new ≡ record writer.old { plan = writer.new.plan } }
    ensures banks { writer.new.plan.banks ≡ writer.old.plan.banks }
{
    let mut keys = keys;
    keys.reverse();
    let mut place: usize = 0;
    while let Some(key) = keys.pop() {
        writer.equip(cpu, (place / 8) as u16, place % 8, key);
        place += 1;
    }
}
