//! Versions are put, and come back.
ghost use Rattle.std.specs.Prelude.{◌≡◌, ℕ, ◌^◌, ◌<◌, All, IfErr, MatchResult};
ghost use Rattle.std.specs.Vec.{vec_capacity};
ghost use Rattle.domain.specs.Views.{IsOf, Stays, with_cpu};
ghost use Rattle.boxes.specs.Boxes.{Stored, IsCellIn, IsCellOf, cell_of};
ghost use Rattle.boxes.specs.Writing.{PutsBox};
ghost use Rattle.registry.specs.Order.{AreInOrder};
ghost use Rattle.registry.specs.Names.{Lends, all_kept};
ghost use Rattle.registry.specs.Registry.{AreParts, IsRegistry, keys_of};
ghost use Rattle.registry.specs.Changing.{Collects};
ghost use Rattle.registry.specs.Refusing.{IsNotPut};

use crate::devices::Devices;
use crate::index::Index;
use crate::refusals::NotPut;
use boxes::BoxWriter;
use domain::{Cpu, Domain};
use std::alloc::Allocator;

/// Puts a version of all devices that are here.
pub(crate) fn publish<K: Ord + Copy, V: Drop, A: Allocator + Copy, J, B: Allocator>(
    alloc: A,
    devices: &mut Devices<K, V, A>,
    writer: &mut BoxWriter<Index<K, V, A>, A>,
    domain: &Domain<J, B>,
    cpu: &mut Cpu<J, B>,
) -> Result<(), NotPut>
    requires domain { IsOf domain.now cpu.old }
    requires cell { IsCellIn domain.now (cell_of writer.old) }
    requires ordered { AreInOrder K.cmp (keys_of devices.old.here.items) }
    requires room { All (λ d. d.out < 2 ^ 62) devices.old.here.items }
    ensures here { IsOf domain.now cpu.new }
    ensures same { cell_of writer.new ≡ cell_of writer.old }
    ensures leaving { devices.new.leaving ≡ devices.old.leaving }
    ensures capacity { vec_capacity devices.new.here ≡ vec_capacity devices.old.here }
    ensures puts { MatchResult result
        (λ _. Lends 1 devices.old.here.items devices.new.here.items × ((s : Stored _ A) × (cookie : ℕ) × AreParts s.value devices.old.here.items × PutsBox s cookie writer.old cpu.old writer.new cpu.new))
        (λ _. Lends 0 devices.old.here.items devices.new.here.items × (writer.new ≡ writer.old) × (cpu.new ≡ cpu.old)) }
    ensures refused { IfErr result (λ e. IsNotPut e writer.new) }
{
    let Ok(entries) = devices.lend_all(alloc) else {
        return Err(NotPut::Memory);
    };
    match Box::new(alloc, Index { entries }) {
        Ok(whole) => match writer.put(domain, cpu, whole) {
            Ok(_) => Ok(()),
            Err(whole) => {
                devices.take_back(Box::into_inner(whole).into_entries());
                Err(NotPut::NoSlot)
            }
        },
        Err(refused) => {
            devices.take_back(refused.value.into_entries());
            Err(NotPut::Memory)
        }
    }
}

/// Takes each version home that no section can read any more.
pub(crate) fn collect<K: Ord + Copy, V: Drop, A: Allocator + Copy, J, B: Allocator>(
    devices: &mut Devices<K, V, A>,
    writer: &mut BoxWriter<Index<K, V, A>, A>,
    cpu: &mut Cpu<J, B>,
)
    requires cell { IsCellOf cpu.old.cpu (cell_of writer.old) }
    requires registry { (n : ℕ) × IsRegistry K.cmp writer.old devices.old.here.items devices.old.leaving.items n }
    ensures here { all_kept devices.new.here.items ≡ all_kept devices.old.here.items }
    ensures leaving { all_kept devices.new.leaving.items ≡ all_kept devices.old.leaving.items }
    ensures registry { (n : ℕ) → IsRegistry K.cmp writer.old devices.old.here.items devices.old.leaving.items n → IsRegistry K.cmp writer.new devices.new.here.items devices.new.leaving.items n }
    ensures collects { Collects writer.old cpu.old.cpu writer.new cpu.new.cpu }
    ensures same { cell_of writer.new ≡ cell_of writer.old }
    ensures rest { cpu.new ≡ with_cpu cpu.new.cpu cpu.old }
    ensures stays { Stays cpu.old cpu.new }
{
    while let Some(version) = writer.reclaim(cpu) {
        devices.take_home(Box::into_inner(version).into_entries());
    }
}
