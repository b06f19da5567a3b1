//! Sixteen words as the next version of a cell: a slot is claimed, filled and put.
ghost use Rattle.std.specs.Prelude.{◌≡◌, ◌<◌, length, MatchOption};
ghost use Rattle.sections.specs.Shelves.{words_of, slot_words};
ghost use Rattle.sections.specs.Writers.{IsOwn};
ghost use Rattle.domain.specs.Views.{IsOf, Stays};
ghost use Rattle.domain.specs.Acting.{asks_for, PutsAndThen};
ghost use Rattle.domain.specs.Writers.{PutsAndAsks};
ghost use Rattle.domain.specs.Publishing.{Fills, FindsNone, Claims, Puts};

use crate::cpu::Cpu;
use crate::domain::Domain;
use sections::{Slot, Writer};
use sseq::Number;
use std::alloc::Allocator;

impl<J, A: Allocator> Domain<J, A> {
    /// As [`Writer::put`], and the grace period of the cookie is asked for: once it has ended, the slot that was current
    /// can be reclaimed. It takes no memory and does not wait.
    pub fn put_and_ask(&self, cpu: &mut Cpu<J, A>, writer: &mut Writer, slot: Slot) -> u64
        requires domain { IsOf self.now cpu.old }
        requires here { writer.old.domain ≡ self.now.domain }
        requires own { IsOwn writer.old slot }
        ensures here { IsOf self.now cpu.new }
        ensures puts { PutsAndAsks slot.slot result writer.old cpu.old writer.new cpu.new }
        ensures has { words_of writer.old.cell writer.new.version cpu.new.cpu.texts ≡ slot_words slot.slot writer.old.words }
        ensures acts { PutsAndThen (asks_for result 0) writer.old.cell slot.slot writer.new.version cpu.old cpu.new }
    {
        let cookie = writer.put(&mut cpu.cpu, slot);
        // It is asked for behind the put, and by the number of the retired slot's own cookie: behind a smaller one a
        // section may still read the slot.
        cpu.needs.ask(Number::new(cookie).unwrap());
        // Rung before the asking, a driver would find nothing and sleep on.
        self.ring();
        cookie
    }
}

/// Makes blank what no section can read any more, and gives a blank slot out. None where there is none, or 2^54 versions
/// were put.
pub fn claim<J, A: Allocator>(writer: &mut Writer, cpu: &mut Cpu<J, A>) -> Option<Slot>
    requires here { cpu.old.cpu.domain ≡ writer.old.domain }
    ensures claims { MatchOption result
        (FindsNone writer.old cpu.old writer.new cpu.new)
        (λ s. Claims s writer.old cpu.old writer.new cpu.new) }
    ensures same { (writer.new.domain ≡ writer.old.domain) × (writer.new.cell ≡ writer.old.cell) }
    ensures stays { Stays cpu.old cpu.new }
{
    writer.reclaim(cpu);
    writer.blank()
}

/// Fills the slot with these words and puts it as the next version, and asks for the grace period of the slot that was
/// current. The answer is the number of its cookie. It takes no memory and does not wait.
pub fn publish<J, A: Allocator>(
    writer: &mut Writer,
    domain: &Domain<J, A>,
    cpu: &mut Cpu<J, A>,
    mut slot: Slot,
    words: &[u64; 16],
) -> u64
    requires domain { IsOf domain.now cpu.old }
    requires here { writer.old.domain ≡ domain.now.domain }
    requires own { IsOwn writer.old slot }
    requires long { (length writer.old.words ≡ 128) × (slot.slot < 8) }
    ensures here { IsOf domain.now cpu.new }
    ensures same { (writer.new.domain ≡ writer.old.domain) × (writer.new.cell ≡ writer.old.cell) }
    ensures puts { (h : Puts slot.slot words.now writer.old cpu.old writer.new cpu.new) × (h.cookie ≡ result) }
    ensures has { words_of writer.old.cell writer.new.version cpu.new.cpu.texts ≡ words.now }
{
    fill(writer, cpu, &mut slot, words);
    domain.put_and_ask(cpu, writer, slot)
}

/// Stores sixteen words in the slot.
fn fill<J, A: Allocator>(
    writer: &mut Writer,
    cpu: &mut Cpu<J, A>,
    slot: &mut Slot,
    words: &[u64; 16],
)
    requires here { cpu.old.cpu.domain ≡ writer.old.domain }
    requires own { IsOwn writer.old slot.old }
    requires long { (length writer.old.words ≡ 128) × (slot.old.slot < 8) }
    ensures fills { Fills slot.old.slot words.now writer.old writer.new }
    ensures cpu { cpu.new ≡ cpu.old }
    ensures slot { slot.new ≡ slot.old }
{
    for place in 0..16 {
        writer.set(cpu, slot, place, words[place]);
    }
}
