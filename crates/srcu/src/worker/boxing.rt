//! Values of any type, in boxes.
ghost use Rattle.std.specs.Prelude.{◌≡◌, IfOk, MatchResult, replicate, None};
ghost use Rattle.sections.specs.Calls.{LooksInVain};
ghost use Rattle.sections.specs.Loans.{CatchesUp};
ghost use Rattle.domain.specs.Views.{with_cpu};
ghost use Rattle.boxes.specs.Boxes.{IsPinOf, cell_of};
ghost use Rattle.boxes.specs.Reading.{FindsBox, FindsNoBox};
ghost use Rattle.boxes.specs.Showing.{ShowsBox};
ghost use Rattle.boxes.specs.Writing.{BringsBack, Equips, IsHandedBack, ReplacesNone, Retires};
ghost use Rattle.srcu.specs.Boxing.{ReplacesBox, ReplacesNoBox};
ghost use Rattle.srcu.specs.Workers.{AreBoxesOf, IsBoxWriterOf, IsSameWorker, IsWriterOf};

use super::Worker;
use crate::answers::BoxRefusal;
use boxes::{BoxWriter, Boxes, HeldBox, Part};
use domain::{Exhausted, Held, Memory, Writer};
use shelf::NoSlot;
use std::alloc::Allocator;

impl<'a, J, A: Allocator> Worker<'a, J, A> {
    /// Makes a cell one of boxes, with no box in it. The writer comes back where there is no memory, or no slot of its cell
    /// is blank.
    pub fn boxes<V: Drop, B: Allocator + Clone>(
        &mut self,
        alloc: B,
        writer: Writer,
    ) -> Result<(BoxWriter<V, B>, Boxes<V, B>), Writer>
        requires { IsWriterOf self.old.domain writer }
        ensures same { IsSameWorker self.old self.new }
        ensures writer { IfOk result (λ m. IsBoxWriterOf self.old.domain m.0 × (m.0.writer.cell ≡ writer.cell)) }
        ensures boxes { IfOk result (λ m. m.1 ≡ cell_of m.0) }
        ensures nothing { IfOk result (λ m. m.0.stored ≡ replicate 8 None) }
        ensures puts { MatchResult result
            (λ m. Equips writer self.old.cpu m.0.writer self.new.cpu)
            (λ back. IsHandedBack writer back × (self.new.cpu ≡ self.old.cpu)) }
    {
        boxes::make(alloc, self.domain, &mut self.cpu, writer)
    }

    /// What reads the same boxes on another thread.
    pub fn another<V: Drop, B: Allocator>(
        &self,
        boxes: &mut Boxes<V, B>,
    ) -> Result<Boxes<V, B>, Memory>
        requires { AreBoxesOf self.now.domain boxes.old }
        ensures another { IfOk result (λ b. b ≡ boxes.old) }
        ensures boxes { boxes.new ≡ boxes.old }
    {
        boxes.another(&self.cpu)
    }

    /// Shows a part of the box that is there to a closure (`srcu_dereference`), in a section of its own. The part is used as the
    /// value. Returns what the closure returns, or None where the version that it found has no box. The closure may sleep.
    pub fn show<V: Drop, B: Allocator, T, F: FnOnce(&Part<V>) -> T>(
        &mut self,
        boxes: &mut Boxes<V, B>,
        show: F,
    ) -> Result<Option<T>, Exhausted>
        requires cell { AreBoxesOf self.old.domain boxes.old }
        requires may { F.IsAlwaysCallable show }
        ensures same { IsSameWorker self.old self.new }
        ensures boxes { boxes.new ≡ boxes.old }
        ensures shows { MatchResult result
            (λ shown. ShowsBox F.FnOnce show boxes.old self.old.cpu.cpu self.new.cpu.cpu shown)
            (λ _. LooksInVain self.old.cpu.cpu self.new.cpu.cpu) }
        ensures rest { self.new.cpu ≡ with_cpu self.new.cpu.cpu self.old.cpu }
    {
        boxes.read(&mut self.cpu, show)
    }

    /// Finds the value that is there, in a held section (`srcu_dereference`): [`BoxPin::get`] shows it. The pin owns the
    /// section, and may go to another thread. The section comes back where there is no box for this processor, or one part of
    /// it is left here, which stays.
    pub fn find_held_box<V: Drop, B: Allocator>(
        &mut self,
        boxes: &mut Boxes<V, B>,
        held: Held,
    ) -> Result<HeldBox<V>, Held>
        requires here { held.domain ≡ self.old.domain.domain }
        requires cell { AreBoxesOf self.old.domain boxes.old }
        ensures same { IsSameWorker self.old self.new }
        ensures boxes { boxes.new ≡ boxes.old }
        ensures finds { MatchResult result
            (λ pin. FindsBox boxes.old held self.old.cpu.cpu self.new.cpu.cpu pin)
            (λ back. FindsNoBox boxes.old held self.old.cpu.cpu self.new.cpu.cpu back) }
        ensures here { MatchResult result
            (λ pin. (pin.section.domain ≡ self.old.domain.domain) × IsPinOf boxes.old pin)
            (λ back. back.domain ≡ self.old.domain.domain) }
        ensures rest { self.new.cpu ≡ with_cpu self.new.cpu.cpu self.old.cpu }
    {
        boxes.find(&mut self.cpu, held)
    }

    /// Gives the section of a pin back, wherever it began; [`Worker::up_read`] ends it. A grace period after that the box may
    /// come back to its writer.
    pub fn release_held_box<V: Drop, B: Allocator>(
        &mut self,
        boxes: &Boxes<V, B>,
        pin: HeldBox<V>,
    ) -> Held
        requires here { pin.section.domain ≡ self.old.domain.domain }
        requires cell { AreBoxesOf self.old.domain boxes.now }
        requires pin { IsPinOf boxes.now pin }
        ensures same { IsSameWorker self.old self.new }
        ensures catches { CatchesUp pin.section pin.found self.old.cpu.cpu self.new.cpu.cpu }
        ensures held { result ≡ pin.section }
        ensures rest { self.new.cpu ≡ with_cpu self.new.cpu.cpu self.old.cpu }
    {
        boxes.release(&mut self.cpu, pin)
    }

    /// Replaces the value that is there (`rcu_assign_pointer`) by one of any size, in a box. It asks for the grace period
    /// after which no section reads the old one. Returns an older box that no section can read any more, if there is one.
    /// The value comes back where it can't be put; then no box does.
    pub fn replace_box<V: Drop, B: Allocator>(
        &mut self,
        alloc: B,
        writer: &mut BoxWriter<V, B>,
        value: V,
    ) -> Result<Option<Box<V, B>>, (V, BoxRefusal)>
        requires { IsBoxWriterOf self.old.domain writer.old }
        ensures same { IsSameWorker self.old self.new }
        ensures writer { cell_of writer.new ≡ cell_of writer.old }
        ensures replaces { MatchResult result
            (λ old. ReplacesBox value alloc old writer.old self.old.cpu writer.new self.new.cpu)
            (λ refused. (refused.0 ≡ value) × ReplacesNoBox refused.1 writer.old self.old.cpu writer.new self.new.cpu) }
    {
        match Box::new(alloc, value) {
            Ok(whole) => match writer.replace(self.domain, &mut self.cpu, whole) {
                Ok(old) => Ok(old),
                Err(whole) => Err((Box::into_inner(whole), BoxRefusal::NoSlot)),
            },
            Err(refused) => Err((refused.value, BoxRefusal::Memory)),
        }
    }

    /// Puts a version with no box, so that the last one can come back, and asks for the grace period. Returns an older box that
    /// no section can read any more, if there is one. Where it is refused, no box comes back.
    pub fn retire<V: Drop, B: Allocator>(
        &mut self,
        writer: &mut BoxWriter<V, B>,
    ) -> Result<Option<Box<V, B>>, NoSlot>
        requires { IsBoxWriterOf self.old.domain writer.old }
        ensures same { IsSameWorker self.old self.new }
        ensures writer { cell_of writer.new ≡ cell_of writer.old }
        ensures puts { MatchResult result
            (λ old. Retires old writer.old self.old.cpu writer.new self.new.cpu)
            (λ _. ReplacesNone writer.old self.old.cpu writer.new self.new.cpu) }
    {
        match writer.retire(self.domain, &mut self.cpu) {
            Ok(back) => Ok(back),
            Err(_) => Err(NoSlot),
        }
    }

    /// A box that no section can read any more, after a full grace period. None where no such box is left, or 2^54 versions
    /// were put.
    pub fn reclaim<V: Drop, B: Allocator>(
        &mut self,
        writer: &mut BoxWriter<V, B>,
    ) -> Option<Box<V, B>>
        requires { IsBoxWriterOf self.old.domain writer.old }
        ensures same { IsSameWorker self.old self.new }
        ensures writer { cell_of writer.new ≡ cell_of writer.old }
        ensures back { BringsBack result writer.old self.old.cpu.cpu writer.new self.new.cpu.cpu }
        ensures rest { self.new.cpu ≡ with_cpu self.new.cpu.cpu self.old.cpu }
    {
        writer.reclaim(&mut self.cpu)
    }
}
