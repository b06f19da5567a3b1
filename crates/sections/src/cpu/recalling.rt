//! What was seen when a version was found, as knowledge to hand about.
ghost use Rattle.std.specs.Prelude.{◌≡◌, ◌<◌};
ghost use Rattle.sections.specs.Words.{cells_in};
ghost use Rattle.sections.specs.Recalling.{current_in};
ghost use Rattle.sections.specs.Calls.{Hears};
ghost use Rattle.sections.specs.Shelves.{IsStart, IsKnown};

use super::Cpu;
use super::pins::Found;
use super::steps::cover;
use crate::plays;
use crate::writer::Writer;
use std::alloc::Allocator;

impl<A: Allocator> Cpu<A> {
    /// One load of the index word, after which this processor has seen all that was seen when the version was found.
    pub fn recall(&mut self, found: &mut Found)
        requires here { found.old.domain ≡ self.old.domain }
        ensures hears { Hears self.old found.old.seen found.old.changes self.new }
        ensures texts { IsStart found.old.texts self.new.texts }
        ensures same { found.new ≡ found.old }
    {
        cover(&self.table.shared, &mut self.seat, &mut found.seat);
    }

    /// The same once more. No step is made; one load, which tells nothing.
    pub fn copy_found(&self, found: &mut Found) -> Found
        requires here { found.old.domain ≡ self.now.domain }
        ensures copy { result ≡ found.old }
        ensures same { found.new ≡ found.old }
    {
        let seat = self
            .table
            .shared
            .split_seat::<plays::GiveToken>(&mut found.seat);
        Found {
            cell: found.cell,
            slot: found.slot,
            version: found.version,
            seat,
        }
    }

    /// The version that is current in the writer's cell, as this processor knows it, which has seen it put. No step is made;
    /// one load, which tells nothing.
    pub fn current(&mut self, writer: &Writer) -> Found
        requires here { writer.now.domain ≡ self.old.domain }
        requires known { IsKnown writer.now.cell writer.now.version self.old.texts }
        ensures found { result ≡ current_in writer.now self.old }
        ensures inside { writer.now.cell < cells_in writer.now.domain }
        ensures same { self.new ≡ self.old }
    {
        let seat = self
            .table
            .shared
            .split_seat::<plays::GiveToken>(&mut self.seat);
        Found {
            cell: writer.cell,
            slot: writer.current,
            version: writer.version,
            seat,
        }
    }
}
