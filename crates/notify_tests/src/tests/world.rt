//! A chain in a domain of one processor, with its own one thread.
ghost use Rattle.std.specs.Prelude.{◌≡◌, ◌<◌};
ghost use Rattle.sections.specs.Words.{cells_in};
ghost use Rattle.domain.specs.Views.{IsOf, Stays};

use domain::{Cpu, Domain, MakeError, Writer};
use fixtures::one;
use notify::{Chain, ChainView, RegisterRefusal, UnregisterRefusal};
use std::alloc::Global;
use std::marker::Model;
use std::sync::Wait;

/// How many ids there are.
pub(super) const IDS: u64 = 16;

/// A domain, its processor, and its chain.
#[derive(Drop)]
pub(super) struct World {
    pub(super) domain: Domain<()>,
    pub(super) cpu: Cpu<()>,
    pub(super) chain: Chain,
    pub(super) view: ChainView,
}

impl Model for World {
    ghost use Rattle.std.specs.Prelude.{◌≡◌};
    ghost use Rattle.domain.specs.Views.{IsOf};
    ghost use Rattle.shelf.specs.Cells.{IsCellIn};

    ghost Value = { Unit {0} };

    ghost view = { λ w. tt };

    ghost invariant = { λ w. IsOf w.domain w.cpu × (w.chain.writer.domain ≡ w.domain.domain) × (w.chain.ids ≡ 16) × IsCellIn w.domain.domain w.view.place × (w.view.ids ≡ 16) };
}

/// Puts a version whose first words are these, and whose others are zeros.
fn put_words(writer: &mut Writer, cpu: &mut Cpu<()>, words: &[u64; 4])
    requires { cpu.old.cpu.domain ≡ writer.old.domain }
    ensures writer { (writer.new.domain ≡ writer.old.domain) × (writer.new.cell ≡ writer.old.cell) }
    ensures stays { Stays cpu.old cpu.new }
{
    let Some(mut slot) = writer.blank() else {
        return;
    };
    writer.set(cpu, &mut slot, 0, words[0]);
    writer.set(cpu, &mut slot, 1, words[1]);
    writer.set(cpu, &mut slot, 2, words[2]);
    writer.set(cpu, &mut slot, 3, words[3]);
    let _cookie = writer.put(cpu, slot);
}

impl World {
    /// A chain with no blocks, in a cell with so many slots.
    pub(super) fn new(alloc: Global, slots: u64) -> Result<World, MakeError> {
        let (domain, cpu, writer) = one(alloc, slots)?;
        Ok(World::with_writer(domain, cpu, writer))
    }

    /// A chain of which nothing is put, in a cell whose first words are these.
    pub(super) fn with_words(alloc: Global, words: &[u64; 4]) -> Result<World, MakeError> {
        let (domain, mut cpu, mut writer) = one(alloc, 2)?;
        put_words(&mut writer, &mut cpu, words);
        Ok(World::with_writer(domain, cpu, writer))
    }

    fn with_writer(domain: Domain<()>, cpu: Cpu<()>, writer: Writer) -> World
        requires here { IsOf domain cpu }
        requires writer { (writer.domain ≡ domain.domain) × (writer.cell < cells_in domain.domain) }
    {
        let (chain, view) = Chain::new(writer, IDS);
        World {
            domain,
            cpu,
            chain,
            view,
        }
    }

    /// Registers one.
    pub(super) fn register(&mut self, id: u64, priority: i32) -> Result<(), RegisterRefusal>
        requires { id < 16 }
    {
        self.chain
            .register(&self.domain, &mut self.cpu, id, priority)
    }

    /// Unregisters one.
    pub(super) fn unregister(&mut self, id: u64) -> Result<(), UnregisterRefusal>
        requires { id < 16 }
    {
        self.chain.unregister(&self.domain, &mut self.cpu, id)
    }

    /// The ids, and how many there are.
    pub(super) fn ids(&mut self) -> Option<([u64; 15], usize)> {
        self.view.ids(&mut self.cpu).ok()
    }

    /// Drives the period that was asked for until it has ended.
    pub(super) fn drive(&mut self) {
        drive(&self.domain, &mut self.cpu);
    }
}

/// Three turns of the engine: where no section is open, a period begins and ends.
fn drive(domain: &Domain<()>, cpu: &mut Cpu<()>)
    requires { IsOf domain.now cpu.old }
    ensures { IsOf domain.now cpu.new }
{
    for _ in 0..3 {
        let _answer = domain.advance(cpu);
    }
}
