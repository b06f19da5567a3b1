//! Who registers and unregisters.
ghost use Rattle.std.specs.Prelude.{◌≡◌, ◌^◌, ◌<◌, ◌≤◌, [], MatchResult, IfOk};
ghost use Rattle.sections.specs.Shelves.{words_of};
ghost use Rattle.domain.specs.Views.{IsOf};
ghost use Rattle.shelf.specs.Cells.{cell_of};
ghost use Rattle.notify.specs.Changes.{IsSameChain, Registers, RefusesRegister, Unregisters, RefusesUnregister};
ghost use Rattle.notify.specs.Blocks.{IsTextOf};

use crate::block::Block;
use crate::blocks::{Blocks, enter, leave};
use crate::order::place_of;
use crate::refusals::{RegisterRefusal, UnregisterRefusal};
use crate::text::text;
use crate::view::ChainView;
use domain::{Cpu, Domain, Writer, claim, publish};
use std::alloc::Allocator;
use std::marker::Model;

/// A notifier chain, for the one who changes it. It is the writer of the chain's cell: each change is a version of its
/// own. Contracts see the writer, and the blocks in the order in which they are called.
#[derive(Drop)]
pub struct Chain {
    writer: Writer,
    ids: u64,
    blocks: Blocks,
}

impl Model for Chain {
    ghost use Rattle.notify.specs.Chains.{ChainState};

    ghost Value = { ChainState };

    ghost use Rattle.notify.specs.Insides.{view_of_chain, is_sound};

    ghost view = { view_of_chain };

    ghost invariant = { is_sound };
}

impl Chain {
    /// A chain with no blocks, in a cell to which nothing is put. Blocks have ids below `ids`: where a handler stands
    /// among those that are lent to a call.
    pub fn new(writer: Writer, ids: u64) -> (Chain, ChainView)
        requires { ids ≤ 2 ^ 32 }
        ensures chain { result.0 ≡ record { writer = writer; ids = ids; blocks = [] } }
        ensures view { result.1 ≡ record { place = cell_of writer; ids = ids } }
    {
        let chain = Chain {
            writer,
            ids,
            blocks: Blocks::new(),
        };
        let view = chain.view();
        (chain, view)
    }

    /// What reads the chain, once more.
    pub fn view(&self) -> ChainView
        ensures { result ≡ record { place = cell_of self.now.writer; ids = self.now.ids } }
    {
        ChainView::of_writer(&self.writer, self.ids)
    }

    /// Registers a block (`srcu_notifier_chain_register`): it is called behind those of higher priority and of its own,
    /// and before those of lower priority. The grace period of the version that was there is asked for.
    pub fn register<J, A: Allocator>(
        &mut self,
        domain: &Domain<J, A>,
        cpu: &mut Cpu<J, A>,
        id: u64,
        priority: i32,
    ) -> Result<(), RegisterRefusal>
        requires domain { IsOf domain.now cpu.old }
        requires here { self.old.writer.domain ≡ domain.now.domain }
        requires id { id < self.old.ids }
        ensures here { IsOf domain.now cpu.new }
        ensures same { IsSameChain self.old self.new }
        ensures registers { MatchResult result
            (λ _. Registers (record { id = id; priority = priority }) self.old cpu.old self.new cpu.new)
            (λ e. RefusesRegister id e self.old cpu.old self.new cpu.new) }
        ensures has { IfOk result (λ _. IsTextOf self.new.ids (words_of self.new.writer.cell self.new.writer.version cpu.new.cpu.texts) self.new.blocks) }
    {
        if place_of(self.blocks.as_slice(), id).is_some() {
            return Err(RegisterRefusal::There);
        }
        if self.blocks.is_full() {
            return Err(RegisterRefusal::Full);
        }
        let Some(slot) = claim(&mut self.writer, cpu) else {
            return Err(RegisterRefusal::NoSlot);
        };
        enter(&mut self.blocks, Block { id, priority });
        let words = text(self.blocks.as_slice());
        publish(&mut self.writer, domain, cpu, slot, &words);
        Ok(())
    }

    /// Unregisters the block of this id (`srcu_notifier_chain_unregister`). Calls that go on may still call its handler:
    /// none does so once the grace period has ended that is asked for here.
    pub fn unregister<J, A: Allocator>(
        &mut self,
        domain: &Domain<J, A>,
        cpu: &mut Cpu<J, A>,
        id: u64,
    ) -> Result<(), UnregisterRefusal>
        requires domain { IsOf domain.now cpu.old }
        requires here { self.old.writer.domain ≡ domain.now.domain }
        requires id { id < self.old.ids }
        ensures here { IsOf domain.now cpu.new }
        ensures same { IsSameChain self.old self.new }
        ensures unregisters { MatchResult result
            (λ _. Unregisters id self.old cpu.old self.new cpu.new)
            (λ e. RefusesUnregister id e self.old cpu.old self.new cpu.new) }
        ensures has { IfOk result (λ _. IsTextOf self.new.ids (words_of self.new.writer.cell self.new.writer.version cpu.new.cpu.texts) self.new.blocks) }
    {
        let Some(place) = place_of(self.blocks.as_slice(), id) else {
            return Err(UnregisterRefusal::NotThere);
        };
        let Some(slot) = claim(&mut self.writer, cpu) else {
            return Err(UnregisterRefusal::NoSlot);
        };
        leave(&mut self.blocks, place);
        let words = text(self.blocks.as_slice());
        publish(&mut self.writer, domain, cpu, slot, &words);
        Ok(())
    }
}
