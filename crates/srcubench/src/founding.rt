//! A new domain with one cell, for a reader in each thread and one who changes what lies in the cell. Or for one who queues
//! jobs in each thread, and one who gives them out.
ghost use Rattle.std.specs.Prelude.{◌≡◌, ◌^◌, ◌≤◌, All, IfOk};
ghost use Rattle.sections.specs.Words.{cells_in};
ghost use Rattle.domain.specs.Views.{IsOf};
ghost use Rattle.srcubench.specs.Founding.{IsNew};

use domain::{Cpu, Domain, Limits, MakeError, Writer};
use std::alloc::Global;

/// As many sections and grace periods as there may be. Of two slots one is current, and the other is blank only behind
/// the grace period of the change before.
const LIMITS: Limits = Limits {
    sections: Limits::MOST_SECTIONS,
    periods: Limits::MOST_PERIODS,
    cells: 1,
    slots: 2,
};

/// A domain, and who is there.
#[derive(Drop)]
pub struct New<J> {
    pub domain: Domain<J>,
    pub readers: Vec<Cpu<J>>,
    /// The processor of the one who changes the cell, or gives out.
    pub changer: Cpu<J>,
    pub writer: Writer,
}

/// A new domain of so many readers.
pub fn found<J: Drop>(alloc: Global, readers: usize) -> Result<New<J>, MakeError>
    requires { readers ≤ 2 ^ 16 }
    ensures new { IfOk result (λ n. IsNew readers n.domain n.readers.items n.changer n.writer) }
    ensures others { IfOk result (λ n. All (IsOf n.domain) n.readers.items) }
    ensures here { IfOk result (λ n. IsOf n.domain n.changer) }
    ensures cell { IfOk result (λ n. cells_in n.domain.domain ≡ 1) }
{
    let (domain, mut cpus, mut writers) = Domain::<J>::new(alloc, readers + 1, LIMITS)?;
    let changer = cpus.pop().unwrap();
    let writer = writers.pop().unwrap();
    Ok(New {
        domain,
        readers: cpus,
        changer,
        writer,
    })
}
