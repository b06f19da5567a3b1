//! Of which domain a view is.
ghost use Rattle.std.specs.Prelude.{◌≡◌};

use boxcar::tag::{Names, Tag};
use domain::Writer;
use std::marker::Model;

/// How contracts tell a writer's domain from another.
struct OfDomain;

impl Names<Writer> for OfDomain {
    ghost use Rattle.shelf.specs.Cells.{numbers_of};

    ghost numbers = { λ w. numbers_of w.domain };
}

/// The name of a domain, which contracts alone see. It has no bytes and no right in the domain, so threads may share it.
#[derive(Drop)]
pub struct DomainName {
    tag: Tag,
}

impl Model for DomainName {
    ghost use Rattle.atomic_table.specs.Seated.{TableId};

    ghost Value = { TableId };

    ghost use Rattle.shelf.specs.Insides.{domain_of};

    ghost view = { domain_of };
}

impl DomainName {
    /// The name of the writer's domain.
    pub fn of(writer: &Writer) -> DomainName
        ensures { result ≡ writer.now.domain }
    {
        DomainName {
            tag: Tag::of::<Writer, OfDomain>(writer),
        }
    }
}
