//! Sections that any processor of their domain may end.
ghost use Rattle.std.specs.Prelude.{◌≡◌};

use crate::posted::Posted;
use boxes::{Boxes, HeldBox};
use domain::{Domain, Held};
use std::alloc::Allocator;

/// A held section fits a mailbox of its domain.
impl<J, A: Allocator> Posted<Domain<J, A>> for Held {
    ghost fits = { λ held domain. held.domain ≡ domain.domain };
}

/// A box that was found in a held section fits a mailbox of its cell.
impl<V, B: Allocator> Posted<Boxes<V, B>> for HeldBox<V> {
    ghost use Rattle.boxes.specs.Boxes.{IsPinOf};

    ghost fits = { λ pin boxes. (pin.section.domain ≡ boxes.domain) × IsPinOf boxes pin };
}
