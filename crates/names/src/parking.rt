//! The desk of a domain, where one held section can be parked under its name.
//!
//! One thread drives a session, so an `Option` would hold the section as well. The desk is there so that `park` and
//! `unpark` make the swaps that threads make who hand a section over.
ghost use Rattle.std.specs.Prelude.{◌≡◌, None, Some, option_map, is_none, IfOk};
ghost use Rattle.names.specs.Parkings.{index_of_parked};
ghost use Rattle.names.specs.Parkings.{is_parked};
ghost use Rattle.names.specs.Parkings.{desk_of};

use desk::{Desk, DeskSeat};
use lines::Name;
use sections::{Held, Home};
use sseq::Index;
use std::alloc::{AllocError, Allocator};
use std::marker::Model;

/// A desk with its one seat, and what is known of the section that lies there. It must be spent: by
/// [`Parking::close`].
pub struct Parking<A: Allocator> {
    desk: Desk<Held, A>,
    /// The desk's one seat.
    seats: Vec<DeskSeat<Held>, A>,
    label: Option<Label>,
}

/// What is known of the section that lies on the desk.
#[derive(Clone, Copy)]
pub struct Label {
    pub name: Name,
    pub index: Index,
}

impl<A: Allocator> Model for Parking<A> {
    ghost use Rattle.names.specs.Parkings.{ParkingView};

    ghost Value = { ParkingView };

    ghost use Rattle.names.specs.Insides.{view_of_parking, IsParking};

    ghost view = { view_of_parking };

    ghost invariant = { IsParking };
}

impl<A: Allocator> Parking<A> {
    /// A desk for sections of this domain, with nothing on it.
    pub fn new(alloc: A, home: Home) -> Result<Parking<A>, AllocError>
    where
        A: Copy,
        ensures { IfOk result (λ p. p ≡ record { domain = home; parked = None }) }
    {
        let (desk, seats) = Desk::new(alloc, 1, home)?;
        Ok(Parking {
            desk,
            seats,
            label: None,
        })
    }

    /// Whether no section is parked.
    pub fn is_empty(&self) -> bool
        ensures { result ≡ is_none self.now.parked }
    {
        self.label.is_none()
    }

    /// Whether a section of this name is parked.
    pub fn has(&self, name: &Name) -> bool
        ensures { result ≡ is_parked name.now (desk_of self.now.parked) }
    {
        match self.label {
            Some(label) => label.name.is(name.as_bytes()),
            None => false,
        }
    }

    /// The index of the section that is parked.
    pub fn open_index(&self) -> Option<Index>
        ensures { result ≡ index_of_parked self.now.parked }
    {
        Some(self.label?.index)
    }

    /// Puts a section on the desk, where none lies.
    pub fn park(&mut self, name: Name, held: Held)
        requires empty { self.old.parked ≡ None }
        requires domain { held.domain ≡ self.old.domain }
        ensures { self.new ≡ record self.old { parked = Some (name, held) } }
    {
        let index = held.index();
        let found = self.seats[0].put(&self.desk, held);
        let None = found else { unreachable!() };
        self.label = Some(Label { name, index });
    }

    /// Takes the section that is parked, with its name. Where none is, nothing is done.
    pub fn unpark(&mut self) -> Option<(Name, Held)>
        ensures taken { result ≡ self.old.parked }
        ensures empty { self.new ≡ record self.old { parked = None } }
    {
        let Label { name, index: _ } = self.label?;
        let Some(held) = self.seats[0].take(&self.desk) else {
            unreachable!()
        };
        self.label = None;
        Some((name, held))
    }

    /// The end of the desk. The section that is parked comes back.
    pub fn close(self) -> Option<Held>
        ensures { result ≡ option_map (λ p. p.1) self.parked }
    {
        let Parking {
            desk,
            seats,
            label: _,
        } = self;
        desk.close(seats)
    }
}
