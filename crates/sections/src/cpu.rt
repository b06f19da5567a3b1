//! A processor, and the tokens that it gives out.
use crate::board::{DomainSeat, Words};
pub use kinds::{Anywhere, Held, Here, Kind, Reading, Section};
use sseq::Index;
use std::alloc::{Allocator, Global};
use std::marker::Model;
use std::sync::Arc;
use thiserror::Error;

pub(crate) mod borrowing;
mod cookies;
mod counting;
pub(crate) mod drawing;
mod given_cookies;
mod holding;
mod home;
pub(crate) mod kinds;
pub(crate) mod laying;
mod loading;
pub(crate) mod pinning;
pub(crate) mod pins;
mod recalling;
mod sections;
mod showing;
pub(crate) mod steps;
mod tokens;
pub(crate) mod writing;

/// A processor of a domain. It is a value that one thread owns: which processor of the machine the thread runs on
/// makes no difference. Contracts see what it has seen of the domain's history, its own events there, and its loads.
#[derive(Drop)]
pub struct Cpu<A: Allocator = Global> {
    pub(crate) table: Arc<Words<A>, A>,
    pub(crate) seat: DomainSeat,
    pub(crate) processor: u16,
    /// How many sections of one index may begin here.
    pub(crate) limit: u64,
    /// How many sections of each index were begun here.
    pub(crate) begun: [u64; 2],
    /// How many of these are no open readings: readings that are closed, and held sections. So that a pair of
    /// `read_lock` and `read_unlock` writes two words here, open readings are not counted themselves.
    pub(crate) settled: u64,
}

impl<A: Allocator> Model for Cpu<A> {
    ghost use Rattle.sections.specs.Views.{CpuView};

    ghost Value = { CpuView };

    ghost use Rattle.sections.specs.Insides.{view_of_cpu, IsCpu};

    ghost view = { view_of_cpu };

    ghost invariant = { IsCpu };
}

/// An index that was read, to enter a section with. Any processor of the domain may use it, however old it is.
#[derive(Drop)]
pub struct Look {
    pub(crate) index: Index,
    pub(crate) seat: DomainSeat,
}

impl Model for Look {
    ghost use Rattle.sections.specs.Views.{LookView};

    ghost Value = { LookView };

    ghost use Rattle.sections.specs.Insides.{view_of_look, IsLook};

    ghost view = { view_of_look };

    ghost invariant = { IsLook };
}

/// The number that the domain has once a full grace period has gone by that was still to start when the cookie was
/// given (`get_state_synchronize_srcu`). Any processor of the domain may ask after it, as often as it likes. The completed
/// one is done from the beginning, and any processor of any domain may ask after it.
#[derive(Drop)]
pub struct Cookie {
    pub(crate) number: u64,
    /// What was seen when it was given. The completed one was given by nobody.
    pub(crate) seat: Option<DomainSeat>,
}

impl Model for Cookie {
    ghost use Rattle.sections.specs.Views.{CookieView};

    ghost Value = { CookieView };

    ghost use Rattle.sections.specs.Insides.{view_of_cookie, IsCookie};

    ghost view = { view_of_cookie };

    ghost invariant = { IsCookie };
}

/// A cookie that a processor gave, so never the completed one. It takes 8 bytes where a [`Cookie`] takes 16, for whoever
/// keeps many.
#[derive(Drop)]
pub struct Given {
    pub(crate) number: u64,
    /// What was seen when it was given.
    pub(crate) seat: DomainSeat,
}

impl Model for Given {
    ghost use Rattle.sections.specs.Views.{CookieView};

    ghost Value = { CookieView };

    ghost use Rattle.sections.specs.Insides.{view_of_given, is_given};

    ghost view = { view_of_given };

    ghost invariant = { is_given };
}

/// This number is no cookie: it is neither a multiple of four nor 1. Nothing was done.
#[derive(Clone, Copy, Debug, Error, PartialEq, Eq)]
#[error("this is no cookie's number: ask with 1 or a multiple of four")]
pub struct NotACookie;

/// The processor has begun as many sections of this index as the limit allows. No section was begun.
#[derive(Clone, Copy, Debug, Error, PartialEq, Eq)]
#[error("no more sections of this index may begin here: begin on another processor")]
pub struct Exhausted;
