//! The names in use in a domain, and what has each of them.
ghost use Rattle.std.specs.Prelude.{◌≡◌, ℕ, ◌<◌, ◌^◌, ◌++◌, List, [], ◌∷◌, None, length, IfSome, IfNone, OnOk, IsPermutation};
ghost use Rattle.std.specs.Option.{option_copied};
ghost use Rattle.sseq.specs.declared.index.Index.{Index};
ghost use Rattle.names.specs.OpenSections.{count_of};
ghost use Rattle.names.specs.Tokens.{token_at, open_index, held_of, Frees};

use crate::open::Open;
use calls::Ticket;
use indexmap::IndexMap;
use lines::Name;
use plugs::Lease;
use sections::{Held, Look, Reading};
use sseq::Index;
use std::alloc::{AllocError, Allocator};
use std::hash::{BuildHasherDefault, FoldHasher};
use std::marker::Model;

mod taking;

/// What has a name: a look; an open section, which its own processor ends or any may end; the ticket of a barrier; or a
/// lease, which is an open section too.
pub enum NamedToken<A: Allocator> {
    Look(Look),
    Reading(Reading),
    Held(Held),
    Ticket(Ticket<Name, A>),
    Lease(Lease),
}

/// Tokens under names. To find, to add and to take out one costs the same however many there are.
pub type Tokens<A> = IndexMap<Name, NamedToken<A>, BuildHasherDefault<FoldHasher>, A>;

/// The names in use in a domain, each with its token, and how many of these are open sections of each index. Open
/// sections must be ended: spend it by [`Names::into_tokens`].
pub struct Names<A: Allocator> {
    tokens: Tokens<A>,
    open: Open,
}

impl<A: Allocator> Model for Names<A> {
    ghost use Rattle.names.specs.Tokens.{NamesView};

    ghost Value = { NamesView A };

    ghost use Rattle.names.specs.Insides.{view_of_names, AreNames};

    ghost view = { view_of_names };

    ghost invariant = { AreNames };
}

impl<A: Allocator> Names<A> {
    /// No name is in use.
    pub fn new(alloc: A) -> Names<A>
    where
        A: Copy,
        ensures { result.tokens ≡ [] }
    {
        Names {
            tokens: IndexMap::with_hasher(alloc, BuildHasherDefault::new()),
            open: Open::NONE,
        }
    }

    /// What has the name.
    pub fn get(&self, name: &Name) -> Option<&NamedToken<A>>
        ensures { option_copied result ≡ token_at name.now self.now.tokens }
    {
        self.tokens.get(name)
    }

    /// How many of the tokens are open sections of each index.
    pub fn open(&self) -> Open
        ensures counted { (i : Index) → count_of i result ≡ held_of i self.now.tokens }
        ensures small { (i : Index) → count_of i result < 2 ^ 63 }
    {
        // It says that there are less than 2 ^ 63 names.
        let _len = self.tokens.len();
        self.open
    }

    /// Makes room for one more name.
    pub fn reserve(&mut self) -> Result<(), AllocError>
        ensures tokens { self.new.tokens ≡ self.old.tokens }
        ensures room { OnOk result (0 < self.new.room) }
    {
        self.tokens.reserve(1)
    }

    /// Gives a free name to a token. There must be room.
    pub fn insert(&mut self, name: Name, token: NamedToken<A>)
        requires free { token_at name self.old.tokens ≡ None }
        requires room { 0 < self.old.room }
        ensures { self.new.tokens ≡ self.old.tokens ++ (name, token) ∷ [] }
    {
        // It says that there are less than 2 ^ 63 names, so that one more can be counted.
        let _len = self.tokens.len();
        self.open.raise(token.open_index());
        match self.tokens.insert(name, token) {
            Ok(None) => {}
            Ok(Some(_old)) => unreachable!(),
            Err(_failed) => unreachable!(),
        }
    }

    /// Takes a token out. Its name is then free, and there is no less room than there was.
    pub fn remove(&mut self, name: &Name) -> Option<NamedToken<A>>
        ensures token { result ≡ token_at name.now self.old.tokens }
        ensures frees { Frees name.now self.old.tokens self.new.tokens }
        ensures others { IfSome result (λ t. (stored : List ℕ) × IsPermutation self.old.tokens ((stored, t) ∷ self.new.tokens)) }
        ensures room { 0 < self.old.room → 0 < self.new.room }
    {
        let place = self.tokens.get_index_of(name)?;
        let (_name, token) = self.tokens.swap_remove_index(place)?;
        self.open.lower(token.open_index());
        Some(token)
    }

    /// All names with their tokens.
    pub fn into_tokens(self) -> Tokens<A>
        ensures { result.entries ≡ self.tokens }
    {
        let Names { tokens, open: _ } = self;
        tokens
    }
}

/// Takes the last token out, or `None` where there is none.
pub fn take_last<A: Allocator>(tokens: &mut Tokens<A>) -> Option<NamedToken<A>>
    ensures none { IfNone result (tokens.new.entries ≡ []) }
    ensures last { IfSome result (λ t. (name : List ℕ) × (tokens.old.entries ≡ tokens.new.entries ++ (name, t) ∷ [])) }
    ensures fewer { IfSome result (λ t. length tokens.new.entries < length tokens.old.entries) }
{
    let (_name, token) = tokens.pop()?;
    Some(token)
}

impl<A: Allocator> NamedToken<A> {
    /// The index of the open section that this stands for.
    fn open_index(&self) -> Option<Index>
        ensures { result ≡ open_index self.now }
    {
        match self {
            NamedToken::Look(_) => None,
            NamedToken::Reading(reading) => Some(reading.index()),
            NamedToken::Held(held) => Some(held.index()),
            NamedToken::Ticket(_) => None,
            NamedToken::Lease(lease) => Some(lease.index()),
        }
    }
}
