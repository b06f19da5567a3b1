//! Taking a domain down.
ghost use Rattle.std.specs.Prelude.{◌≡◌, MatchResult};
ghost use Rattle.session.specs.Entries.{AreClosed, AreSpent};
ghost use Rattle.solo.specs.Cleanup.{IsTakenDown};
ghost use Rattle.session.specs.Scripts.{IsInUse};

use super::Entry;
use crate::batch_out::Out;
use names::{NamedToken, Names, Parking, take_last};
use requests::Cause;
use solo::{InUse, Totals};
use std::alloc::Allocator;

/// Drops what is left of a domain that was taken down: its looks and tickets, and its desk.
fn drop_all<'a, A: Allocator>(
    names: Names<&'a A>,
    parking: Parking<&'a A>,
    mut outs: Vec<Out<&'a A>, &'a A>,
)
    requires { AreSpent names.tokens parking outs.items }
{
    let parked = parking.close();
    let None = parked else { unreachable!() };
    drop_tokens(names);
    while let Some(last) = outs.pop() {
        let batch = last.into_batch();
        let None = batch else { unreachable!() };
    }
    outs.destroy_empty();
}

/// Drops looks and tickets.
fn drop_tokens<A: Allocator>(names: Names<A>)
    requires { AreClosed names.tokens }
{
    let mut tokens = names.into_tokens();
    while let Some(token) = take_last(&mut tokens) {
        match token {
            NamedToken::Look(_look) => {}
            NamedToken::Ticket(_ticket) => {}
            NamedToken::Reading(_reading) => unreachable!(),
            NamedToken::Held(_held) => unreachable!(),
            NamedToken::Lease(_lease) => unreachable!(),
        }
    }
    tokens.destroy_empty();
}

impl<'a, A: Allocator> Entry<&'a A> {
    /// Takes the domain down, and drops its looks and its tickets; or tells why it is in use, and it comes back as it was.
    pub fn cleanup(self) -> Result<Totals, (Cause, Entry<&'a A>)>
        ensures { MatchResult result
            (λ totals. IsTakenDown self.entry.state.course totals)
            (λ refused. IsInUse self.entry.state.course refused.0 × (refused.1 ≡ self.entry)) }
    {
        let Entry {
            name,
            domain,
            names,
            parking,
            outs,
            chain,
            board,
        } = self;
        match domain.cleanup() {
            Ok(totals) => {
                // No section is open and each job is finished, so nothing is left that has to be spent.
                drop_all(names, parking, outs);
                Ok(totals)
            }
            Err((in_use, domain)) => {
                let entry = Entry {
                    name,
                    domain,
                    names,
                    parking,
                    outs,
                    chain,
                    board,
                };
                match in_use {
                    InUse::Sections(open) => Err((Cause::Sections(open), entry)),
                    InUse::Period => Err((Cause::Period, entry)),
                    InUse::Callbacks(waiting) => Err((Cause::Callbacks(waiting), entry)),
                    // All processors are in one hand.
                    InUse::Missing(_missing) => unreachable!(),
                }
            }
        }
    }
}
