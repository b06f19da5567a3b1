//! What a sleepable RCU domain promises, as events and histories, and a domain of one thread that runs.
#![tactic(auto)]

mod event;
mod illegal;
mod laws;
mod one_domain;

pub use event::{Event, Maker};
pub use illegal::Illegal;
pub use laws::{
    law_of_grace_periods, legality_of_histories, periods_of_a_legal_history,
    sections_of_a_legal_history, versions_of_a_legal_history,
};
pub use one_domain::{Memory, OneDomain, legal};
