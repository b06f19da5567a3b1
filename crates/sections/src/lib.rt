//! The shared words of a sleepable RCU domain, its processors and its engine's seat. Each step of each thread is one
//! event of one legal history, or none: a load, or a step of the flip, while that history stood still.
#![tactic(auto)]

mod board;
mod cpu;
mod engine;
mod laws;
mod limits;
mod making;
mod plays;
mod set;
mod sight;
mod token;
mod view;
mod writer;

pub use cpu::borrowing::Loan;
pub use cpu::pins::{Found, HeldPin, Pin, SectionPin};
pub use cpu::{
    Anywhere, Cookie, Cpu, Exhausted, Given, Held, Here, Kind, Look, NotACookie, Reading, Section,
};
pub use engine::EngineSeat;
pub use laws::{steps_of_a_domain, sums_of_a_domain, totals_of_a_domain, words_of_a_domain};
pub use limits::{Limits, MOST_PROCESSORS, MakeError};
pub use making::{Made, make};
pub use set::{CookieSet, MOST_MEMBERS, SetFull};
pub use sight::Sight;
pub use token::{Home, Token};
pub use writer::{Slot, Standing, Writer};
