//! What a look and a cookie tell, without a step.
ghost use Rattle.std.specs.Prelude.{◌≡◌, ◌≢◌, ◌^◌, ◌≤◌, ◌↔◌, IsTrue};
ghost use Rattle.sseq.specs.Numbers.{IsCookieNumber};
ghost use Rattle.sections.specs.Calls.{EndsWithNote};
ghost use Rattle.sections.specs.Views.{completed_cookie};

use super::{Cookie, Look};
use sseq::{COMPLETED, Index};

impl Look {
    /// The index that was read.
    pub fn index(&self) -> Index
        ensures { result ≡ self.now.index }
    {
        self.index
    }
}

impl Cookie {
    /// The completed cookie (`get_completed_synchronize_srcu`): it is done in every domain. It comes from nothing, so it
    /// brings nothing that was seen.
    pub fn completed() -> Cookie
        ensures { result ≡ completed_cookie }
    {
        Cookie {
            number: COMPLETED,
            seat: None,
        }
    }

    /// Whether it is the completed one.
    pub fn is_completed(&self) -> bool
        ensures completed { IsTrue result ↔ (self.now ≡ completed_cookie) }
        ensures number { IsTrue result ↔ (self.now.number ≡ 1) }
    {
        COMPLETED == self.number
    }

    /// The number of the domain at which it is done: a multiple of four, or 1 for the completed one, and at most 2^61, so
    /// that it is a [`Number`](sseq::Number) itself. What a cookie has seen that was given ends with its giving.
    pub fn number(&self) -> u64
        ensures value { result ≡ self.now.number }
        ensures whole { IsCookieNumber result }
        ensures small { result ≤ 2 ^ 61 }
        ensures given { self.now.number ≢ 1 → EndsWithNote self.now.number self.now.seen }
    {
        self.number
    }
}
