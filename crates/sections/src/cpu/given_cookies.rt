//! Cookies that a processor gave, in half the room.
ghost use Rattle.std.specs.Prelude.{◌≡◌, ◌%◌, ◌^◌, ◌≤◌};
ghost use Rattle.sections.specs.Calls.{EndsWithNote};

use super::{Cookie, Given};

impl Given {
    /// The number of the domain at which it is done: a multiple of four, and at most 2^61, so that it is a
    /// [`Number`](sseq::Number) itself. What the cookie has seen ends with its giving.
    pub fn number(&self) -> u64
        ensures value { result ≡ self.now.number }
        ensures whole { result % 4 ≡ 0 }
        ensures small { result ≤ 2 ^ 61 }
        ensures given { EndsWithNote self.now.number self.now.seen }
    {
        self.number
    }

    /// The same cookie, which any processor of its domain may poll.
    pub fn into_cookie(self) -> Cookie
        ensures { result ≡ self }
    {
        Cookie {
            number: self.number,
            seat: Some(self.seat),
        }
    }
}
