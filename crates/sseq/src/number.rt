//! The number of a domain (`srcu_gp_seq`): how many grace periods have ended, and where the running one stands.
ghost use Rattle.std.specs.Prelude.{◌≡◌, ◌+◌, ◌*◌, ◌/◌, ◌%◌, ◌^◌, ◌<◌, ◌≤◌, ◌↔◌, SomeIff, IsTrue};
ghost use Rattle.sseq.specs.Numbers.{IsNumber, state_bits, periods_ended, cookie_at, IsDoneAt};

use std::fmt;
use std::marker::Model;

/// The number of a domain: four times the count of ended grace periods, and the state in the low two bits
/// (0 idle, 1 first scan, 2 second scan; the 3 of the kernel's bits is never used). It is at most 2^61. Contracts
/// see it as a plain number.
#[derive(Clone, Copy, PartialEq, Eq, PartialOrd, Ord, Hash)]
pub struct Number {
    value: u64,
}

impl Model for Number {
    ghost use Rattle.std.specs.Prelude.{ℕ};
    ghost use Rattle.sseq.specs.Numbers.{IsNumber};

    ghost Value = { ℕ };

    ghost view = { λ n. n.value };

    ghost invariant = { λ n. IsNumber n.value };

    ghost inverse = { λ n. record { value = n } };
}

impl Number {
    /// The largest number of a domain, 2^61.
    pub const MAX: u64 = 1 << 61;

    /// The number of a domain in which nothing has happened yet.
    pub const fn zero() -> Number
        ensures { result ≡ 0 }
    {
        Number { value: 0 }
    }

    /// `None` where no domain can have this number.
    pub fn new(value: u64) -> Option<Number>
        ensures { SomeIff result (IsNumber value) value }
    {
        if value % 4 <= 2 && value <= Number::MAX {
            Some(Number { value })
        } else {
            None
        }
    }

    pub fn get(self) -> u64
        ensures value { result ≡ self }
        ensures number { IsNumber result }
    {
        self.value
    }

    /// The number once a grace period has started (`rcu_seq_start`): one more, in the first scan.
    pub fn started(self) -> Number
        requires idle { self % 4 ≡ 0 }
        requires room { self < 2 ^ 61 }
        ensures { result ≡ self + 1 }
    {
        Number {
            value: self.value + 1, // from idle to the first scan
        }
    }

    /// The number once the second scan has begun: one more.
    pub fn flipped(self) -> Number
        requires { self % 4 ≡ 1 }
        ensures { result ≡ self + 1 }
    {
        Number {
            value: self.value + 1, // from the first scan to the second
        }
    }

    /// The number once the grace period has ended (`rcu_seq_end`): the next multiple of four.
    pub fn finished(self) -> Number
        requires scanned { self % 4 ≡ 2 }
        requires room { self < 2 ^ 61 }
        ensures { result ≡ self + 2 }
    {
        Number {
            value: self.value + 2,
        }
    }
}

impl fmt::Debug for Number {
    ghost use Rattle.std.specs.Prelude.{Some};
    ghost use Rattle.sseq.specs.Numbers.{shown_number};

    ghost debug_output = { λ n. Some (shown_number n) };

    fn fmt<W: fmt::Write>(&self, f: &mut fmt::Formatter<W>) -> fmt::Result {
        write!(f, "Number({})", self.get())
    }
}

impl fmt::Display for Number {
    ghost use Rattle.std.specs.Prelude.{Some, decimal};

    ghost output = { λ n. Some (decimal n) };

    fn fmt<W: fmt::Write>(&self, f: &mut fmt::Formatter<W>) -> fmt::Result {
        let value = self.get();
        write!(f, "{value}")
    }
}

/// Where the grace period of a domain stands (`rcu_seq_state`).
#[derive(Clone, Copy, Debug, PartialEq, Eq, Hash)]
pub enum Phase {
    /// No period runs.
    Idle,
    /// The index that is not current is scanned, before the flip.
    Scan1,
    /// The other index is scanned, after the flip.
    Scan2,
}

impl fmt::Display for Phase {
    ghost use Rattle.std.specs.Prelude.{Some};
    ghost use Rattle.sseq.specs.Numbers.{phase_text};

    ghost output = { λ phase. Some (phase_text phase) };

    fn fmt<W: fmt::Write>(&self, f: &mut fmt::Formatter<W>) -> fmt::Result {
        match self {
            Phase::Idle => f.write_str("idle"),
            Phase::Scan1 => f.write_str("scan1"),
            Phase::Scan2 => f.write_str("scan2"),
        }
    }
}

/// The state that a number has in its low two bits.
pub fn state(number: Number) -> Phase
    ensures { number % 4 ≡ state_bits result }
{
    match number.value % 4 {
        0 => Phase::Idle,
        1 => Phase::Scan1,
        2 => Phase::Scan2,
        _ => unreachable!(),
    }
}

/// How many grace periods have ended (`rcu_seq_ctr`).
pub fn completed(number: Number) -> u64
    ensures { result ≡ periods_ended number }
{
    number.value / 4
}

/// The cookie of a number (`rcu_seq_snap`): the number at which a grace period has ended that starts only after this.
/// At rest that is the next period, and while one runs the one behind it, since the running one may have begun too
/// early. The number is at most 2^61 - 4.
pub fn snap(number: Number) -> u64
    requires { number + 4 ≤ 2 ^ 61 }
    ensures meaning { result ≡ cookie_at number }
    ensures formula { result ≡ 4 * ((number + 7) / 4) }
{
    (number.value + 7) / 4 * 4
}

/// The number of the completed cookie, which is done in every domain and at every number
/// (`SRCU_GET_STATE_COMPLETED`). No other cookie has it: they are multiples of four.
pub const COMPLETED: u64 = 1;

/// Whether a cookie is done (`rcu_seq_done`): the number has reached it, or it is the completed one. Numbers do not wrap
/// here, so they are compared as they are.
pub fn is_done(number: Number, cookie: u64) -> bool
    ensures { IsTrue result ↔ IsDoneAt number cookie }
{
    cookie == COMPLETED || number.value >= cookie
}
