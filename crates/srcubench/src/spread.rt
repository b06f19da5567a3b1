//! How far repetitions of one measurement lie apart.
ghost use Rattle.std.specs.Prelude.{◌≡◌, ◌<◌, ◌≤◌, vec_len, IfOk};
ghost use Rattle.std.specs.Duration.{as_nanos};
ghost use Rattle.srcubench.specs.Samples.{cost_of_one};
ghost use Rattle.srcubench.specs.Spreads.{IsSpreadOf};

use std::alloc::AllocError;
use std::fmt;
use std::time::Duration;

/// What one pair or one grace period took in several repetitions, in hundredths of a nanosecond.
#[derive(Clone, Copy, Debug, PartialEq, Eq)]
pub struct Spread {
    pub median: u64,
    pub least: u64,
    pub most: u64,
}

impl Spread {
    /// The spread of one sample or more. Of an even number of samples the median is the upper one of the middle two.
    pub fn of(mut samples: Vec<u64>) -> Result<Spread, AllocError>
        requires { 0 < vec_len samples }
        ensures { IfOk result (IsSpreadOf samples.items) }
    {
        samples.sort()?;
        let sorted = samples.as_slice();
        Ok(Spread {
            median: sorted[sorted.len() / 2],
            least: sorted[0],
            most: sorted[sorted.len() - 1],
        })
    }
}

/// What one of so many took, in hundredths of a nanosecond, or the largest number where that is more.
pub fn cost_of_one(elapsed: Duration, count: u64) -> u64
    requires { 1 ≤ count }
    ensures { result ≡ cost_of_one (as_nanos elapsed) count }
{
    let hundredths = elapsed.as_nanos() * 100 / u128::from(count);
    u64::try_from(hundredths).unwrap_or(u64::MAX)
}

impl fmt::Display for Spread {
    fn fmt<W: fmt::Write>(&self, f: &mut fmt::Formatter<W>) -> fmt::Result {
        write!(
            f,
            "median {} least {} most {}",
            Nanos(self.median),
            Nanos(self.least),
            Nanos(self.most)
        )
    }
}

/// Hundredths of a nanosecond, printed as nanoseconds.
#[derive(Clone, Copy)]
struct Nanos(u64);

impl fmt::Display for Nanos {
    fn fmt<W: fmt::Write>(&self, f: &mut fmt::Formatter<W>) -> fmt::Result {
        write!(f, "{}.{:02}", self.0 / 100, self.0 % 100)
    }
}
