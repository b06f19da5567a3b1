//! What the words of the command line ask for.
ghost use Rattle.std.specs.Prelude.{◌≤◌, IfSome};
ghost use Rattle.srcubench.specs.Jobs.{IsMeasurable};

use crate::alone::Loop;
use sections::Limits;

/// The most repetitions of one measurement.
const MOST_REPETITIONS: u64 = 1_000;

/// What to do.
#[derive(Clone, Copy, Debug, PartialEq, Eq)]
pub enum Job {
    /// Count pairs and grace periods, and print no times.
    Count,
    /// Measure so many pairs in each thread, and a quarter of that in grace periods, so many times.
    Time { pairs: u64, repetitions: u64 },
    /// Do one thing so many times, and print nothing.
    Alone { which: Loop, times: u64 },
}

fn number_up_to(word: &str, most: u64) -> Option<u64>
    ensures { IfSome result (λ number. (1 ≤ number) × (number ≤ most)) }
{
    let number = word.parse::<u64>().ok()?;
    if 1 <= number && number <= most {
        Some(number)
    } else {
        None
    }
}

/// `None` where the words are neither nothing, nor a number of pairs and a number of repetitions, nor `alone`, the name of a
/// loop and how often.
pub fn job_of(words: &[String]) -> Option<Job>
    ensures { IfSome result IsMeasurable }
{
    match words {
        [] => Some(Job::Count),
        [word, name, times] if word.as_str() == "alone" => Some(Job::Alone {
            which: Loop::named(name)?,
            times: number_up_to(times, Limits::MOST_SECTIONS)?,
        }),
        [pairs, repetitions] => Some(Job::Time {
            pairs: number_up_to(pairs, Limits::MOST_SECTIONS)?,
            repetitions: number_up_to(repetitions, MOST_REPETITIONS)?,
        }),
        _ => None,
    }
}
