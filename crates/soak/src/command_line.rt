//! What the words of the command line ask for.
use crate::worker::Length;

/// How many rounds each worker makes where nothing else is asked for.
const ROUNDS: u64 = 200;

/// The most seconds of one run: a day.
const MOST_SECONDS: u64 = 86_400;

/// `None` where the words are neither nothing nor a number of seconds, from 1 to a day.
pub fn length_of(words: &[String]) -> Option<Length> {
    match words {
        [] => Some(Length::Rounds(ROUNDS)),
        [seconds] => {
            let seconds = seconds.parse::<u64>().ok()?;
            (1 <= seconds && seconds <= MOST_SECONDS).then_some(Length::Seconds(seconds))
        }
        _ => None,
    }
}
