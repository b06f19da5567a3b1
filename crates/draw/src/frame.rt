//! Where the rows of a picture stand.
use crate::places::Places;
use account::{MOST_SHOWN, Run};

/// How high a row is, and where the first one begins.
pub const ROW: u64 = 20;

const TOP: u64 = 34;

/// Twelve bytes of the font are as wide as this many units, in tenths.
const CHARACTER: u64 = 73;

/// Where the rows of a picture stand.
#[derive(Clone, Copy)]
pub struct Frame {
    /// How many lines there are.
    pub lines: u32,
    /// The right edge of the numbers, and the left edges of the lines and of the replies.
    pub number: u64,
    pub text: u64,
    pub reply: u64,
    pub width: u64,
}

/// How wide a text of so many characters is.
pub fn wide(count: usize) -> u64 {
    (count as u64).saturating_mul(CHARACTER) / 10
}

/// The middle of a line's row.
pub fn y_of(line: u32) -> u64 {
    TOP.saturating_add(u64::from(line).saturating_mul(ROW))
        .saturating_sub(ROW / 2)
}

/// How long the longest line of a text is.
fn longest(text: &[u8]) -> usize {
    let mut longest = 0;
    for line in text.split(|byte| *byte == b'\n') {
        longest = line.len().max(longest);
    }
    longest
}

impl Frame {
    /// The numbers, the lines and the replies are each as wide as the longest of them.
    pub fn new(places: &Places, run: &Run<'_>) -> Frame {
        let (script, told) = (run.script, &run.account.told);
        let all = longest(script).min(MOST_SHOWN + 2).max(12);
        let said = longest(run.replies).max(8);
        let number = places.width.saturating_add(44);
        let text = number.saturating_add(10);
        let reply = text
            .saturating_add(wide(told.longest_answered(script)))
            .saturating_add(24);
        let right = reply
            .saturating_add(wide(said))
            .max(text.saturating_add(wide(all)));
        Frame {
            lines: u32::try_from(told.rows.len()).unwrap_or(u32::MAX),
            number,
            text,
            reply,
            width: right.saturating_add(16).max(560),
        }
    }
}
