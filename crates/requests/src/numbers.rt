//! Words that should be numbers of a range.
ghost use Rattle.std.specs.Prelude.{◌≡◌, ◌^◌};
ghost use Rattle.requests.specs.Numbers.{id_of, number_below as number_below_lem, priority_of, word32_of};

use lines::number;

/// How many handlers there are.
const HANDLERS: u64 = 16;

/// The number that a word is, where it is below `end`.
fn number_below(end: u64, word: &[u8]) -> Option<u64>
    ensures { result ≡ number_below_lem end word.now }
{
    number(word).filter(|number| *number < end)
}

/// The id of a handler: a number below 16.
pub fn id(word: &[u8]) -> Option<u64>
    ensures { result ≡ id_of word.now }
{
    number_below(HANDLERS, word)
}

/// A key or a plug: a number below 2^32.
pub fn word32(word: &[u8]) -> Option<u32>
    ensures { result ≡ word32_of word.now }
{
    Some(number_below(1 << 32, word)? as u32)
}

/// A priority: a number below 2^31, or `-` before one from 1 to 2^31.
pub fn priority(word: &[u8]) -> Option<i32>
    ensures { result ≡ priority_of word.now }
{
    match word {
        [b'-', digits @ ..] => {
            let size = number_below((1 << 31) + 1, digits).filter(|size| *size != 0)?;
            Some(-(size as i64) as i32)
        }
        _ => Some(number_below(1 << 31, word)? as i32),
    }
}
