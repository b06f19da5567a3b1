//! The words of a line: what a name is, and what a number is.
ghost use Rattle.std.specs.Prelude.{◌≡◌, IfOk, map};
ghost use Rattle.lines.specs.Lines.{is_name as is_name_lem, is_numeral as is_numeral_lem, number_of, words_of};

use std::alloc::{AllocError, Allocator};
use std::str;

/// How many characters a name may have.
const LONGEST_NAME: usize = 16;

/// The words of a line, which one or more spaces part.
pub fn words<A: Allocator>(alloc: A, line: &[u8]) -> Result<Vec<&[u8], A>, AllocError>
    ensures { IfOk result (λ all. map (λ w. w.now) all.items ≡ words_of line.now) }
{
    line.split(|byte| *byte == b' ')
        .filter(|word| !word.is_empty())
        .collect(alloc)
}

/// Whether a word is a name: 1 to 16 characters of `a` to `z` and `0` to `9`.
pub fn is_name(word: &[u8]) -> bool
    ensures { result ≡ is_name_lem word.now }
{
    !word.is_empty()
        && word.len() <= LONGEST_NAME
        && word
            .iter()
            .all(|byte| byte.is_ascii_lowercase() || byte.is_ascii_digit())
}

/// Whether a word is decimal digits, without a sign and without leading zeros.
fn is_numeral(word: &[u8]) -> bool
    ensures { result ≡ is_numeral_lem word.now }
{
    let has_leading_zero = word.len() > 1 && word[0] == b'0';
    !word.is_empty() && !has_leading_zero && word.iter().all(|byte| byte.is_ascii_digit())
}

/// The number that a word is: decimal digits without a sign and without leading zeros, below 2^64.
pub fn number(word: &[u8]) -> Option<u64>
    ensures { result ≡ number_of word.now }
{
    if !is_numeral(word) {
        return None;
    }
    str::from_utf8(word).ok()?.parse().ok()
}
