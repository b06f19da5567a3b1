//! The pairs of a `notify`.
ghost use Rattle.std.specs.Prelude.{◌≡◌, ◌<◌, IfSome, map, position, unwrap_or};
ghost use Rattle.std.specs.Option.{option_map};
ghost use Rattle.requests.specs.Faults.{texts};
ghost use Rattle.requests.specs.Pairs.{answers_of, is_colon, pair_of, pairs_of};

use crate::handler_answers::{Answer, HandlerAnswers};
use crate::numbers::id;

/// What the handlers are to answer that these words name, each by a pair of its own. `None` where a word is no pair, or
/// where two name the same handler.
pub fn answers(words: &[&[u8]]) -> Option<HandlerAnswers>
    ensures { result ≡ option_map (λ pairs. record { by_id = answers_of pairs }) (pairs_of (texts words.now)) }
{
    let mut named = [None; 16];
    for word in words {
        let (id, answer) = pair(word)?;
        if named[id].is_some() {
            return None;
        }
        named[id] = Some(answer);
    }
    Some(HandlerAnswers {
        by_id: or_done(named),
    })
}

/// A handler that no word names is to answer `done`.
fn or_done(named: [Option<Answer>; 16]) -> [Answer; 16]
    ensures { result ≡ map (λ answer. unwrap_or answer Answer.Done) named }
{
    named.map(|answer| answer.unwrap_or(Answer::Done))
}

/// The handler that a word names, and what it is to answer. `None` where the word is no pair.
fn pair(word: &[u8]) -> Option<(usize, Answer)>
    ensures value { result ≡ pair_of word.now }
    ensures id { IfSome result (λ p. p.0 < 16) }
{
    let colon = colon(word)?;
    let id = id(&word[..colon])?;
    let answer = Answer::of_word(&word[colon + 1..])?;
    Some((id as usize, answer))
}

/// Where the first colon of a word stands.
fn colon(word: &[u8]) -> Option<usize>
    ensures { result ≡ position is_colon word.now }
{
    word.iter().position(|byte| *byte == b':')
}
