//! Writing a reply.
ghost use Rattle.std.specs.Prelude.{◌≡◌, ℕ, ◌<◌, length, take, MatchResult};
ghost use Rattle.std.specs.Io.KnownBytes.{Appends};

use crate::error::RunError;
use std::io::Write;

/// Writes all of `bytes`. Where a write fails, or takes no byte, some first bytes are written and no others.
pub fn write_all<W: Write>(writer: &mut W, bytes: &[u8]) -> Result<(), RunError>
    ensures { (count : ℕ) × Appends (W.contents writer.old) (W.contents writer.new) (take count bytes.now)
        × MatchResult result (λ _. count ≡ length bytes.now)
        (λ error. (error ≡ RunError.Write) × (count < length bytes.now)) }
{
    let mut done = 0;
    while done < bytes.len() {
        match writer.write(&bytes[done..]) {
            Ok(0) | Err(_) => return Err(RunError::Write),
            Ok(count) => done += count,
        }
    }
    Ok(())
}
