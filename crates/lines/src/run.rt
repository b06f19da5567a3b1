//! The run of a script: lines in, replies out.
ghost use Rattle.std.specs.Prelude.{◌≡◌, ℕ, Bool, List, [], Option, IfOk, MatchResult};
ghost use Rattle.std.specs.Option.{option_copied};
ghost use Rattle.std.specs.Io.KnownBytes.{Appends, Consumes, IsAtEnd};
ghost use Rattle.lines.specs.Lines.{lines_of};
ghost use Rattle.lines.specs.Runs.{EndsEarly, IsRun};

mod runner;

use crate::error::{Outcome, RunError};
use runner::Runner;
use std::alloc::{AllocError, Allocator};
use std::io::{Read, Write};
use std::sync::Wait;

/// How many bytes are read at once.
const CHUNK: usize = 4096;

/// What answers the lines of a script.
pub trait Answers<A: Allocator> {
    // From a state: the number of a line, its text, or `None` where it is no text, a reply that it may have, whether
    // it is faulty, and the state after it.
    ghost gives: { Self → ℕ → Option (List ℕ) → List ℕ → Bool → Self → Type 0 };

    /// Runs one line, puts its reply with a line feed into `reply`, or nothing where the line is skipped, and says
    /// whether the line is faulty. `line` is `None` for a line that is no text. Where memory is wanted, the reply
    /// isn't used, and the run ends.
    fn answer(
        &mut self,
        number: u64,
        line: Option<&[u8]>,
        reply: &mut Vec<u8, A>,
    ) -> Result<bool, AllocError>
        requires { reply.old.items ≡ [] }
        ensures { IfOk result (λ faulty. gives self.old number (option_copied line.entry) reply.new.items faulty self.new) };
}

/// Runs the lines that `reader` gives, from number 1 on, and writes each reply before the next line is run. What stands
/// behind the last line feed is a line too, unless it is empty.
///
/// Every error of the reader or the writer ends the run, an interrupted read or write too, and so does a write that takes
/// no byte. A line is never kept beyond 200 bytes.
pub fn run_lines<A: Allocator, S: Answers<A>, R: Read, W: Write>(
    alloc: A,
    rt: &impl Wait,
    answerer: &mut S,
    reader: &mut R,
    writer: &mut W,
) -> Result<Outcome, RunError>
    ensures { (taken : List ℕ) × (given : List ℕ)
        × Consumes (R.remaining reader.old) (R.remaining reader.new) taken
        × Appends (W.contents writer.old) (W.contents writer.new) given
        × MatchResult result
        (λ outcome. IsRun S.gives answerer.old 1 (lines_of taken) given outcome.faulty answerer.new
        × IsAtEnd (R.remaining reader.new))
        (λ error. EndsEarly S.gives answerer.old taken given error answerer.new) }
{
    let mut runner = Runner::new(alloc);
    let mut chunk = [0; CHUNK];
    for _ in rt.forever() {
        match reader.read(&mut chunk) {
            Ok(0) => return runner.finish(rt, answerer, writer),
            Ok(count) => runner.feed(rt, answerer, &chunk[..count], writer)?,
            Err(_) => return Err(RunError::Read),
        }
    }
    unreachable!()
}
