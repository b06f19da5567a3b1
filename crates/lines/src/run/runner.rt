//! The lines of what is read, a part at a time.
ghost use Rattle.std.specs.Prelude.{◌≡◌, ℕ, ◌+◌, ◌||◌, Bool, false, List, [], ◌++◌, Some, MatchResult};
ghost use Rattle.std.specs.Io.KnownBytes.{Appends};
ghost use Rattle.lines.specs.Lines.{lines_of};
ghost use Rattle.lines.specs.Runs.{AnswerFails, EndsEarly, IsRun, IsSoFar};

use super::Answers;
use crate::error::{Outcome, RunError};
use crate::line::Line;
use crate::output::write_all;
use std::alloc::Allocator;
use std::io::Write;
use std::sync::Wait;

/// Runs the lines of what it is fed.
#[derive(Drop)]
pub struct Runner<A: Allocator> {
    /// What was read of the next line.
    line: Line,
    /// The number of the next line, from 1 on.
    number: u64,
    /// Whether a line before it was faulty.
    faulty: bool,
    /// Room for a reply.
    reply: Vec<u8, A>,
}

/// The number after `number`. No run gets to 2^64 lines: here it would wait forever, as `forever` itself does.
fn number_after(rt: &impl Wait, number: u64) -> u64
    ensures { result ≡ number + 1 }
{
    if let Some(next) = number.checked_add(1) {
        return next;
    }
    for _ in rt.forever() {}
    unreachable!()
}

impl<A: Allocator> Runner<A> {
    /// A runner before the first line.
    pub fn new(alloc: A) -> Self
        ensures line { result.line ≡ Some [] }
        ensures number { result.number ≡ 1 }
        ensures faulty { result.faulty ≡ false }
    {
        Runner {
            line: Line::new(),
            number: 1,
            faulty: false,
            reply: Vec::new(alloc),
        }
    }

    /// Runs the line that was read, and writes its reply.
    fn end_line<S: Answers<A>, W: Write>(
        &mut self,
        rt: &impl Wait,
        answerer: &mut S,
        writer: &mut W,
    ) -> Result<(), RunError>
        ensures { MatchResult result
            (λ _. (reply : List ℕ) × (faulty : Bool)
            × S.gives answerer.old self.old.number self.old.line reply faulty answerer.new
            × Appends (W.contents writer.old) (W.contents writer.new) reply
            × (self.new.line ≡ Some []) × (self.new.number ≡ self.old.number + 1)
            × (self.new.faulty ≡ (self.old.faulty || faulty)))
            (λ error. AnswerFails S.gives answerer.old self.old.number self.old.line
            (W.contents writer.old) (W.contents writer.new) error answerer.new) }
    {
        self.reply.clear();
        let faulty = answerer
            .answer(self.number, self.line.text(), &mut self.reply)
            .map_err(|_| RunError::Memory)?;
        write_all(writer, &self.reply)?;
        self.line.clear();
        self.number = number_after(rt, self.number);
        self.faulty |= faulty;
        Ok(())
    }

    /// Runs the lines that end within `bytes`, which come behind what was fed before.
    pub fn feed<S: Answers<A>, W: Write>(
        &mut self,
        rt: &impl Wait,
        answerer: &mut S,
        bytes: &[u8],
        writer: &mut W,
    ) -> Result<(), RunError>
        ensures { (start : S) (taken given : List ℕ)
            → IsSoFar S.gives start taken given self.old.line self.old.number self.old.faulty answerer.old
            → ((more : List ℕ) × Appends (W.contents writer.old) (W.contents writer.new) more
            × MatchResult result
            (λ _. IsSoFar S.gives start (taken ++ bytes.now) (given ++ more)
            self.new.line self.new.number self.new.faulty answerer.new)
            (λ error. EndsEarly S.gives start (taken ++ bytes.now) (given ++ more) error answerer.new)) }
    {
        for byte in bytes {
            if *byte == b'\n' {
                self.end_line(rt, answerer, writer)?;
            } else {
                self.line.push(*byte);
            }
        }
        Ok(())
    }

    /// Runs what stands behind the last line feed, unless it is empty.
    pub fn finish<S: Answers<A>, W: Write>(
        mut self,
        rt: &impl Wait,
        answerer: &mut S,
        writer: &mut W,
    ) -> Result<Outcome, RunError>
        ensures { (start : S) (taken given : List ℕ)
            → IsSoFar S.gives start taken given self.line self.number self.faulty answerer.old
            → ((more : List ℕ) × Appends (W.contents writer.old) (W.contents writer.new) more
            × MatchResult result
            (λ outcome. IsRun S.gives start 1 (lines_of taken) (given ++ more) outcome.faulty answerer.new)
            (λ error. EndsEarly S.gives start taken (given ++ more) error answerer.new)) }
    {
        if !self.line.is_empty() {
            self.end_line(rt, answerer, writer)?;
        }
        Ok(Outcome {
            faulty: self.faulty,
        })
    }
}
