//! The line that is being read.
ghost use Rattle.std.specs.Prelude.{◌≡◌, ℕ, ◌≤◌, ◌↔◌, List, [], ◌∷◌, ◌++◌, Option, Some, None, take, if◌then◌else◌, IsTrue};
ghost use Rattle.std.specs.Option.{option_copied};
ghost use Rattle.lines.specs.Lines.{text_of};

use std::marker::Model;

/// How many bytes a line may have, without its line feed.
const LONGEST: usize = 200;

/// What was read of a line: its bytes for as long as it is text, and from then on only that it is none. So no more
/// than 200 bytes are kept, however long a line is.
#[derive(Drop)]
pub struct Line {
    bytes: [u8; LONGEST],
    count: usize,
    is_text: bool,
}

impl Model for Line {
    ghost Value = { Option (List ℕ) };

    ghost view = { λ line. if line.is_text then Some (take line.count line.bytes) else None };

    ghost invariant = { λ line. line.count ≤ 200 };
}

impl Line {
    /// A line of which nothing was read.
    pub fn new() -> Self
        ensures { result ≡ Some [] }
    {
        Line {
            bytes: [0; LONGEST],
            count: 0,
            is_text: true,
        }
    }

    /// Whether nothing was read of the line.
    pub fn is_empty(&self) -> bool
        ensures { IsTrue result ↔ (self.now ≡ Some []) }
    {
        self.is_text && self.count == 0
    }

    /// The bytes of the line, or `None` where it is no text.
    pub fn text(&self) -> Option<&[u8]>
        ensures { option_copied result ≡ self.now }
    {
        if self.is_text {
            Some(&self.bytes[..self.count])
        } else {
            None
        }
    }

    /// Reads one more byte, which is no line feed.
    pub fn push(&mut self, byte: u8)
        ensures { (front : List ℕ) → self.old ≡ text_of front → self.new ≡ text_of (front ++ byte ∷ []) }
    {
        if self.count < LONGEST && matches!(byte, b' '..=b'~') {
            self.bytes[self.count] = byte;
            self.count += 1;
        } else {
            self.is_text = false;
        }
    }

    /// Begins the next line.
    pub fn clear(&mut self)
        ensures { self.new ≡ Some [] }
    {
        self.count = 0;
        self.is_text = true;
    }
}
