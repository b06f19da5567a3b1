//! What a chain calls, and in which order it does.
ghost use Rattle.std.specs.Prelude.{◌^◌, ◌<◌, ◌≤◌, All, length, map};
ghost use Rattle.notify.specs.Blocks.{block_at};
ghost use Rattle.notify.specs.Calling.{GivesAt, Answers, AnswersOf};

use crate::text::{block, read};

/// A handler did nothing (`NOTIFY_DONE`).
pub const DONE: u32 = 0;

/// A handler did what it does (`NOTIFY_OK`).
pub const OK: u32 = 1;

/// With this bit in its result, no further handler is called (`NOTIFY_STOP_MASK`).
pub const STOP_BIT: u32 = 0x8000;

/// A handler did what it does, and none is to be called behind it (`NOTIFY_STOP`).
pub const STOP: u32 = OK | STOP_BIT;

/// A handler objects, and none is to be called behind it (`NOTIFY_BAD`).
pub const BAD: u32 = 2 | STOP_BIT;

/// What is called for a block (`notifier_block`). It may sleep.
pub trait Handler: Drop {
    ghost use Rattle.std.specs.Prelude.{ℕ};

    /// Which results it may give, to this action and this value.
    ghost answers: { Self → ℕ → ℕ → ℕ → Type 0 };

    /// Hears of an action, with a value.
    fn call(&self, action: u64, value: u64) -> u32
        ensures { answers self.now action value result };
}

/// Calls the handlers of the blocks that have these words, in their order, up to the first result that has [`STOP_BIT`]. What it gives is the
/// last result, 0 where there is none, and how many were called.
#[inline(always)]
fn call_all(used: &[u64], handlers: &[Box<dyn Handler>], action: u64, value: u64) -> (u32, u64)
    requires { All (λ b. b.id < length handlers.now) (map block_at used.now) }
    ensures { Answers (GivesAt (λ h r. answers h action value r) handlers.now) (map block_at used.now) result.0 result.1 }
{
    let mut last = DONE;
    for (place, word) in used.iter().enumerate() {
        let block = block(*word);
        last = call_one(&handlers[block.id as usize], action, value);
        if last & STOP_BIT != 0 {
            return (last, place as u64 + 1);
        }
    }
    (last, used.len() as u64)
}

/// Calls the handlers of the blocks as which these words are read.
#[inline(always)]
pub(crate) fn call_read(
    words: &[u64; 16],
    ids: u64,
    handlers: &[Box<dyn Handler>],
    action: u64,
    value: u64,
) -> (u32, u64)
    requires ids { ids ≤ 2 ^ 32 }
    requires handlers { ids ≤ length handlers.now }
    ensures { AnswersOf (GivesAt (λ h r. answers h action value r) handlers.now) ids words.now result.0 result.1 }
{
    call_all(read(words, ids), handlers, action, value)
}

#[inline(always)]
fn call_one(handler: &Box<dyn Handler>, action: u64, value: u64) -> u32
    ensures { answers handler.now action value result }
{
    handler.call(action, value)
}
