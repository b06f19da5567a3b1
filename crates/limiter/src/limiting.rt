//! A limiter: it answers requests by the configuration that is there.
ghost use Rattle.std.specs.Prelude.{◌≡◌};
ghost use Rattle.srcu.specs.Words.{AreBoxesOf};
ghost use Rattle.limiter.specs.Sharing.{AreShared};

use crate::shared::{Config, Counts, Reader, Shared, Try, Worker, count};
use srcu::{Held, Part, Refusal};
use std::sync::Wait;
use std::sync::atomic::Ordering::SeqCst;

/// How many threads are limiters.
pub const LIMITERS: usize = 4;

/// How many requests a limiter gets.
pub const REQUESTS: u64 = 2_000;

/// Ends a held section, wherever it began.
pub fn end(worker: &mut Worker<'_>, held: Held, counts: &Counts)
    requires { held.domain ≡ worker.old.domain.domain }
    ensures { worker.new.domain ≡ worker.old.domain }
{
    worker.up_read(held); // srcu_up_read
    count(&counts.held);
    count(&counts.closed);
}

/// Ends the section that a limiter has left, if one has.
pub fn end_left(worker: &mut Worker<'_>, reader: &Reader, shared: &Shared)
    requires { AreShared worker.old.domain shared.now × (reader.now ≡ shared.now.config.boxes) }
    ensures { worker.new.domain ≡ worker.old.domain }
{
    if let Some(pin) = shared.pins.take() {
        let held = worker.release_held_box(reader, pin);
        end(worker, held, &shared.counts);
    }
}

/// Answers a request: it passes by the configuration that is there. Returns the number of that one.
fn answer(worker: &mut Worker<'_>, reader: &mut Reader, request: u64, counts: &Counts) -> Try<u64>
    requires { AreBoxesOf worker.old.domain reader.old }
    ensures worker { worker.new.domain ≡ worker.old.domain }
    ensures reader { reader.new ≡ reader.old }
{
    let ask = |config: &Part<Config>| (config.number, config.lets(request));
    let shown = worker.show(reader, ask)?; // in a section of its own
    let (number, passes) = shown.unwrap_or((0, false));
    count(&counts.opened);
    count(&counts.closed);
    if passes {
        count(&counts.passed);
    } else {
        count(&counts.refused);
    }
    Ok(number)
}

/// Ends the section that another limiter has left, and leaves one.
fn hand_on(worker: &mut Worker<'_>, reader: &mut Reader, shared: &Shared) -> Try<()>
    requires { AreShared worker.old.domain shared.now × (reader.old ≡ shared.now.config.boxes) }
    ensures worker { worker.new.domain ≡ worker.old.domain }
    ensures reader { reader.new ≡ reader.old }
{
    end_left(worker, &*reader, shared);
    let held = worker.down_read()?; // srcu_down_read
    count(&shared.counts.opened);
    match worker.find_held_box(reader, held) {
        Ok(pin) => {
            if let Err(pin) = shared.pins.post(pin) {
                let held = worker.release_held_box(&*reader, pin);
                end(worker, held, &shared.counts);
            }
        }
        Err(held) => end(worker, held, &shared.counts), // no part of it was free
    }
    Ok(())
}

/// Answers all requests of this limiter, and leaves a section now and then.
fn answer_all(worker: &mut Worker<'_>, reader: &mut Reader, shared: &Shared) -> Try<()>
    requires { AreShared worker.old.domain shared.now × (reader.old ≡ shared.now.config.boxes) }
    ensures worker { worker.new.domain ≡ worker.old.domain }
    ensures reader { reader.new ≡ reader.old }
{
    let mut last = 0;
    for request in 0..REQUESTS {
        let number = answer(worker, reader, request, &shared.counts)?;
        if number < last {
            count(&shared.counts.stale);
        }
        last = number;
        if request.is_multiple_of(16) {
            hand_on(worker, reader, shared)?;
        }
    }
    Ok(())
}

/// The whole of a limiter. No section is left once all have ended, and the last one gives the sign.
pub fn limit<R: Wait>(rt: &R, worker: &mut Worker<'_>, shared: &Shared) -> Try<()>
    requires { AreShared worker.old.domain shared.now }
    ensures { worker.new.domain ≡ worker.old.domain }
{
    let came = match shared.config.reader(rt, &*worker) {
        Ok(mut reader) => {
            let answered = answer_all(worker, &mut reader, shared);
            end_left(worker, &reader, shared);
            answered
        }
        Err(_) => Err(Refusal::Memory),
    };
    if shared.counts.ended.fetch_add(1, SeqCst) == LIMITERS as u64 - 1 {
        worker.tell(rt, &shared.stop);
    }
    came
}
