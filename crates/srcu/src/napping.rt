//! Sleeps of a thread that waits for others.
use domain::Pause;
use std::sync::Wait;
use std::sync::atomic::AtomicU64;

/// The next sleep of these pauses, at once: those that only let other threads run are left out. A thread that lets a reader run
/// gets its core back much later than the reader has left its section. From a sleep it wakes in time.
pub(crate) fn nap<R: Wait>(rt: &R, pause: &mut Pause) {
    for _ in rt.forever() {
        match pause.next() {
            Some(length) => {
                // The word is fresh, so no other thread can wake this one: the sleep lasts its time.
                AtomicU64::new(0).park_timeout(rt, 0, length);
                return;
            }
            None => {}
        }
    }
    unreachable!()
}
