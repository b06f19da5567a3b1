//! The bell: it wakes who sleeps until a grace period is asked for. Its word is odd while somebody listens, and each ring
//! then takes it to the next number. A thread sleeps on the number that it heard: were there two values alone, a second
//! listener would set the old one again behind a ring, and the first would sleep on.
use crate::domain::Domain;
use std::alloc::Allocator;
use std::sync::Wait;
use std::sync::atomic::Ordering::SeqCst;

/// No thread has listened yet.
pub(crate) const QUIET: u64 = 0;

/// The number of the bell's next ring, as [`Domain::listen`] heard it.
#[derive(Clone, Copy)]
pub struct Heard {
    number: u64,
}

impl<J, A: Allocator> Domain<J, A> {
    /// Says that the caller is about to sleep: whoever asks for a grace period from now on rings. After this call look once
    /// more whether there is something to do, and only then sleep ([`Domain::sleep`]). That look finds what was asked before
    /// it, and what is asked later rings.
    pub fn listen(&self) -> Heard {
        let word = self.bell.load(SeqCst);
        let number = word | 1;
        if word != number {
            // Where this fails, another thread listens as well, or the bell was rung, and then nobody sleeps on this number.
            let _ = self.bell.compare_exchange(word, number, SeqCst, SeqCst);
        }
        Heard { number }
    }

    /// Sleeps until the bell is rung, if it wasn't since it was heard so. It may also end for no reason. It takes no
    /// memory.
    pub fn sleep<R: Wait>(&self, rt: &R, heard: Heard) {
        // A sleep compares the lower half alone.
        self.bell.park(rt, (heard.number % (1 << 32)) as u32);
    }

    /// Wakes all that sleep, and lets those that are about to sleep look again. Where no thread listens, it makes one load.
    /// Each call that asks for a grace period rings once it has asked. It takes no memory and does not wait.
    pub fn ring(&self) {
        let word = self.bell.load(SeqCst);
        if word % 2 == 1 {
            // Where this fails, another thread has rung for the same listeners.
            let _ = self
                .bell
                .compare_exchange(word, word.wrapping_add(1), SeqCst, SeqCst);
            self.bell.wake_all();
        }
    }
}
