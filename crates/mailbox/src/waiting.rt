//! Threads that wait at a mailbox.

use crate::mailbox::Mailbox;
use crate::posted::Posted;
use std::alloc::Allocator;
use std::sync::Wait;
use std::thread::yield_now;

impl<T: Posted<K>, K, A: Allocator> Mailbox<T, K, A> {
    /// As [`Mailbox::post`], but waits until nothing lies there: for ever, where no thread takes.
    pub fn post_waiting<R: Wait>(&self, rt: &R, mut value: T)
        requires { T.fits value self.now.key }
    {
        for _ in rt.forever() {
            match self.post(value) {
                Ok(()) => return,
                Err(back) => value = back,
            }
            yield_now();
        }
        unreachable!()
    }

    /// As [`Mailbox::take`], but waits until a value lies there: for ever, where no thread posts.
    pub fn take_waiting<R: Wait>(&self, rt: &R) -> T
        ensures { T.fits result self.now.key }
    {
        for _ in rt.forever() {
            if let Some(value) = self.take() {
                return value;
            }
            yield_now();
        }
        unreachable!()
    }
}
