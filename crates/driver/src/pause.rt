//! Pauses of a driver that has nothing to do.
use crate::stop::Stop;
use domain::{Domain, Heard};
use std::alloc::Allocator;
use std::sync::Wait;
use std::thread::yield_now;

/// What the next pause is.
#[derive(Clone, Copy)]
pub struct Pause {
    pause: domain::Pause,
    /// What the driver heard when it said that it is about to sleep until somebody asks. It looks for the last time.
    heard: Option<Heard>,
}

impl Pause {
    pub fn new() -> Pause {
        Pause {
            pause: domain::Pause::new(),
            heard: None,
        }
    }

    /// There was something to do.
    pub fn reset(&mut self) {
        *self = Pause::new();
    }

    /// Lets other threads run; later it sleeps, or until the sign is given, and lets them run once more after each sleep.
    pub fn sleep_until<R: Wait, J, A: Allocator>(&mut self, rt: &R, stop: &Stop<J, A>) {
        self.heard = None;
        match self.pause.next() {
            Some(length) => stop.sleep(rt, length),
            None => yield_now(),
        }
    }

    /// Lets other threads run; later it sleeps where no thread wakes it.
    pub fn sleep<R: Wait>(&mut self, rt: &R) {
        self.heard = None;
        self.pause.pause(rt);
    }

    /// Sleeps until somebody asks for a grace period, or the sign is given. The first time it only says so, and one more
    /// round looks: what was asked since the round before rang for no one, and the driver would sleep on.
    pub fn wait_for_asking<R: Wait, J, A: Allocator>(&mut self, rt: &R, domain: &Domain<J, A>) {
        match self.heard {
            Some(heard) => {
                domain.sleep(rt, heard);
                self.reset();
            }
            None => self.heard = Some(domain.listen()),
        }
    }
}
