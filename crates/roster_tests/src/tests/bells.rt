//! A handler that says when it was called, and how often.

ghost use Rattle.std.specs.Prelude.{◌≡◌};

use notify::Handler;
use std::alloc::AllocError;
use std::sync::Arc;
use std::sync::atomic::Ordering::SeqCst;
use std::sync::atomic::{AtomicBool, AtomicU64};
use std::thread::yield_now;

/// It gives this result. Its owner switches it off once it has it back.
#[derive(Drop)]
pub(crate) struct Bell {
    pub(crate) id: u64,
    result: u32,
    pub(crate) calls: AtomicU64,
    /// How many calls of its kind there were before its last one.
    pub(crate) place: AtomicU64,
    pub(crate) off: AtomicBool,
    /// Whether it was called while it was off.
    pub(crate) late: AtomicBool,
    rung: Arc<AtomicU64>,
}

impl Handler for Bell {
    ghost answers = { λ h action value result. result ≡ h.result };

    fn call(&self, _action: u64, _value: u64) -> u32 {
        self.calls.fetch_add(1, SeqCst);
        self.place.store(self.rung.fetch_add(1, SeqCst), SeqCst);
        yield_now(); // it sleeps
        if self.off.load(SeqCst) {
            self.late.store(true, SeqCst);
        }
        self.result
    }
}

/// A handler that is on.
pub(crate) fn bell(id: u64, gives: u32, rung: &Arc<AtomicU64>) -> Result<Bell, AllocError> {
    Ok(Bell {
        id,
        result: gives,
        calls: AtomicU64::new(0),
        place: AtomicU64::new(0),
        off: AtomicBool::new(false),
        late: AtomicBool::new(false),
        rung: Arc::try_clone(rung)?,
    })
}
