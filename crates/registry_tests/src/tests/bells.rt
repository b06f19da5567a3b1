//! A device that counts how often one of its kind is dropped, and tells whether it was returned.

use std::alloc::AllocError;
use std::sync::Arc;
use std::sync::atomic::Ordering::SeqCst;
use std::sync::atomic::{AtomicBool, AtomicU64};

/// A device with a number. Its owner switches it off once it has it back.
pub(crate) struct Bell {
    pub(crate) number: u64,
    pub(crate) off: AtomicBool,
    rung: Arc<AtomicU64>,
}

impl Drop for Bell {
    fn drop(self) {
        let Bell {
            number: _,
            off: _,
            rung,
        } = self;
        rung.fetch_add(1, SeqCst);
        drop(rung);
    }
}

/// A device that is on.
pub(crate) fn bell(number: u64, rung: &Arc<AtomicU64>) -> Result<Bell, AllocError> {
    Ok(Bell {
        number,
        off: AtomicBool::new(false),
        rung: Arc::try_clone(rung)?,
    })
}
