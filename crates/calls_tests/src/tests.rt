//! What needs no engine. The other calls are tested in `domain`, which has one.
use sections::Limits;

mod meeting;
mod rooms;
mod unlocked;

const LIMITS: Limits = Limits {
    sections: 1 << 20,
    periods: 1 << 40,
    cells: 0,
    slots: 2,
};
