//! The limits that most domains have.
use domain::Limits;

/// As many sections, grace periods and slots as a domain may have, and no cell. A domain with cells is made with
/// `Limits { cells: 3, ..WIDEST }`.
pub const WIDEST: Limits = Limits {
    sections: Limits::MOST_SECTIONS,
    periods: Limits::MOST_PERIODS,
    cells: 0,
    slots: 8,
};
