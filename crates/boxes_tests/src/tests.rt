//! Boxes that are put, read and had back.

mod alone;
mod bells;
mod edges;
mod emptying;
mod lasting;
mod places;
mod threads;
