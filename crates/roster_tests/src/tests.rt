//! Handlers that are registered, called, unregistered and had back.

mod bells;
mod kinds;
mod order;
mod places;
mod threads;
