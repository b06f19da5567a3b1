//! Tables that are changed and read.
mod changes;
mod leases;
mod threads;
mod words;
mod world;
