//! The list in which a processor's callbacks wait for grace periods, after the kernel's `struct rcu_segcblist`
//! (`include/linux/rcu_segcblist.h`, `kernel/rcu/rcu_segcblist.c`). It knows neither callbacks nor grace periods: its
//! entries are of any type, and its numbers are plain.
#![tactic(auto)]

mod seg_list;
mod segment;

pub use seg_list::{Memory, SegList};
