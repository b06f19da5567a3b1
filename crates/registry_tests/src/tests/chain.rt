//! A notifier chain of any length: a registry whose keys are a priority and an id.

use super::places::{Place, drive, place_of};
use std::alloc::Global;
use std::cmp::Reverse;
use std::ops::ControlFlow;
use std::test::Fail;

/// Answers a call.
trait Answer: Drop {
    fn answer(&self, action: u64) -> u64;
}

/// Adds its own number.
#[derive(Drop)]
struct Adds {
    own: u64,
}

impl Answer for Adds {
    fn answer(&self, action: u64) -> u64 {
        self.own.wrapping_add(action)
    }
}

/// The highest priority first, and then the lowest id.
type Place32 = (Reverse<u32>, u64);

/// Would catch handlers that are called out of order, twice or not at all, and a chain that doesn't stop.
#[test]
fn a_chain_of_forty(rt: HostRuntime) -> Result<(), Fail> {
    let Place {
        domain,
        mut cpu,
        others: _,
        mut registry,
        mut users,
    } = place_of::<Place32, Box<dyn Answer>>(rt.alloc(), 1, 4)?;
    for id in 0u64..40 {
        let handler: Box<dyn Answer> = Box::new(rt.alloc(), Adds { own: id })?;
        let priority = Reverse((id % 4) as u32);
        let put = registry.insert(&domain, &mut cpu, (priority, id), handler);
        assert_eq!(rt; put.is_ok(), true);
        drive(&domain, &mut cpu, 20);
    }
    let mut answers: Vec<u64> = Vec::new(rt.alloc());
    let last = users.for_each(&mut cpu, |_key, handler| -> ControlFlow<u64> {
        let _full = answers.push(handler.answer(100));
        ControlFlow::Continue(())
    })?;
    assert_eq!(rt; (last.is_break(), answers.len()), (false, 40));
    assert_eq!(rt;
        (answers[0], answers[9], answers[10], answers[39]),
        (103, 139, 102, 136)
    );
    let mut called = 0u64;
    let last = users.for_each(&mut cpu, |key, handler| {
        called = called.wrapping_add(1);
        if key.1 == 10 {
            return ControlFlow::Break(handler.answer(0));
        }
        ControlFlow::Continue(())
    })?;
    assert_eq!(rt; (last.break_value(), called), (Some(10), 13));
    Ok(())
}
