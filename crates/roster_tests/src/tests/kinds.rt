//! Handlers of several types in one roster.
ghost use Rattle.std.specs.Prelude.{◌≡◌};

use super::places::{Place, drive, place_of};
use notify::{Handler, OK, STOP_BIT};
use roster::Rank;
use std::test::Fail;

/// A handler of any type.
#[derive(Drop)]
struct Any {
    handler: Box<dyn Handler>,
}

impl Handler for Any {
    ghost answers = { λ _ _ _ _. Unit {0} };

    fn call(&self, action: u64, value: u64) -> u32 {
        self.handler.call(action, value)
    }
}

/// Answers with the value, below the stop bit.
#[derive(Drop)]
struct Echoes;

impl Handler for Echoes {
    ghost answers = { λ _ _ _ _. Unit {0} };

    fn call(&self, _action: u64, value: u64) -> u32 {
        (value % 1_000) as u32
    }
}

/// Stops the calls of one action.
#[derive(Drop)]
struct Stops {
    action: u64,
}

impl Handler for Stops {
    ghost answers = { λ _ _ _ _. Unit {0} };

    fn call(&self, action: u64, _value: u64) -> u32 {
        if action == self.action {
            OK | STOP_BIT
        } else {
            OK
        }
    }
}

/// Would catch a handler that is called with another action or value, and a call that doesn't stop at a box's result.
#[test]
fn two_kinds(rt: HostRuntime) -> Result<(), Fail> {
    let Place {
        domain,
        mut cpu,
        others: _,
        mut roster,
        mut callers,
    } = place_of::<Any>(rt.alloc(), 1)?;
    let first = Any {
        handler: Box::new(rt.alloc(), Stops { action: 5 })?,
    };
    let second = Any {
        handler: Box::new(rt.alloc(), Echoes)?,
    };
    for (id, handler) in [(1, first), (2, second)] {
        let put = roster.register(&domain, &mut cpu, Rank { priority: 0, id }, handler);
        assert_eq!(rt; put.is_ok(), true);
        drive(&domain, &mut cpu, 20);
    }
    assert_eq!(rt; callers.call(&mut cpu, 4, 77)?, 77);
    assert_eq!(rt; callers.call(&mut cpu, 5, 77)?, OK | STOP_BIT);
    Ok(())
}
