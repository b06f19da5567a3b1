//! Whom a call reaches.
ghost use Rattle.std.specs.Prelude.{◌≡◌};

use super::world::{IDS, World};
use notify::{BAD, DONE, Handler, OK, STOP};
use std::alloc::{AllocError, Global};
use std::sync::Arc;
use std::sync::atomic::AtomicU64;
use std::sync::atomic::Ordering::SeqCst;
use std::test::Fail;

/// A handler that always gives the same result, in which the action and the value can be told.
#[derive(Drop)]
struct Fixed {
    result: u32,
}

impl Handler for Fixed {
    ghost answers = { λ h action value result. result ≡ h.result };

    fn call(&self, _action: u64, _value: u64) -> u32 {
        self.result
    }
}

/// What a call answers: the last result, and how many handlers were called.
type Called = Option<(u32, u64)>;

/// What a call answers where the handler of each id gives the result at its place.
fn call(alloc: Global, world: &mut World, results: &[u32; 16]) -> Result<Called, AllocError> {
    let mut handlers: Vec<Box<dyn Handler>> = Vec::new(alloc);
    for result in results {
        handlers.push(Box::new(alloc, Fixed { result: *result })?)?;
    }
    Ok(world.view.call_chain(&mut world.cpu, &handlers, 1, 2).ok())
}

/// What a call answers before three blocks are registered and behind that, and whether each was.
fn call_three(alloc: Global, world: &mut World) -> Result<([bool; 3], [Called; 2]), AllocError> {
    let mut results = [DONE; 16];
    results[1] = OK;
    results[3] = 7;
    let before = call(alloc, world, &results)?;
    let first = world.register(1, 5).is_ok();
    let second = world.register(2, 5).is_ok();
    let third = world.register(3, 2).is_ok();
    let behind = call(alloc, world, &results)?;
    Ok(([first, second, third], [before, behind]))
}

/// Would catch a call of nobody, in another order, of another id's handler, or one that is counted wrong.
#[test]
fn all_are_called(rt: HostRuntime) -> Result<(), Fail> {
    let mut world = World::new(rt.alloc(), 8)?;
    let (registered, called) = call_three(rt.alloc(), &mut world)?;
    drop(world);
    assert_eq!(rt; registered, [true; 3]);
    assert_eq!(rt; called, [Some((DONE, 0)), Some((7, 3))]);
    Ok(())
}

/// What a call of two blocks answers that the second one stops, and one that the first one does, and whether both were
/// registered.
fn stop_two(alloc: Global, world: &mut World) -> Result<([bool; 2], [Called; 2]), AllocError> {
    let first = world.register(1, 5).is_ok();
    let second = world.register(2, 5).is_ok();
    let mut results = [OK; 16];
    results[2] = STOP;
    let by_second = call(alloc, world, &results)?;
    results[1] = BAD;
    let by_first = call(alloc, world, &results)?;
    Ok(([first, second], [by_second, by_first]))
}

/// Would catch a call that goes on behind a result with the stop bit, or that ends at another one.
#[test]
fn stopped(rt: HostRuntime) -> Result<(), Fail> {
    let mut world = World::new(rt.alloc(), 8)?;
    let (registered, called) = stop_two(rt.alloc(), &mut world)?;
    drop(world);
    assert_eq!(rt; registered, [true; 2]);
    assert_eq!(rt; called, [Some((STOP, 2)), Some((BAD, 1))]);
    Ok(())
}

/// Writes its digit behind those of the handlers that were called before, and gives a result.
#[derive(Drop)]
struct Logs {
    digit: u64,
    result: u32,
    log: Arc<AtomicU64>,
}

impl Handler for Logs {
    ghost answers = { λ h action value result. result ≡ h.result };

    fn call(&self, _action: u64, _value: u64) -> u32 {
        self.log.store(
            self.log
                .load(SeqCst)
                .wrapping_mul(10)
                .wrapping_add(self.digit),
            SeqCst,
        );
        self.result
    }
}

/// The digits of the handlers in the order in which they were called, where that of the block `stopper` stops the call, if
/// there is one.
fn log_of_call(alloc: Global, world: &mut World, stopper: u64) -> Result<u64, AllocError> {
    let log = Arc::new(alloc, AtomicU64::new(0))?;
    let mut handlers: Vec<Box<dyn Handler>> = Vec::new(alloc);
    for digit in 0..IDS {
        let logs = Logs {
            digit,
            result: if digit == stopper { STOP } else { OK },
            log: Arc::try_clone(&log)?,
        };
        handlers.push(Box::new(alloc, logs)?)?;
    }
    let _answer = world.view.call_chain(&mut world.cpu, &handlers, 1, 2);
    Ok(log.load(SeqCst))
}

/// Registers blocks in another order than they are called in. Tells whether each was.
fn register_four(world: &mut World) -> [bool; 4] {
    let fourth = world.register(4, 1).is_ok();
    let first = world.register(1, 5).is_ok();
    let third = world.register(3, 9).is_ok();
    let second = world.register(2, 5).is_ok();
    [first, second, third, fourth]
}

/// What is logged by a call that nobody stops, by one that the second handler stops, and by one that the first one does.
fn log_three(alloc: Global, world: &mut World) -> Result<[u64; 3], AllocError> {
    let all = log_of_call(alloc, world, 0)?;
    let two = log_of_call(alloc, world, 1)?;
    let one = log_of_call(alloc, world, 3)?;
    Ok([all, two, one])
}

/// Would catch a handler that is called twice, or not at all, or before one of higher priority, or behind the stop bit.
#[test]
fn calls_are_logged(rt: HostRuntime) -> Result<(), Fail> {
    let mut world = World::new(rt.alloc(), 8)?;
    let registered = register_four(&mut world);
    let logs = log_three(rt.alloc(), &mut world)?;
    drop(world);
    assert_eq!(rt; registered, [true; 4]);
    assert_eq!(rt; logs, [3124, 31, 3]);
    Ok(())
}
