ghost use Rattle.funnel.specs.Calls.{IsOfProcessor, AreOfProcessors};

use super::*;
use crate::view::Holder;
use sseq::{Needs, Number};
use std::test::Fail;
use std::thread;

fn number(value: u64) -> Number {
    Number::new(value).unwrap_or(Number::zero())
}

/// The processor of that number asks. `None` where there is no such processor.
fn ask_at(seats: &mut [FunnelSeat], processor: usize, asked: u64) -> Option<Level>
    requires { AreOfProcessors seats.old }
    ensures { AreOfProcessors seats.new }
{
    if processor >= seats.len() {
        return None;
    }
    Some(seats[processor].ask(number(asked)))
}

/// Would catch a call that stops too soon or too late, or that starts at another leaf.
#[test]
fn levels(rt: HostRuntime) -> Result<(), Fail> {
    let trees = [
        (
            64,
            [
                (0, 4, 3, false, 4),
                (1, 4, 1, true, 4),
                (4, 4, 2, true, 4),
                (16, 8, 3, false, 8),
                (0, 8, 3, true, 8),
            ],
        ),
        (
            256,
            [
                (0, 4, 4, false, 4),
                (64, 4, 4, true, 4),
                (1, 4, 1, true, 4),
                (16, 4, 3, true, 4),
                (255, 8, 4, false, 8),
            ],
        ),
    ];
    for (processors, calls) in trees {
        let (mut seats, mut engine) = make(rt.alloc(), processors)?;
        for (processor, asked, nodes, found, root) in calls {
            let level = ask_at(seats.as_mut_slice(), processor, asked);
            assert_eq!(rt;
                (processors, processor, level, engine.root_need()),
                (
                    processors,
                    processor,
                    Some(Level { nodes, found }),
                    number(root)
                )
            );
        }
    }
    Ok(())
}

/// Would catch a tree that is too high or has no leaf for its last processor.
#[test]
fn heights(rt: HostRuntime) -> Result<(), Fail> {
    let trees = [
        (1, 1),
        (4, 1),
        (5, 2),
        (16, 2),
        (17, 3),
        (64, 3),
        (65, 4),
        (256, 4),
        (257, 5),
    ];
    for (processors, height) in trees {
        let (mut seats, mut engine) = make(rt.alloc(), processors)?;
        let count = seats.len();
        let before = engine.root_need();
        let first = ask_at(seats.as_mut_slice(), 0, 4);
        let last = ask_at(seats.as_mut_slice(), processors - 1, 8);
        let level = Level {
            nodes: height,
            found: false,
        };
        assert_eq!(rt;
            (count, first, last),
            (processors, Some(level), Some(level))
        );
        assert_eq!(rt; [before, engine.root_need()], [number(0), number(8)]);
    }
    Ok(())
}

/// Asks for four times the processor's number and four more.
fn ask_own(mut seat: FunnelSeat) -> Option<Level>
    requires { IsOfProcessor seat }
{
    let Holder::Processor(processor) = seat.holder else {
        return None;
    };
    Some(seat.ask(number(4 * (u64::from(processor) + 1))))
}

/// Would catch a raise that another thread's raise can undo, and a need that stays below the root.
#[test]
fn funnel_threads(rt: HostRuntime) -> Result<(), Fail> {
    let (seats, mut engine) = make(rt.alloc(), 16)?;
    let levels = thread::map_vec(
        &rt,
        seats,
        &|seat|
            requires { IsOfProcessor seat }
        { ask_own(seat) },
    )?;
    for level in levels.iter() {
        assert!(rt; level.is_some_and(|level| level.found || level.nodes == 2));
    }
    assert_eq!(rt; engine.root_need(), number(64));
    Ok(())
}

fn load<N: Needs>(needs: &mut N) -> Number {
    needs.root_need()
}

/// Would catch an engine that is told another need than the seat's own call finds.
#[test]
fn loads_through_needs(rt: HostRuntime) -> Result<(), Fail> {
    let (mut seats, mut engine) = make(rt.alloc(), 5)?;
    ask_at(seats.as_mut_slice(), 4, 6);
    assert_eq!(rt; load(&mut engine), number(6));
    ask_at(seats.as_mut_slice(), 0, 5);
    assert_eq!(rt; load(&mut engine), number(6));
    Ok(())
}

/// Would catch a tie that does not come back, of two processors and of a processor and the engine.
#[test]
fn ties(rt: HostRuntime) -> Result<(), Fail> {
    let (mut seats, mut engine) = make(rt.alloc(), 2)?;
    let mut second = seats.pop().unwrap();
    let mut first = seats.pop().unwrap();
    first.ask(number(4));
    first.tie(&mut second);
    engine.tie(&mut first);
    second.tie(&mut engine);
    assert_eq!(rt; second.root_need(), number(4));
    tree_of_a_funnel();
    needs_of_a_tree();
    Ok(())
}
