ghost use Rattle.std.specs.Prelude.{◌≡◌, IfOk};

use scan::{Engine, NotStarted, PeriodsExhausted, Progress};
use sections::{Cpu, Limits, Made, MakeError, make};
use sseq::{Index, Needs, Number};
use std::alloc::Global;
use std::sync::atomic::{AtomicBool, Ordering};
use std::test::Fail;
use std::thread::join;

mod station;

const MANY: u64 = 10_000;

fn limits(periods: u64) -> Limits {
    Limits {
        sections: MANY,
        periods,
        cells: 0,
        slots: 2,
    }
}

fn number(value: u64) -> Number {
    Number::new(value).unwrap_or(Number::zero())
}

/// Needs that ask for one number for good.
#[derive(Drop)]
struct Asks(Number);

impl Needs for Asks {
    ghost loads = { λ a found b. (found ≡ a.0) × (b ≡ a) };

    fn root_need(&mut self) -> Number {
        self.0
    }
}

/// The processors of a new domain, and its engine, whose needs ask for this number.
fn new_domain(
    alloc: Global,
    processors: usize,
    periods: u64,
    need: u64,
) -> Result<(Vec<Cpu>, Engine<Asks>), MakeError> {
    let Made { cpus, engine, .. } = make(alloc, processors, limits(periods))?;
    Ok((cpus, Engine::new(engine, Asks(number(need)))))
}

/// Would catch an answer that no clause tells apart from another, and a period that does not get on.
#[test]
fn advances(rt: HostRuntime) -> Result<(), Fail> {
    for processors in [1, 2, 256] {
        let (_cpus, mut engine) = new_domain(rt.alloc(), processors, 1, 4)?;
        for answer in [
            Progress::Started(number(1)),
            Progress::Flipped(Index::One),
            Progress::Ended(number(4)),
            Progress::Idle,
            Progress::Idle,
        ] {
            assert_eq!(rt; (processors, engine.advance()), (processors, Ok(answer)));
        }
    }
    Ok(())
}

/// Would catch steps that are counted and not made, and an order of them that nobody meant.
#[test]
fn steps(rt: HostRuntime) -> Result<(), Fail> {
    let (_cpus, mut engine) = new_domain(rt.alloc(), 1, 1, 4)?;
    for (at, answer) in [
        Progress::Step,
        Progress::Started(number(1)),
        Progress::Step,
        Progress::Step,
        Progress::Step,
        Progress::Flipped(Index::One),
        Progress::Step,
        Progress::Step,
        Progress::Ended(number(4)),
        Progress::Idle,
    ]
    .into_iter()
    .enumerate()
    {
        assert_eq!(rt; (at, engine.step()), (at, Ok(answer)));
    }
    Ok(())
}

/// An engine over needs that answer 4: a period that they ask for, then none, then one that is started unasked. Would catch
/// an engine that has other needs than it was given, and a `start` that asks them.
#[test]
fn needs_that_answer_four(rt: HostRuntime) -> Result<(), Fail> {
    let Made {
        mut cpus,
        engine,
        ..
    } = make(rt.alloc(), 1, limits(2))?;
    let Some(mut cpu) = cpus.pop() else {
        panic!(rt; "there is one");
    };
    let mut engine = Engine::new(engine, Asks(number(4)));
    let mut cookie = cpu.cookie();
    let wanted = engine.step();
    let answers = [
        engine.advance(),
        engine.advance(),
        engine.advance(),
        engine.step(),
    ];
    engine.tie(&mut cpu);
    let done = cpu.poll(&mut cookie);
    let started = engine.start();
    assert_eq!(rt;
        (wanted, done, started),
        (Ok(Progress::Step), true, Ok(number(5)))
    );
    assert_eq!(rt;
        answers,
        [
            Ok(Progress::Started(number(1))),
            Ok(Progress::Flipped(Index::One)),
            Ok(Progress::Ended(number(4))),
            Ok(Progress::Idle),
        ]
    );
    Ok(())
}

/// What the engine answers three times.
fn three(engine: &mut Engine<Asks>) -> [Result<Progress, PeriodsExhausted>; 3] {
    [engine.advance(), engine.advance(), engine.advance()]
}

/// Would catch refusals that no caller gets, and a need that is asked twice for one period.
#[test]
fn starts(rt: HostRuntime) -> Result<(), Fail> {
    let (_cpus, mut engine) = new_domain(rt.alloc(), 1, 1, 8)?;
    let started = [engine.start(), engine.start()];
    let flipped = engine.advance();
    let running = engine.start();
    let ended = engine.advance();
    let exhausted = engine.start();
    let behind = [engine.advance(), engine.step()];
    assert_eq!(rt;
        (started, running, exhausted),
        (
            [Ok(number(1)), Err(NotStarted::Running)],
            Err(NotStarted::Running),
            Err(NotStarted::Exhausted),
        )
    );
    assert_eq!(rt;
        (flipped, ended, behind),
        (
            Ok(Progress::Flipped(Index::One)),
            Ok(Progress::Ended(number(4))),
            [Err(PeriodsExhausted), Err(PeriodsExhausted)],
        )
    );
    Ok(())
}

/// Would catch a start that asks once more for a period that was asked for already.
#[test]
fn starts_what_is_asked_for(rt: HostRuntime) -> Result<(), Fail> {
    let (_cpus, mut engine) = new_domain(rt.alloc(), 1, 2, 4)?;
    let asked = engine.step();
    let started = engine.start();
    assert_eq!(rt; (asked, started), (Ok(Progress::Step), Ok(number(1))));
    assert_eq!(rt;
        three(&mut engine),
        [
            Ok(Progress::Flipped(Index::One)),
            Ok(Progress::Ended(number(4))),
            Ok(Progress::Idle),
        ]
    );
    Ok(())
}

/// What the engine answers to one call.
type Answer = Result<Progress, PeriodsExhausted>;

/// Two periods. In the second one a section of each index is open: one by a look from before the first, and one that was
/// begun behind it. Tells their indices, and what the engine answers: in the first period, while both are open, while the
/// second one is, and while none is.
fn wait_for_both(
    first: &mut Cpu,
    second: &mut Cpu,
    engine: &mut Engine<Asks>,
) -> Option<((Index, Index), [[Answer; 3]; 3], [Answer; 2])> {
    let look = first.look();
    let period = three(engine);
    let Ok(late) = first.enter(look) else {
        return None;
    };
    let Ok(current) = second.read_lock() else {
        first.read_unlock(late);
        return None;
    };
    let indices = (late.index(), current.index());
    let both = three(engine);
    first.read_unlock(late);
    let one = three(engine);
    second.read_unlock(current);
    let none = [engine.advance(), engine.advance()];
    Some((indices, [period, both, one], none))
}

/// Would catch a scan that waits for nobody, or for a section of the other index.
#[test]
fn waits(rt: HostRuntime) -> Result<(), Fail> {
    let (mut cpus, mut engine) = new_domain(rt.alloc(), 2, 2, 8)?;
    let (Some(mut second), Some(mut first)) = (cpus.pop(), cpus.pop()) else {
        panic!(rt; "there are two");
    };
    let waited = wait_for_both(&mut first, &mut second, &mut engine);
    let answers = [
        [
            Ok(Progress::Started(number(1))),
            Ok(Progress::Flipped(Index::One)),
            Ok(Progress::Ended(number(4))),
        ],
        [
            Ok(Progress::Started(number(5))),
            Ok(Progress::Waiting(Index::Zero)),
            Ok(Progress::Waiting(Index::Zero)),
        ],
        [
            Ok(Progress::Flipped(Index::Zero)),
            Ok(Progress::Waiting(Index::One)),
            Ok(Progress::Waiting(Index::One)),
        ],
    ];
    let end = [Ok(Progress::Ended(number(8))), Ok(Progress::Idle)];
    assert_eq!(rt; waited, Some(((Index::Zero, Index::One), answers, end)));
    Ok(())
}

/// The lines that the README shows. Would catch a cookie that is done too early, or never.
#[test]
fn the_library_in_use(rt: HostRuntime) -> Result<(), Fail> {
    let (mut cpus, mut engine) = new_domain(rt.alloc(), 2, 1, 0)?;
    let (Some(mut second), Some(mut first)) = (cpus.pop(), cpus.pop()) else {
        panic!(rt; "there are two");
    };
    let Ok(section) = first.read_lock() else {
        panic!(rt; "there is room");
    };
    let mut cookie = second.cookie();
    let started = engine.start();
    let flipped = engine.advance();
    let waiting = engine.advance();
    let early = second.poll(&mut cookie);
    first.read_unlock(section);
    let ended = engine.advance();
    let done = second.poll(&mut cookie);
    assert_eq!(rt; (started, early, done), (Ok(number(1)), false, true));
    assert_eq!(rt;
        [flipped, waiting, ended],
        [
            Ok(Progress::Flipped(Index::One)),
            Ok(Progress::Waiting(Index::Zero)),
            Ok(Progress::Ended(number(4))),
        ]
    );
    Ok(())
}

/// What the thread of the reader and the thread of the engine tell each other.
#[derive(Drop)]
struct Told {
    open: AtomicBool,
    tried: AtomicBool,
    closing: AtomicBool,
}

/// Opens and closes sections. Then it opens one, keeps it for as long as the engine tries, or a while, and closes it,
/// which it tells first. It answers whether none was refused.
fn read(cpu: &mut Cpu, told: &Told) -> bool {
    for _ in 0..MANY / 4 {
        let Ok(reading) = cpu.read_lock() else {
            return false;
        };
        cpu.read_unlock(reading);
    }
    let Ok(reading) = cpu.read_lock() else {
        return false;
    };
    told.open.store(true, Ordering::SeqCst);
    for _ in 0..1_000 * MANY {
        if told.tried.load(Ordering::SeqCst) {
            break;
        }
    }
    told.closing.store(true, Ordering::SeqCst);
    cpu.read_unlock(reading);
    true
}

/// Whether the next answer is that a period ended.
fn ends(engine: &mut Engine<Asks>) -> bool {
    matches!(engine.advance(), Ok(Progress::Ended(_)))
}

/// Advances until it is told that the section is open, or a while, and then some more. It answers whether two periods
/// ended from then on before it was told that the section is being closed: the second of them began with it open.
fn end_early(engine: &mut Engine<Asks>, told: &Told) -> bool {
    for _ in 0..100 * MANY {
        if told.open.load(Ordering::SeqCst) {
            break;
        }
        let _progress = engine.advance();
    }
    if !told.open.load(Ordering::SeqCst) {
        return false;
    }
    let mut one_has = false;
    let mut two_have = false;
    for _ in 0..MANY {
        if ends(engine) && !told.closing.load(Ordering::SeqCst) {
            two_have = one_has;
            one_has = true;
        }
    }
    told.tried.store(true, Ordering::SeqCst);
    two_have
}

/// Whether one of the next answers is that a period ended.
fn ends_soon(engine: &mut Engine<Asks>) -> bool {
    ends(engine) || ends(engine) || ends(engine)
}

/// Would catch a period that ends too early, or never, in a schedule that no test on one thread has.
#[test]
fn two_threads(rt: HostRuntime) -> Result<(), Fail> {
    let (mut cpus, mut engine) = new_domain(rt.alloc(), 2, 1 << 40, 1 << 42)?;
    let Some(mut cpu) = cpus.pop() else {
        panic!(rt; "there are two");
    };
    let told = Told {
        open: AtomicBool::new(false),
        tried: AtomicBool::new(false),
        closing: AtomicBool::new(false),
    };
    let (none_was_refused, ended_early) = join(
        &rt,
        || -> bool { read(&mut cpu, &told) },
        || -> bool { end_early(&mut engine, &told) },
    );
    assert!(rt; none_was_refused && !ended_early && told.closing.load(Ordering::SeqCst));
    assert!(rt; ends_soon(&mut engine));
    Ok(())
}
