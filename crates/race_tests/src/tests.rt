//! Races of a few threads.
use race::{At, Gate, RaceTotals, Totals, race};
use std::sync::atomic::Ordering::SeqCst;
use std::sync::atomic::{AtomicBool, AtomicU64};
use std::test::Fail;
use std::thread::sleep;
use std::time::{Clock, Duration};

/// Lets everybody pass.
#[derive(Clone, Copy)]
struct Open;

impl Gate for Open {
    fn pass(&self, _worker: usize, _round: u64, _at: At) {}
}

/// Would catch a round too few, a lease that is not released, and a callback that is not run.
#[test]
fn race_of_two_readers(rt: HostRuntime) -> Result<(), Fail> {
    let totals = race(&rt, 2, 3, &Open)?;
    assert_eq!(rt; (totals.opened, totals.closed), (6, 6));
    assert_eq!(rt;
        (totals.queued, totals.finished, totals.versions),
        (3, 3, 3)
    );
    Ok(())
}

/// What is compared where the domain told nothing.
const NONE: Totals = Totals {
    opened: 0,
    closed: 0,
    queued: 0,
    finished: 0,
    periods: 0,
};

/// Would catch totals that are missing, and others than the workers counted; also after a hundred rounds, and a thousand leases.
#[test]
fn race_of_eight_readers(rt: HostRuntime) -> Result<(), Fail> {
    let RaceTotals {
        opened,
        closed,
        queued,
        finished,
        versions,
        domain,
    } = race(&rt, 8, 200, &Open)?;
    assert_eq!(rt;
        (opened, closed, queued, finished, versions),
        (1600, 1600, 200, 200, 200)
    );
    let told = domain.unwrap_or(NONE);
    assert_eq!(rt; (told.opened, told.closed), (opened, closed));
    assert_eq!(rt;
        (told.queued, told.finished),
        (u128::from(queued), u128::from(finished))
    );
    Ok(())
}

/// Would catch a domain or a desk that is refused where there are most readers.
#[test]
fn race_of_the_most_readers(rt: HostRuntime) -> Result<(), Fail> {
    let totals = race(&rt, 255, 2, &Open)?;
    assert_eq!(rt; (totals.opened, totals.closed), (510, 510));
    assert_eq!(rt; totals.versions, 2);
    Ok(())
}

/// How often a reader looks for the other one, a millisecond apart, before it gives up.
const LOOKS: u32 = 10_000;

/// Holds the first reader up in its lease until the second one has read, and the second one there until the first has
/// come in.
#[derive(Drop)]
struct Meeting<'a, R> {
    rt: &'a R,
    is_in: AtomicBool,
    has_read: AtomicBool,
    /// Whether one of them gave up before the other came.
    missed: AtomicBool,
}

impl<'a, R: Clock> Meeting<'a, R> {
    fn new(rt: &'a R) -> Meeting<'a, R> {
        Meeting {
            rt,
            is_in: AtomicBool::new(false),
            has_read: AtomicBool::new(false),
            missed: AtomicBool::new(false),
        }
    }

    fn wait_for(&self, sign: &AtomicBool) {
        for _ in 0..LOOKS {
            if sign.load(SeqCst) {
                return;
            }
            sleep(self.rt, Duration::from_millis(1));
        }
        self.missed.store(true, SeqCst);
    }
}

impl<'a, R: Clock> Gate for Meeting<'a, R> {
    fn pass(&self, worker: usize, round: u64, at: At) {
        match (worker, round, at) {
            (0, 0, At::Inside) => {
                self.is_in.store(true, SeqCst);
                self.wait_for(&self.has_read);
            }
            (1, 0, At::Answered) => {
                self.has_read.store(true, SeqCst);
                self.wait_for(&self.is_in);
            }
            _ => {}
        }
    }
}

/// Would catch workers that run one after the other, and a gate that is not passed.
#[test]
fn race_gate(rt: HostRuntime) -> Result<(), Fail> {
    let meeting = Meeting::new(&rt);
    let totals = race(&rt, 2, 3, &meeting)?;
    assert!(rt; meeting.is_in.load(SeqCst) && meeting.has_read.load(SeqCst));
    assert!(rt; !meeting.missed.load(SeqCst));
    assert_eq!(rt; (totals.opened, totals.closed), (6, 6));
    Ok(())
}

/// How many readers pass the gate that counts, and how many rounds each makes.
const PASSES: (usize, u64) = (3, 3);

/// Counts for each reader and round where the gate is passed: four bits for each.
#[derive(Drop)]
struct Passes {
    counts: AtomicU64,
    /// Whether a reader came that isn't there, or came again, or to the two places in the wrong order.
    wrong: AtomicBool,
}

impl Gate for Passes {
    fn pass(&self, worker: usize, round: u64, at: At) {
        if worker >= PASSES.0 || round >= PASSES.1 {
            self.wrong.store(true, SeqCst);
            return;
        }
        let one = 1 << (4 * (PASSES.1 * worker as u64 + round));
        let stood = if round == 0 { 2 } else { 0 };
        let (adds, before) = match at {
            At::Line => (2 * one, 0),
            At::Inside => (one, stood),
            At::Answered => (4 * one, stood + 1),
        };
        if self.counts.fetch_add(adds, SeqCst) / one % 16 != before {
            self.wrong.store(true, SeqCst);
        }
    }
}

/// Would catch a gate that hears of another reader or round, that is passed twice or not at all, or that hears of a lease
/// before the line, or of an answer before its lease is open.
#[test]
fn race_passes(rt: HostRuntime) -> Result<(), Fail> {
    let passes = Passes {
        counts: AtomicU64::new(0),
        wrong: AtomicBool::new(false),
    };
    let totals = race(&rt, PASSES.0, PASSES.1, &passes)?;
    assert!(rt; !passes.wrong.load(SeqCst));
    assert_eq!(rt; passes.counts.load(SeqCst), 0x5_5755_7557);
    assert_eq!(rt; totals.opened, 9);
    Ok(())
}

/// How many readers stand at the line.
const STANDING: u64 = 100;

/// Counts who comes to the line, and who goes from there. It holds the first reader up before the line, and each of them in
/// its first lease until all are inside.
#[derive(Drop)]
struct Together<'a, R> {
    rt: &'a R,
    standing: AtomicU64,
    inside: AtomicU64,
    /// Whether one was inside before all stood at the line, or gave up before all were inside.
    missed: AtomicBool,
}

impl<'a, R: Clock> Together<'a, R> {
    fn wait_for_all(&self) {
        for _ in 0..LOOKS {
            if self.inside.load(SeqCst) == STANDING {
                return;
            }
            sleep(self.rt, Duration::from_millis(1));
        }
        self.missed.store(true, SeqCst);
    }
}

impl<'a, R: Clock> Gate for Together<'a, R> {
    fn pass(&self, worker: usize, round: u64, at: At) {
        match (worker, round, at) {
            (_, _, At::Line) => {
                if worker == 0 {
                    sleep(self.rt, Duration::from_millis(50));
                }
                self.standing.fetch_add(1, SeqCst);
            }
            (_, 0, At::Inside) => {
                if self.standing.load(SeqCst) != STANDING {
                    self.missed.store(true, SeqCst);
                }
                self.inside.fetch_add(1, SeqCst);
                self.wait_for_all();
            }
            _ => {}
        }
    }
}

/// Would catch a reader that goes while another one isn't at the line, and readers that aren't inside together.
#[test]
fn race_at_once(rt: HostRuntime) -> Result<(), Fail> {
    let together = Together {
        rt: &rt,
        standing: AtomicU64::new(0),
        inside: AtomicU64::new(0),
        missed: AtomicBool::new(false),
    };
    let totals = race(&rt, STANDING as usize, 2, &together)?;
    assert_eq!(rt;
        (together.standing.load(SeqCst), together.inside.load(SeqCst)),
        (STANDING, STANDING)
    );
    assert!(rt; !together.missed.load(SeqCst));
    assert_eq!(rt; totals.opened, 2 * STANDING);
    Ok(())
}
