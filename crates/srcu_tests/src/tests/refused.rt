//! Each allocation of a cell of boxes is refused in turn: what is shown then, what comes back, and what the same call does next.
ghost use Rattle.srcu.specs.Words.{AreBoxesOf, IsBoxWriterOf};

use refusing::Refusing;
use srcu::{BoxWriter, Boxes, Limits, Refusal, Team, UpdateRefusal, WIDEST, Worker, make};
use std::alloc::Global;
use std::sync::Wait;
use std::test::Fail;
use std::time::{Clock, Duration};

/// More allocations than any of these calls asks for.
const MOST: u64 = 100;

/// A cell of two slots: a put finds one free only after a grace period.
const NARROW: Limits = Limits {
    cells: 1,
    slots: 2,
    ..WIDEST
};

/// Memory of which one allocation is refused: the domain's and the boxes'.
type Heap = Refusing<Global>;

/// A worker, and a cell of numbers.
#[derive(Drop)]
struct Place<'w, 'a> {
    heap: &'a Heap,
    worker: Worker<'w, u64, &'a Heap>,
    writer: BoxWriter<u64, &'a Heap>,
    boxes: Boxes<u64, &'a Heap>,
    ghost here: { IsBoxWriterOf worker.domain writer × AreBoxesOf worker.domain boxes },
}

/// The number of a box that came back, or 0.
fn number_of(back: Option<Box<u64, &Heap>>) -> u64 {
    back.map(|back| *back).unwrap_or(0)
}

impl<'a> Place<'_, 'a> {
    /// The number that is shown, how many boxes the writer has, and how many blocks are out.
    fn look(&mut self) -> (Option<u64>, usize, u64) {
        let shown = self.worker.show(&mut self.boxes, |number| **number);
        (shown.ok().flatten(), self.writer.left(), self.heap.out())
    }

    /// Puts the number that follows: 1, 2, 3 and 4, each by another call. Returns an older number that came back, or 0. Refused,
    /// the number that was not put, and why.
    fn put<R: Wait>(&mut self, rt: &R, next: u64) -> Result<u64, (u64, Refusal)> {
        let (worker, writer) = (&mut self.worker, &mut self.writer);
        let more = |number: Option<&u64>| number.copied().unwrap_or(0).wrapping_add(1);
        let put = match next {
            1 => worker
                .update(self.heap, writer, more)
                .map_err(|(made, cause)| (made, cause.into())),
            2 => match worker.try_update(self.heap, writer, |number| Ok(more(number))) {
                Ok(older) => Ok(older),
                Err(UpdateRefusal::Put(made, cause)) => Err((made, cause.into())),
                Err(UpdateRefusal::Made(refusal)) => Err((0, refusal)),
            },
            3 => worker
                .replace_box(self.heap, writer, next)
                .map_err(|(made, cause)| (made, cause.into())),
            _ => worker.replace_box_wait(rt, self.heap, writer, next),
        };
        put.map(number_of)
    }

    /// The same with each allocation refused in turn, until none is. Returns how many were, and the older number. None where a
    /// refusal changed what is seen, was told as another one, or lost the number.
    fn put_in_turn<R: Wait>(&mut self, rt: &R, next: u64) -> Option<(u64, u64)> {
        let before = self.look();
        for nth in 1..MOST {
            self.heap.refuse(nth);
            match self.put(rt, next) {
                Ok(older) if !self.heap.has_refused() => return Some((nth - 1, older)),
                Err(back) if back == (next, Refusal::Memory) => {}
                _ => return None,
            }
            if self.look() != before {
                return None;
            }
        }
        None
    }

    /// Puts 1 to 4, all but the last one once a slot is free. What came of each.
    fn fill<R: Wait>(&mut self, rt: &R) -> Result<[Option<(u64, u64)>; 4], Refusal> {
        let mut came = [None; 4];
        for next in 1..5u64 {
            self.heap.refuse(0);
            if next < 4 {
                self.worker.synchronize(rt)?;
            }
            came[next as usize - 1] = self.put_in_turn(rt, next);
        }
        Ok(came)
    }

    /// Empties the cell. The numbers that come back, and how many allocations were asked for, of which the first would be refused.
    fn empty<R: Wait + Clock>(&mut self, rt: &R) -> Result<([u64; 3], u64), Refusal> {
        self.heap.refuse(1);
        let (worker, writer) = (&mut self.worker, &mut self.writer);
        let third = number_of(worker.empty(rt, writer)?);
        let fourth = number_of(worker.empty_for(rt, writer, Duration::from_secs(60))?);
        let none = number_of(worker.empty(rt, writer)?);
        Ok(([third, fourth, none], self.heap.asked()))
    }
}

/// What came of each put, and of the emptying.
type Came = ([Option<(u64, u64)>; 4], ([u64; 3], u64));

/// Both at a new domain.
fn refuse_all<R: Wait + Clock>(rt: &R, heap: &Heap) -> Result<Came, Refusal> {
    let (domain, cpus, writers) = make(heap, 1, NARROW)?;
    let mut team = Team::new(&domain, cpus, writers);
    let writer = team.writer().ok_or(Refusal::NoWriter)?;
    let mut worker = team.worker().ok_or(Refusal::NoWorker)?;
    let Ok((writer, boxes)) = worker.boxes(heap, writer) else {
        return Err(Refusal::Memory);
    };
    let mut place = Place {
        heap,
        worker,
        writer,
        boxes,
    };
    Ok((place.fill(rt)?, place.empty(rt)?))
}

/// Would catch a refused allocation that loses an answer or a box, puts something, or is told as another refusal; a call
/// that doesn't succeed after it; and an emptying that takes memory.
#[test]
fn refuse_each_allocation(rt: HostRuntime) -> Result<(), Fail> {
    let heap = Refusing::new(rt.alloc());
    match refuse_all(&rt, &heap) {
        Ok(came) => {
            let puts = [Some((1, 0)), Some((1, 0)), Some((1, 1)), Some((1, 2))];
            assert_eq!(rt; came, (puts, ([3, 4, 0], 0)));
        }
        Err(refusal) => panic!(rt; "{refusal}"),
    }
    assert_eq!(rt; heap.out(), 0);
    Ok(())
}
