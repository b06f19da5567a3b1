use linked_list_allocator::LocalHeap;
use segs::SegList;
use std::alloc::AllocError;
use std::process::Abort;
use std::test::Fail;

fn push(rt: &impl Abort, list: &mut SegList<char>, entry: char) {
    assert_eq!(rt; list.push(entry), Ok(()));
    assert_eq!(rt; list.last_next(), Some(&entry));
}

fn shows(rt: &impl Abort, list: &SegList<char>, lens: [usize; 4], numbers: [u64; 2]) {
    assert_eq!(rt; list.lens(), lens);
    assert_eq!(rt; list.numbers(), numbers);
}

#[test]
fn segments_of_a_few_entries(rt: HostRuntime) {
    let mut list = SegList::new(rt.alloc());
    push(&rt, &mut list, 'a');
    list.assign(4);
    shows(&rt, &list, [0, 1, 0, 0], [4, 0]);
    push(&rt, &mut list, 'b');
    list.assign(4);
    shows(&rt, &list, [0, 2, 0, 0], [4, 0]);
    push(&rt, &mut list, 'c');
    list.assign(8);
    shows(&rt, &list, [0, 2, 1, 0], [4, 8]);
    assert!(rt; list.last_next().is_none());
    push(&rt, &mut list, 'e');
    list.assign(12);
    shows(&rt, &list, [0, 2, 1, 1], [4, 8]);
    push(&rt, &mut list, 'f');
    list.assign(8);
    shows(&rt, &list, [0, 2, 3, 0], [4, 8]);
    list.advance(5);
    shows(&rt, &list, [2, 3, 0, 0], [8, 0]);
    assert_eq!(rt; list.take_done(1).as_slice(), ['a'].as_slice());
    shows(&rt, &list, [1, 3, 0, 0], [8, 0]);
    list.advance(8);
    let taken = list.take_done(9);
    assert_eq!(rt; taken.as_slice(), ['b', 'c', 'e', 'f'].as_slice());
    shows(&rt, &list, [0, 0, 0, 0], [0, 0]);
}

// A push or a reserve that answers `Memory` wherever there is no room yet meets its contract too.
#[test]
fn at_most_eight_at_a_time(rt: HostRuntime) -> Result<(), Fail> {
    let mut list = SegList::new(rt.alloc());
    for entry in 0..10 {
        assert_eq!(rt; list.push(entry), Ok(()));
    }
    list.assign(4);
    list.advance(4);
    assert!(rt; list.take_done(0).is_empty());
    assert_eq!(rt;
        list.take_done(9).as_slice(),
        [0, 1, 2, 3, 4, 5, 6, 7].as_slice()
    );
    assert_eq!(rt; list.take_done(9).as_slice(), [8, 9].as_slice());
    assert_eq!(rt; list.reserve(10), Ok(()));
    Ok(())
}

#[derive(Clone, Copy, PartialEq, Debug)]
enum Mark {
    Done,
    At(u64),
    Next,
}

/// A marked list as it reads: every call goes over all of its entries.
#[derive(Drop)]
struct Plain {
    entries: Vec<(u64, Mark)>,
}

impl Plain {
    /// The smallest and the greatest number, where there is one.
    fn numbers(&self) -> Option<(u64, u64)> {
        let mut found = None;
        for (_, mark) in self.entries.iter() {
            if let Mark::At(number) = *mark {
                found = match found {
                    None => Some((number, number)),
                    Some((least, most)) => Some((number.min(least), number.max(most))),
                };
            }
        }
        found
    }

    fn assign(&mut self, number: u64) {
        let given = match self.numbers() {
            None => Mark::At(number),
            Some((_, most)) if number <= most => Mark::At(most),
            Some((least, most)) if least == most => Mark::At(number),
            Some(_) => Mark::Next,
        };
        for entry in self.entries.iter_mut() {
            if entry.1 == Mark::Next {
                entry.1 = given;
            }
        }
    }

    fn advance(&mut self, number: u64) {
        for entry in self.entries.iter_mut() {
            if matches!(entry.1, Mark::At(waited) if waited <= number) {
                entry.1 = Mark::Done;
            }
        }
    }

    fn count(&self, mark: Mark) -> usize {
        self.entries.iter().filter(|entry| entry.1 == mark).count()
    }

    /// Whether the first entries, which leave, are these and were done; and whether there were as many as there should.
    fn gives(&mut self, max: usize, taken: &[u64]) -> bool {
        let wanted = max.min(8).min(self.count(Mark::Done));
        let mut same = taken.len() == wanted;
        for entry in taken {
            same = !self.entries.is_empty()
                && self.entries.remove(0) == (*entry, Mark::Done)
                && same;
        }
        same
    }

    fn looks_like(&self, list: &SegList<u64>) -> bool {
        let (least, most) = self.numbers().unwrap_or((0, 0));
        let (wait, next_ready) = match self.numbers() {
            None => (0, 0),
            Some(_) if least == most => (self.count(Mark::At(least)), 0),
            Some(_) => (self.count(Mark::At(least)), self.count(Mark::At(most))),
        };
        let numbers = [least, if next_ready == 0 { 0 } else { most }];
        let next = self.count(Mark::Next);
        let last = if next == 0 {
            None
        } else {
            self.entries.last().map(|entry| entry.0)
        };
        list.lens() == [self.count(Mark::Done), wait, next_ready, next]
            && list.numbers() == numbers
            && list.last_next().copied() == last
    }
}

/// One step of the sequence: mostly a push, and numbers that rise slowly.
fn step(
    list: &mut SegList<u64>,
    plain: &mut Plain,
    at: u64,
    chance: u64,
) -> Result<bool, AllocError> {
    let number = (at / 16).wrapping_add(chance / 8 % 6);
    match chance % 8 {
        0 | 1 | 2 => {
            list.push(at).map_err(|refused| refused.1)?;
            plain.entries.push((at, Mark::Next))?;
        }
        3 | 4 => {
            list.assign(number);
            plain.assign(number);
        }
        5 => {
            list.advance(number.saturating_sub(2));
            plain.advance(number.saturating_sub(2));
        }
        6 => {
            let max = (chance / 64 % 12) as usize;
            let taken = list.take_done(max);
            return Ok(plain.gives(max, taken.as_slice()));
        }
        _ => list.reserve((chance / 64 % 4) as usize)?,
    }
    Ok(true)
}

#[test]
fn as_a_plain_list(rt: HostRuntime) -> Result<(), Fail> {
    let mut list = SegList::new(rt.alloc());
    let mut plain = Plain {
        entries: Vec::new(rt.alloc()),
    };
    let mut random = 1u64;
    let mut longest = 0;
    for at in 0..10_000 {
        random = random
            .wrapping_mul(6364136223846793005)
            .wrapping_add(1442695040888963407);
        assert!(rt; step(&mut list, &mut plain, at, random >> 33)?, "step {at}");
        assert!(rt; plain.looks_like(&list), "after step {at}");
        longest = plain.entries.len().max(longest);
    }
    assert!(rt; longest > 20);
    list.assign(u64::MAX);
    list.advance(u64::MAX);
    plain.assign(u64::MAX);
    plain.advance(u64::MAX);
    for _ in 0..longest {
        assert!(rt; plain.gives(8, list.take_done(8).as_slice()));
        assert!(rt; plain.looks_like(&list));
    }
    assert!(rt; plain.entries.is_empty());
    Ok(())
}

/// Pushes this many, each of which has to come back where it is refused and to leave the list as it was. How many there
/// were before the first that was refused.
fn push_some(rt: &impl Abort, list: &mut SegList<u64, &LocalHeap>, most: u64) -> u64 {
    for entry in 0..most {
        let before = list.lens();
        if let Err((given_back, _)) = list.push(entry) {
            assert_eq!(rt; given_back, entry);
            assert_eq!(rt; list.lens(), before);
            return entry;
        }
        assert_eq!(rt; list.last_next(), Some(&entry));
    }
    most
}

// With ever more memory the first refused allocation is each in turn, until none is.
#[test]
fn refused_memory(rt: HostRuntime) -> Result<(), Fail> {
    let mut refused = [false; 4];
    for room in 0..64 {
        let heap = LocalHeap::new(rt.alloc(), 16 + 16 * room)?;
        let mut list = SegList::new(&heap);
        let pushed = push_some(&rt, &mut list, 12);
        list.assign(1);
        list.advance(1);
        let reserved = list.reserve(40).is_ok();
        assert!(rt; pushed == 12 || !reserved);
        if reserved {
            assert_eq!(rt; push_some(&rt, &mut list, 40), 40);
        }
        let taken = list.take_done(8);
        let order = [0, 1, 2, 3, 4, 5, 6, 7];
        let wanted = &order[..taken.len().min(8)];
        assert_eq!(rt; taken.as_slice(), wanted);
        match (pushed, reserved) {
            (0, _) => refused[0] = true,
            (12, false) => refused[2] = true,
            (12, true) => refused[3] = true,
            _ => refused[1] = true,
        }
    }
    assert_eq!(rt; refused, [true; 4]);
    Ok(())
}
