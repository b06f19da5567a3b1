use linked_list_allocator::LocalHeap;
use onedom::{Event, Illegal, Maker, Memory, OneDomain, legal};
use sseq::Index;
use std::alloc::AllocError;
use std::test::Fail;

const READER: Maker = Maker::Processor(0);

fn begin(section: u64) -> Event {
    Event::Begin {
        section,
        processor: 0,
        index: Index::Zero,
        by: READER,
    }
}

fn end(section: u64) -> Event {
    Event::End {
        section,
        processor: 1,
        by: Maker::Processor(1),
    }
}

const START: Event = Event::Start { by: Maker::Engine };

const FINISH: Event = Event::Finish { by: Maker::Engine };

fn note(cookie: u64) -> Event {
    Event::Note { cookie, by: READER }
}

fn ask(cookie: u64, done: bool) -> Event {
    Event::Ask {
        cookie,
        done,
        by: READER,
    }
}

fn find(section: u64, slot: u64, version: u64) -> Event {
    Event::Find {
        section,
        cell: 1,
        slot,
        version,
        by: READER,
    }
}

fn put(slot: u64, version: u64) -> Event {
    Event::Put {
        cell: 1,
        slot,
        version,
        by: READER,
    }
}

#[test]
fn one_domain(rt: HostRuntime) -> Result<(), Fail> {
    let events = [begin(0), START, begin(1), end(0)];
    let mut domain = OneDomain::new(rt.alloc());
    for event in events {
        assert_eq!(rt; domain.apply(event), Ok(()));
    }
    assert_eq!(rt; domain.apply(end(0)), Err(Illegal::NotOpen));
    assert_eq!(rt; domain.apply(end(2)), Err(Illegal::NotOpen));
    assert_eq!(rt; domain.apply(begin(0)), Err(Illegal::SectionUsed));
    assert_eq!(rt; domain.apply(begin(1)), Err(Illegal::SectionUsed));
    assert_eq!(rt; domain.apply(START), Err(Illegal::PeriodRunning));
    assert_eq!(rt; domain.history(), events.as_slice());

    assert_eq!(rt; legal(rt.alloc(), &events), Ok(true));
    let too_many = [begin(0), START, begin(1), end(0), end(0)];
    assert_eq!(rt; legal(rt.alloc(), &too_many), Ok(false));
    Ok(())
}

// A grace period from its cookie to its end, and the next one.
#[test]
fn whole_periods(rt: HostRuntime) -> Result<(), Fail> {
    let events = [
        begin(0),
        note(4),
        START,
        ask(4, false),
        note(8),
        begin(1),
        end(0),
        FINISH,
        ask(4, true),
        ask(8, false),
        START,
        end(1),
        FINISH,
        ask(8, true),
        note(12),
    ];
    let mut domain = OneDomain::new(rt.alloc());
    for event in events {
        assert_eq!(rt; domain.apply(event), Ok(()));
    }
    assert_eq!(rt; domain.history(), events.as_slice());
    assert_eq!(rt; legal(rt.alloc(), &events), Ok(true));
    Ok(())
}

// A grace period waits for each section that was open at its start, and for no other.
#[test]
fn periods_wait_for_sections(rt: HostRuntime) -> Result<(), Fail> {
    let steps = [
        (FINISH, Err(Illegal::NoPeriod)),
        (begin(0), Ok(())),
        (begin(1), Ok(())),
        (START, Ok(())),
        (begin(2), Ok(())),
        (FINISH, Err(Illegal::StillOpen)),
        (end(1), Ok(())),
        (FINISH, Err(Illegal::StillOpen)),
        (end(0), Ok(())),
        (FINISH, Ok(())),
        (FINISH, Err(Illegal::NoPeriod)),
        (START, Ok(())),
        (FINISH, Err(Illegal::StillOpen)),
        (end(2), Ok(())),
        (FINISH, Ok(())),
    ];
    let accepted = [
        begin(0),
        begin(1),
        START,
        begin(2),
        end(1),
        end(0),
        FINISH,
        START,
        end(2),
        FINISH,
    ];
    let mut domain = OneDomain::new(rt.alloc());
    for (event, answer) in steps {
        assert_eq!(rt; domain.apply(event), answer);
    }
    assert_eq!(rt; domain.history(), accepted.as_slice());

    assert_eq!(rt; legal(rt.alloc(), &accepted), Ok(true));
    assert_eq!(rt; legal(rt.alloc(), &[FINISH]), Ok(false));
    assert_eq!(rt; legal(rt.alloc(), &[START, FINISH, FINISH]), Ok(false));
    assert_eq!(rt; legal(rt.alloc(), &[begin(0), START, FINISH]), Ok(false));
    assert_eq!(rt; legal(rt.alloc(), &[START, begin(0), FINISH]), Ok(true));
    Ok(())
}

// A cookie is four times the count of ended periods with the next one, and with one more while a period runs.
#[test]
fn cookies_given(rt: HostRuntime) -> Result<(), Fail> {
    let wrong = Err(Illegal::WrongCookie);
    let steps = [
        (note(0), wrong),
        (note(5), wrong),
        (note(8), wrong),
        (note(4), Ok(())),
        (START, Ok(())),
        (note(4), wrong),
        (note(9), wrong),
        (note(12), wrong),
        (note(8), Ok(())),
        (FINISH, Ok(())),
        (note(4), wrong),
        (note(12), wrong),
        (note(8), Ok(())),
        (START, Ok(())),
        (note(8), wrong),
        (note(12), Ok(())),
        (note(u64::MAX), wrong),
    ];
    let accepted = [note(4), START, note(8), FINISH, note(8), START, note(12)];
    let mut domain = OneDomain::new(rt.alloc());
    for (event, answer) in steps {
        assert_eq!(rt; domain.apply(event), answer);
    }
    assert_eq!(rt; domain.history(), accepted.as_slice());

    assert_eq!(rt; legal(rt.alloc(), &accepted), Ok(true));
    assert_eq!(rt; legal(rt.alloc(), &[note(8)]), Ok(false));
    assert_eq!(rt; legal(rt.alloc(), &[START, note(4)]), Ok(false));
    Ok(())
}

// Only multiples of four are cookies, and 1, which is done always. 0 is done at once, and any other once its period has
// ended.
#[test]
fn answers_to_cookies(rt: HostRuntime) -> Result<(), Fail> {
    let wrong = Err(Illegal::WrongPoll);
    let steps = [
        (ask(1, true), Ok(())),
        (ask(1, false), wrong),
        (ask(0, true), Ok(())),
        (ask(0, false), wrong),
        (ask(4, false), Ok(())),
        (ask(4, true), wrong),
        (ask(6, false), wrong),
        (ask(u64::MAX, false), wrong),
        (ask(u64::MAX - 3, false), Ok(())),
        (START, Ok(())),
        (ask(4, true), wrong),
        (FINISH, Ok(())),
        (ask(4, false), wrong),
        (ask(4, true), Ok(())),
        (ask(2, true), wrong),
        (ask(1, false), wrong),
        (ask(1, true), Ok(())),
        (ask(5, true), wrong),
        (ask(8, true), wrong),
        (ask(8, false), Ok(())),
    ];
    let accepted = [
        ask(1, true),
        ask(0, true),
        ask(4, false),
        ask(u64::MAX - 3, false),
        START,
        FINISH,
        ask(4, true),
        ask(1, true),
        ask(8, false),
    ];
    let mut domain = OneDomain::new(rt.alloc());
    for (event, answer) in steps {
        assert_eq!(rt; domain.apply(event), answer);
    }
    assert_eq!(rt; domain.history(), accepted.as_slice());

    assert_eq!(rt; legal(rt.alloc(), &accepted), Ok(true));
    assert_eq!(rt; legal(rt.alloc(), &[ask(4, true)]), Ok(false));
    assert_eq!(rt; legal(rt.alloc(), &[ask(6, false)]), Ok(false));
    assert_eq!(rt; legal(rt.alloc(), &[ask(1, false)]), Ok(false));
    Ok(())
}

// Only an open section finds something, and just what is current. The next version goes into a slot that is not current
// and that no open section has found, and cells have nothing to do with each other.
#[test]
fn versions_in_cells(rt: HostRuntime) -> Result<(), Fail> {
    let wrong_find = Err(Illegal::WrongFind);
    let wrong_put = Err(Illegal::WrongPut);
    let other_cell = Event::Put {
        cell: 0,
        slot: 5,
        version: 1,
        by: READER,
    };
    let steps = [
        (find(0, 0, 0), Err(Illegal::NotOpen)),
        (begin(0), Ok(())),
        (find(0, 1, 0), wrong_find),
        (find(0, 0, 1), wrong_find),
        (find(0, 0, 0), Ok(())),
        (put(0, 1), wrong_put),
        (put(1, 0), wrong_put),
        (put(1, 2), wrong_put),
        (put(1, 1), Ok(())),
        (find(0, 0, 0), wrong_find),
        (put(0, 2), wrong_put),
        (put(1, 2), wrong_put),
        (other_cell, Ok(())),
        (put(2, 2), Ok(())),
        (begin(1), Ok(())),
        (find(1, 2, 2), Ok(())),
        (end(0), Ok(())),
        (find(0, 2, 2), Err(Illegal::NotOpen)),
        (put(0, 3), Ok(())),
        (put(2, 4), wrong_put),
        (put(1, u64::MAX), wrong_put),
        (put(1, 4), Ok(())),
        (end(1), Ok(())),
        (put(2, 5), Ok(())),
    ];
    let accepted = [
        begin(0),
        find(0, 0, 0),
        put(1, 1),
        other_cell,
        put(2, 2),
        begin(1),
        find(1, 2, 2),
        end(0),
        put(0, 3),
        put(1, 4),
        end(1),
        put(2, 5),
    ];
    let mut domain = OneDomain::new(rt.alloc());
    for (event, answer) in steps {
        assert_eq!(rt; domain.apply(event), answer);
    }
    assert_eq!(rt; domain.history(), accepted.as_slice());

    assert_eq!(rt; legal(rt.alloc(), &accepted), Ok(true));
    assert_eq!(rt; legal(rt.alloc(), &[put(1, 1), put(1, 2)]), Ok(false));
    assert_eq!(rt; legal(rt.alloc(), &[put(1, 1), put(0, 2)]), Ok(true));
    Ok(())
}

// A domain that gives up after some events, at an index or at a processor, would meet the contract too.
#[test]
fn many_sections(rt: HostRuntime) -> Result<(), Fail> {
    let mut domain = OneDomain::new(rt.alloc());
    for section in 0..60 {
        let processor = (section % 3) as u16;
        let index = if section % 2 == 0 {
            Index::Zero
        } else {
            Index::One
        };
        let begun = Event::Begin {
            section,
            processor,
            index,
            by: Maker::Processor(processor),
        };
        assert_eq!(rt; domain.apply(begun), Ok(()), "beginning {section}");
        if section % 4 == 3 {
            assert_eq!(rt;
                domain.apply(end(section - 2)),
                Ok(()),
                "ending before {section}"
            );
        }
    }
    assert_eq!(rt; domain.apply(START), Ok(()));
    assert_eq!(rt; domain.history().len(), 76);
    assert_eq!(rt; legal(rt.alloc(), domain.history()), Ok(true));
    Ok(())
}

// The numbers and the texts by which refusals are known outside.
#[test]
fn refusals_outside(rt: HostRuntime) -> Result<(), Fail> {
    let table = [
        (Illegal::SectionUsed, 1),
        (Illegal::NotOpen, 2),
        (Illegal::PeriodRunning, 3),
        (Illegal::NoPeriod, 4),
        (Illegal::StillOpen, 5),
        (Illegal::WrongCookie, 6),
        (Illegal::WrongPoll, 7),
        (Illegal::WrongFind, 8),
        (Illegal::WrongPut, 9),
        (Illegal::Memory, 10),
    ];
    for (cause, number) in table {
        assert_eq!(rt; cause as u8, number);
    }
    Ok(())
}

#[test]
fn refused_memory(rt: HostRuntime) -> Result<(), Fail> {
    let heap = LocalHeap::new(rt.alloc(), 256)?;
    let mut domain = OneDomain::new(&heap);
    for section in 0..64 {
        if domain.apply(begin(section)).is_err() {
            break;
        }
    }
    let kept = domain.history().len();
    assert!(rt; 0 < kept && kept < 64);
    assert_eq!(rt; domain.apply(begin(64)), Err(Illegal::Memory));
    let mut roomy = OneDomain::new(rt.alloc());
    for event in domain.history() {
        assert_eq!(rt; roomy.apply(*event), Ok(()));
    }
    assert_eq!(rt; roomy.apply(begin(64)), Ok(()));
    assert_eq!(rt; domain.apply(begin(0)), Err(Illegal::SectionUsed));
    assert_eq!(rt; domain.history().len(), kept);

    let small = LocalHeap::new(rt.alloc(), 16)?;
    assert_eq!(rt; legal(&small, &[begin(0)]), Err(AllocError));
    assert_eq!(rt; legal(&small, &[end(0)]), Ok(false));
    Ok(())
}
