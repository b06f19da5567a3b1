//! The lines of callbacks.
ghost use Rattle.std.specs.Prelude.{◌≤◌, length};

use super::{asks_for, check_faults, check_texts};
use lines::Name;
use requests::{Act, Cause, Command, JobNames, Reply, Segments, Waiting};
use std::test::Fail;

/// Would catch a job's name that has to be new, or one that has to be there.
#[test]
fn faults_of_calls(rt: HostRuntime) -> Result<(), Fail> {
    let table = "
        call                             words
        call A x                         words
        call a 0 j j                     words
        call A x J                       name
        call b x J                       domain
        call a x J                       number
        call a 01 J                      number
        call a 2 J                       processor
        call a 1 J                       name
        call a 1 abcdefghij0123456       name
        call a 1 abcdefghij012345        none
        # a job's name may be that of a domain, and of whatever has a name there
        call a 0 j                       none
        call a 0 a                       none
        call a 0 r                       none
        call a 0 s                       none
        call a 0 h                       none
        call a 0 p                       none
        calls a 0 j                      command";
    check_faults(&rt, table)
}

/// Would catch a line that wants another number of words, or none of its processor.
#[test]
fn faults_of_batches(rt: HostRuntime) -> Result<(), Fail> {
    let table = "
        run a                            words
        run a 0 j                        words
        run A x                          name
        run b x                          domain
        run a x                          number
        run a 2                          processor
        run a 1                          none
        batch a                          words
        batch b x                        domain
        batch a x                        number
        batch a 2                        processor
        batch a 1                        none
        finish a                         words
        finish b x                       domain
        finish a x                       number
        finish a 2                       processor
        finish a 0 1                     words
        finish a 1                       none
        segs a                           words
        segs A x                         name
        segs b x                         domain
        segs a x                         number
        segs a 2                         processor
        segs a 0                         none";
    check_faults(&rt, table)
}

#[test]
fn words_ask_for_jobs(rt: HostRuntime) -> Result<(), Fail> {
    let j = Name::new(b"j").ok_or("a name")?;
    let p = Name::new(b"p").ok_or("a name")?;
    let rows = [
        (
            "call a 1 j",
            Act::Call {
                processor: 1,
                job: j,
            },
        ),
        (
            "call a 0 p",
            Act::Call {
                processor: 0,
                job: p,
            },
        ),
        ("run a 1", Act::Run { processor: 1 }),
        ("batch a 1", Act::Batch { processor: 1 }),
        ("finish a 0", Act::Finish { processor: 0 }),
        ("segs a 1", Act::Segs { processor: 1 }),
    ];
    for (line, act) in rows {
        assert!(rt; asks_for(&rt, line, act)?);
    }
    Ok(())
}

/// The names of these words, none where a word is no name.
fn names_of(words: &[&[u8]]) -> JobNames
    requires { length words.now ≤ 8 }
{
    let mut names = JobNames::new();
    for word in words {
        if let Some(name) = Name::new(word) {
            names.push(name);
        }
    }
    names
}

#[test]
fn names_in_order(rt: HostRuntime) -> Result<(), Fail> {
    let names = names_of(&[b"j1", b"j2", b"j1"]);
    let first = Name::new(b"j1").ok_or("a name")?;
    let second = Name::new(b"j2").ok_or("a name")?;
    assert_eq!(rt; names.len(), 3);
    assert!(rt; names.as_slice() == [first, second, first].as_slice());
    assert_eq!(rt; JobNames::new().len(), 0);
    Ok(())
}

#[test]
fn texts_of_jobs(rt: HostRuntime) -> Result<(), Fail> {
    let none = JobNames::new();
    let one = names_of(&[b"j1"]);
    let three = names_of(&[b"j3", b"j1", b"j3"]);
    let eight = names_of(&[
        b"a",
        b"b",
        b"c",
        b"d",
        b"e",
        b"f",
        b"g",
        b"0123456789abcdef",
    ]);
    let replies = [
        Reply::Queued { k: 0, cookie: 4 },
        Reply::Queued { k: 12, cookie: 8 },
        Reply::Ran(none),
        Reply::Ran(one),
        Reply::Ran(three),
        Reply::Ran(eight),
        Reply::TookJobs(none),
        Reply::TookJobs(one),
        Reply::TookJobs(three),
        Reply::TookJobs(eight),
        Reply::Finished(1),
        Reply::Finished(8),
    ];
    let text = "queued 0 cookie 4\n\
        queued 12 cookie 8\n\
        ran\n\
        ran j1\n\
        ran j3 j1 j3\n\
        ran a b c d e f g 0123456789abcdef\n\
        took\n\
        took j1\n\
        took j3 j1 j3\n\
        took a b c d e f g 0123456789abcdef\n\
        finished 1\n\
        finished 8\n";
    check_texts(&rt, &replies, text)
}

#[test]
fn texts_of_segments(rt: HostRuntime) -> Result<(), Fail> {
    let wait = Waiting {
        count: 2,
        number: 8,
    };
    let ready = Waiting {
        count: 3,
        number: 12,
    };
    let empty = Waiting {
        count: 0,
        number: 0,
    };
    let replies = [
        Reply::Segs(Segments {
            done: 1,
            wait,
            ready,
            next: 5,
        }),
        Reply::Segs(Segments {
            done: 0,
            wait: empty,
            ready: empty,
            next: 0,
        }),
    ];
    let text = "segs done 1 wait 2 8 ready 3 12 next 5\n\
        segs done 0 wait 0 0 ready 0 0 next 0\n";
    check_texts(&rt, &replies, text)
}

#[test]
fn texts_of_refused_jobs(rt: HostRuntime) -> Result<(), Fail> {
    let replies = [
        Reply::Refused(Command::Call, Cause::Exhausted),
        Reply::Refused(Command::Call, Cause::Memory),
        Reply::Refused(Command::Run, Cause::Invoking),
        Reply::Refused(Command::Batch, Cause::Invoking),
        Reply::Refused(Command::Finish, Cause::NoBatch),
    ];
    let text = "refused call exhausted\n\
        refused call memory\n\
        refused run invoking\n\
        refused batch invoking\n\
        refused finish none\n";
    check_texts(&rt, &replies, text)
}
