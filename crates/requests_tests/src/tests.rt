mod chains;
mod commands;
mod jobs;
mod sets;
mod stage;
mod tables;
mod tickets;

use lines::{Name, words};
use requests::{
    Act, Cause, Command, Fault, Period, Reply, Request, Sections, is_skipped, parse, push_reply,
};
use scan::Progress;
use sseq::{Index, Number, Phase};
use stage::Stage;
use std::process::Abort;
use std::test::Fail;

#[test]
fn skipped_lines(rt: HostRuntime) {
    let rows: [(&[&[u8]], bool); 5] = [
        (&[], true),
        (&[b"#"], true),
        (&[b"#lock", b"a"], true),
        (&[b"lock", b"#"], false),
        (&[b"a#"], false),
    ];
    for (words, skipped) in rows {
        assert_eq!(rt; is_skipped(words), skipped);
    }
}

/// Checks the fault of the first words of a row, on the stage. It is the last word, `none` where there is no fault.
fn check_fault(rt: &(impl Abort + AllocGlobal), row: &[&[u8]]) -> Result<(), Fail> {
    let Some((wanted, line)) = row.split_last() else {
        return Ok(());
    };
    assert!(rt; !line.is_empty());
    let found = match parse(line, &Stage) {
        Ok(_) => "none".to_string(rt.alloc())?,
        Err(fault) => fault.to_string(rt.alloc())?,
    };
    assert_eq!(rt; found.as_bytes(), *wanted);
    Ok(())
}

/// Checks the fault of each line of a table, which stands behind it.
fn check_faults(rt: &(impl Abort + AllocGlobal), table: &str) -> Result<(), Fail> {
    for row in table.as_bytes().split(|byte| *byte == b'\n') {
        let words = words(rt.alloc(), row)?;
        if !is_skipped(&words) {
            check_fault(rt, &words)?;
        }
    }
    Ok(())
}

/// Would catch a fault that is named before another to the left of it.
#[test]
fn faults_from_left_to_right(rt: HostRuntime) -> Result<(), Fail> {
    let table = "
        frob                             command
        frob A                           command
        state                            words
        state A B                        words
        lock A x                         words
        state A                          name
        state abcdefghij0123456          name
        state b                          domain
        state a                          none
        domain A x                       name
        domain a x                       taken
        domain b x                       number
        domain b 300                     none
        domain b 18446744073709551615    none
        domain b 18446744073709551616    number
        lock b x S                       domain
        lock a x S                       number
        lock a 01 S                      number
        lock a 2 S                       processor
        lock a 1 S                       name
        lock a 1 s                       taken
        lock a 1 r                       taken
        lock a 1 a                       none
        look a 0 r                       taken
        look a 0 t                       none
        enter a 2 t                      processor
        enter a 0 t                      name
        enter a 0 s                      name
        enter a 0 R                      name
        enter a 0 r                      none
        unlock a r                       name
        unlock a s                       none
        poll a 2 x                       processor
        poll a 1 x                       number
        poll a 1 6                       none
        get a 1                          none";
    check_faults(&rt, table)
}

/// Would catch a line that takes a section of the other kind or a parked one, or one that makes a second thing of a
/// parked section's name.
#[test]
fn faults_of_held_sections(rt: HostRuntime) -> Result<(), Fail> {
    let table = "
        # `unlock` takes what `lock` and `enter` began, `up` and `park` what `down` began and is not parked
        unlock a h                       name
        unlock a p                       name
        enter a 0 h                      name
        enter a 0 p                      name
        up a 0 r                         name
        up a 0 s                         name
        up a 0 p                         name
        up a 0 t                         name
        up a 0 H                         name
        up a 1 h                         none
        up a h                           words
        up b x S                         domain
        up a x S                         number
        up a 2 S                         processor
        park a r                         name
        park a s                         name
        park a p                         name
        park a t                         name
        park a h                         none
        park a                           words
        park a 0 h                       words
        park b S                         domain
        # a name in use is taken, also that of a parked section
        down a 0 r                       taken
        down a 0 s                       taken
        down a 0 h                       taken
        down a 0 p                       taken
        look a 0 p                       taken
        lock a 0 p                       taken
        lock a 0 h                       taken
        down a x p                       number
        down a 2 p                       processor
        down a 1 S                       name
        down a 1 t                       none
        unpark b                         domain
        unpark a p                       words
        unpark a                         none
        ask a                            words
        ask b x                          domain
        ask a 2                          processor
        ask a 1                          none";
    check_faults(&rt, table)
}

/// What the words of a line ask for on the stage, if there is no fault.
fn asked(rt: &(impl Abort + AllocGlobal), line: &str) -> Result<Option<Request>, Fail> {
    let words = words(rt.alloc(), line.as_bytes())?;
    assert!(rt; !words.is_empty());
    Ok(parse(&words, &Stage).ok())
}

/// Whether a line asks the domain of the stage for this act.
fn asks_for(rt: &(impl Abort + AllocGlobal), line: &str, act: Act) -> Result<bool, Fail> {
    Ok(asked(rt, line)? == Some(Request::On { domain: 0, act }))
}

#[test]
fn words_ask(rt: HostRuntime) -> Result<(), Fail> {
    let r = Name::new(b"r").ok_or("a name")?;
    let s = Name::new(b"s").ok_or("a name")?;
    let t = Name::new(b"t").ok_or("a name")?;
    let h = Name::new(b"h").ok_or("a name")?;
    let rows = [
        ("state a", Act::State),
        (
            "look a 1 t",
            Act::Look {
                processor: 1,
                look: t,
            },
        ),
        (
            "enter a 1 r",
            Act::Enter {
                processor: 1,
                look: r,
            },
        ),
        (
            "lock a 1 t",
            Act::Lock {
                processor: 1,
                section: t,
            },
        ),
        ("unlock a s", Act::Unlock { section: s }),
        (
            "down a 1 t",
            Act::Down {
                processor: 1,
                section: t,
            },
        ),
        (
            "up a 1 h",
            Act::Up {
                processor: 1,
                section: h,
            },
        ),
        ("park a h", Act::Park { section: h }),
        ("unpark a", Act::Unpark),
        ("get a 1", Act::Get { processor: 1 }),
        ("ask a 1", Act::Ask { processor: 1 }),
        (
            "poll a 1 7",
            Act::Poll {
                processor: 1,
                cookie: 7,
            },
        ),
        ("start a 1", Act::Start { processor: 1 }),
        ("advance a 1", Act::Advance { processor: 1 }),
        ("step a 0", Act::Step { processor: 0 }),
    ];
    for (line, act) in rows {
        assert!(rt; asks_for(&rt, line, act)?);
    }
    let made = Request::Domain {
        name: t,
        processors: 9,
    };
    assert!(rt; asked(&rt, "domain t 9")? == Some(made));
    Ok(())
}

/// Checks the text of replies.
fn check_texts(rt: &(impl Abort + AllocGlobal), replies: &[Reply], text: &str) -> Result<(), Fail> {
    let mut bytes = Vec::new(rt.alloc());
    for reply in replies {
        push_reply(&mut bytes, reply)?;
    }
    assert_eq!(rt; bytes.as_slice(), text.as_bytes());
    Ok(())
}

#[test]
fn texts_of_replies(rt: HostRuntime) -> Result<(), Fail> {
    let domain = Name::new(b"web0").ok_or("a name")?;
    let number = Number::new(6).ok_or("a number")?;
    let period = Period {
        number,
        phase: Phase::Scan2,
    };
    let sections = Sections {
        index: Index::One,
        zero: 3,
        one: 4,
        need: Number::new(8).ok_or("a number")?,
    };
    let replies = [
        Reply::Made {
            domain,
            processors: 2,
        },
        Reply::State {
            domain,
            period,
            sections,
        },
        Reply::Look(Index::Zero),
        Reply::Index(Index::One),
        Reply::Closed,
        Reply::Parked,
        Reply::Took(domain),
        Reply::Cookie(2_305_843_009_213_693_952),
        Reply::Done,
        Reply::NotYet,
        Reply::Progress(Progress::Idle),
        Reply::Progress(Progress::Started(number)),
        Reply::Progress(Progress::Flipped(Index::One)),
        Reply::Progress(Progress::Ended(number)),
        Reply::Progress(Progress::Waiting(Index::Zero)),
        Reply::Progress(Progress::Step),
        Reply::Refused(Command::Lock, Cause::Exhausted),
        Reply::Faulty {
            line: 7,
            fault: Fault::Taken,
        },
    ];
    let text = "made web0 2\n\
        state web0 number 6 scan2 index 1 open 3 4 need 8\n\
        look 0\n\
        index 1\n\
        closed\n\
        parked\n\
        took web0\n\
        cookie 2305843009213693952\n\
        done\n\
        not yet\n\
        idle\n\
        started 6\n\
        flipped 1\n\
        ended 6\n\
        waiting 0\n\
        step\n\
        refused lock exhausted\n\
        line 7: taken\n";
    check_texts(&rt, &replies, text)
}

#[test]
fn texts_of_faults(rt: HostRuntime) -> Result<(), Fail> {
    let replies = [
        Reply::Faulty {
            line: 1,
            fault: Fault::Text,
        },
        Reply::Faulty {
            line: 1,
            fault: Fault::Command,
        },
        Reply::Faulty {
            line: 1,
            fault: Fault::Words,
        },
        Reply::Faulty {
            line: 1,
            fault: Fault::Name,
        },
        Reply::Faulty {
            line: 1,
            fault: Fault::Domain,
        },
        Reply::Faulty {
            line: 1,
            fault: Fault::Taken,
        },
        Reply::Faulty {
            line: 1,
            fault: Fault::Number,
        },
        Reply::Faulty {
            line: 1,
            fault: Fault::Processor,
        },
    ];
    let text = "line 1: text\n\
        line 1: command\n\
        line 1: words\n\
        line 1: name\n\
        line 1: domain\n\
        line 1: taken\n\
        line 1: number\n\
        line 1: processor\n";
    check_texts(&rt, &replies, text)
}

#[test]
fn texts_of_refusals(rt: HostRuntime) -> Result<(), Fail> {
    let replies = [
        Reply::Refused(Command::Domain, Cause::Full),
        Reply::Refused(Command::Domain, Cause::Processors),
        Reply::Refused(Command::Domain, Cause::Memory),
        Reply::Refused(Command::Enter, Cause::Exhausted),
        Reply::Refused(Command::Down, Cause::Exhausted),
        Reply::Refused(Command::Park, Cause::Full),
        Reply::Refused(Command::Unpark, Cause::Empty),
        Reply::Refused(Command::Advance, Cause::Exhausted),
        Reply::Refused(Command::Step, Cause::Exhausted),
        Reply::Refused(Command::Start, Cause::Running),
        Reply::Refused(Command::Start, Cause::Busy),
        Reply::Refused(Command::Poll, Cause::NotACookie),
    ];
    let text = "refused domain full\n\
        refused domain processors\n\
        refused domain memory\n\
        refused enter exhausted\n\
        refused down exhausted\n\
        refused park full\n\
        refused unpark empty\n\
        refused advance exhausted\n\
        refused step exhausted\n\
        refused start running\n\
        refused start busy\n\
        refused poll not-a-cookie\n";
    check_texts(&rt, &replies, text)
}
