//! The lines of tickets, and of taking a domain down.
use super::{asked, asks_for, check_faults, check_texts};
use lines::Name;
use requests::{Act, Cause, Command, Reply, Request};
use std::test::Fail;

/// Would catch a ticket's name that may be in use, whatever has it.
#[test]
fn faults_of_barriers(rt: HostRuntime) -> Result<(), Fail> {
    let table = "
        barrier a 0                      words
        barrier a 0 t t                  words
        barrier A x T                    name
        barrier b x T                    domain
        barrier a x T                    number
        barrier a 2 T                    processor
        barrier a 2 b                    processor
        barrier a 1 T                    name
        barrier a 1 abcdefghij0123456    name
        barrier a 1 r                    taken
        barrier a 1 s                    taken
        barrier a 1 h                    taken
        barrier a 1 p                    taken
        barrier a 1 b                    taken
        barrier a 1 t                    none
        # the name of the domain is no name in it
        barrier a 0 a                    none
        # and a ticket's name is taken for looks and sections too
        look a 0 b                       taken
        lock a 0 b                       taken
        down a 0 b                       taken
        call a 0 b                       none";
    check_faults(&rt, table)
}

/// Would catch a poll of what is no ticket, and another line that takes a ticket.
#[test]
fn faults_of_polled_tickets(rt: HostRuntime) -> Result<(), Fail> {
    let table = "
        barrier-poll a 0                 words
        barrier-poll a 0 b b             words
        barrier-poll A x T               name
        barrier-poll b x T               domain
        barrier-poll a x T               number
        barrier-poll a 2 T               processor
        barrier-poll a 1 T               name
        barrier-poll a 1 t               name
        barrier-poll a 1 r               name
        barrier-poll a 1 s               name
        barrier-poll a 1 h               name
        barrier-poll a 1 p               name
        barrier-poll a 1 b               none
        barrier-poll a 0 b               none
        enter a 0 b                      name
        unlock a b                       name
        up a 0 b                         name
        park a b                         name
        barrierpoll a 0 b                command";
    check_faults(&rt, table)
}

#[test]
fn faults_of_cleanup(rt: HostRuntime) -> Result<(), Fail> {
    let table = "
        cleanup                          words
        cleanup a 0                      words
        cleanup A                        name
        cleanup b                        domain
        cleanup a                        none
        cleanups a                       command";
    check_faults(&rt, table)
}

#[test]
fn words_ask_for_tickets(rt: HostRuntime) -> Result<(), Fail> {
    let b = Name::new(b"b").ok_or("a name")?;
    let t = Name::new(b"t").ok_or("a name")?;
    let rows = [
        (
            "barrier a 1 t",
            Act::Barrier {
                processor: 1,
                ticket: t,
            },
        ),
        (
            "barrier-poll a 1 b",
            Act::BarrierPoll {
                processor: 1,
                ticket: b,
            },
        ),
        (
            "barrier-poll a 0 b",
            Act::BarrierPoll {
                processor: 0,
                ticket: b,
            },
        ),
    ];
    for (line, act) in rows {
        assert!(rt; asks_for(&rt, line, act)?);
    }
    assert!(rt; asked(&rt, "cleanup a")? == Some(Request::Cleanup { domain: 0 }));
    Ok(())
}

#[test]
fn texts_of_tickets(rt: HostRuntime) -> Result<(), Fail> {
    let replies = [
        Reply::Ticket,
        Reply::Cleaned {
            opened: 0,
            closed: 0,
        },
        Reply::Cleaned {
            opened: 18_446_744_073_709_551_615,
            closed: 12,
        },
    ];
    let text = "ticket\n\
        cleaned opened 0 closed 0\n\
        cleaned opened 18446744073709551615 closed 12\n";
    check_texts(&rt, &replies, text)
}

/// Would catch a count that is left out, or cut to 64 bits.
#[test]
fn texts_of_refused_cleanups(rt: HostRuntime) -> Result<(), Fail> {
    let replies = [
        Reply::Refused(Command::Cleanup, Cause::Sections(1)),
        Reply::Refused(
            Command::Cleanup,
            Cause::Sections(18_446_744_073_709_551_615),
        ),
        Reply::Refused(Command::Cleanup, Cause::Period),
        Reply::Refused(Command::Cleanup, Cause::Callbacks(1)),
        Reply::Refused(
            Command::Cleanup,
            Cause::Callbacks(18_446_744_073_709_551_616),
        ),
        Reply::Refused(Command::Cleanup, Cause::Callbacks(u128::MAX)),
    ];
    let text = "refused cleanup sections 1\n\
        refused cleanup sections 18446744073709551615\n\
        refused cleanup period\n\
        refused cleanup callbacks 1\n\
        refused cleanup callbacks 18446744073709551616\n\
        refused cleanup callbacks 340282366920938463463374607431768211455\n";
    check_texts(&rt, &replies, text)?;
    check_texts(
        &rt,
        &[Reply::Refused(Command::Barrier, Cause::Memory)],
        "refused barrier memory\n",
    )
}
