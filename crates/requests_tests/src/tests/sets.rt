//! The lines of sets.
use super::{asked, check_faults, check_texts};
use lines::Name;
use requests::{BlockIds, Cause, Command, Fault, Member, Members, Reply, Request};
use std::test::Fail;

/// Would catch half a pair or a ninth one that counts, a member that is read before the set's name or behind another one, and
/// a set that goes by a domain's name.
#[test]
fn faults_of_sets(rt: HostRuntime) -> Result<(), Fail> {
    let table = "
        set                                      words
        set t                                    words
        set t a                                  words
        set T x                                  words
        set t a 0 a                              words
        set t a 0 a 0 a 0 a 0 a 0 a 0 a 0 a 0    none
        set t a 0 a 0 a 0 a 0 a 0 a 0 a 0 a 0 a  words
        set t a 0 a 0 a 0 a 0 a 0 a 0 a 0 a 0 a 0    words
        set T A x                                name
        set k A x                                taken
        set k a 0                                taken
        set t A x                                name
        set t b x                                domain
        set t a x                                number
        set t a 01                               number
        set t a 18446744073709551616             number
        set t a 2                                processor
        set t a 2 A x                            processor
        set t a 0 A x                            name
        set t a 0 b x                            domain
        set t a 0 a x                            number
        set t a 0 a 2                            processor
        set t a 1                                none
        set a a 1 a 0                            none
        set s a 1 a 1                            none
        set-poll                                 words
        set-poll k k                             words
        set-poll K                               name
        set-poll t                               name
        set-poll a                               name
        set-poll k                               none";
    check_faults(&rt, table)
}

/// A processor of the domain of the stage.
fn member(processor: u64) -> Member {
    Member {
        domain: 0,
        processor,
    }
}

/// Would catch members in another order, one that is lost, and a processor of another member.
#[test]
fn words_ask_for_sets(rt: HostRuntime) -> Result<(), Fail> {
    let name = Name::new(b"t").ok_or("a name")?;
    let mut members = Members::new();
    members.push(member(1));
    assert!(rt; asked(&rt, "set t a 1")? == Some(Request::Set { name, members }));
    members.push(member(0));
    members.push(member(0));
    assert!(rt; asked(&rt, "set t a 1 a 0 a 0")? == Some(Request::Set { name, members }));
    assert!(rt; asked(&rt, "set-poll k")? == Some(Request::SetPoll { set: 0 }));
    Ok(())
}

#[test]
fn texts_of_sets(rt: HostRuntime) -> Result<(), Fail> {
    let replies = [
        Reply::Set(BlockIds::new(&[4])),
        Reply::Set(BlockIds::new(&[4, 8, 2_305_843_009_213_693_952, 4, 4, 4, 4, 12])),
        Reply::Refused(Command::Set, Cause::Full),
        Reply::Faulty {
            line: 20,
            fault: Fault::Name,
        },
    ];
    let text = "set 4\n\
        set 4 8 2305843009213693952 4 4 4 4 12\n\
        refused set full\n\
        line 20: name\n";
    check_texts(&rt, &replies, text)
}
