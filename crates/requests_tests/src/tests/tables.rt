//! The lines of the table.
use super::{asks_for, check_faults, check_texts};
use lines::Name;
use requests::{Act, Cause, Command, Reply};
use sseq::Index;
use std::test::Fail;

/// Would catch a key or a plug of 2^32, and one that is read before the words to its left.
#[test]
fn faults_of_keys(rt: HostRuntime) -> Result<(), Fail> {
    let table = "
        install a 0 1                    words
        install a 0 1 2 3                words
        install A x x x                  name
        install b x x x                  domain
        install a x x x                  number
        install a 2 x x                  processor
        install a 1 x 1                  number
        install a 1 -1 1                 number
        install a 1 4294967296 1         number
        install a 1 1 x                  number
        install a 1 1 4294967296         number
        install a 1 4294967295 4294967295 none
        install a 0 0 0                  none
        remove a 0                       words
        remove a 2 x                     processor
        remove a 1 4294967296            number
        remove a 1 4294967295            none
        lookup a 0                       words
        lookup b x x                     domain
        lookup a 1 4294967296            number
        lookup a 1 4294967295            none";
    check_faults(&rt, table)
}

/// Would catch a lease's name that may be in use, a line that takes a lease for another thing, or another thing for a
/// lease.
#[test]
fn faults_of_leases(rt: HostRuntime) -> Result<(), Fail> {
    let table = "
        lease a 0                        words
        lease b x L                      domain
        lease a 2 L                      processor
        lease a 1 L                      name
        lease a 1 l                      taken
        lease a 1 r                      taken
        lease a 1 s                      taken
        lease a 1 h                      taken
        lease a 1 p                      taken
        lease a 1 b                      taken
        lease a 1 t                      none
        read a 0 l                       words
        read a 2 L x                     processor
        read a 1 L x                     name
        read a 1 t 1                     name
        read a 1 r 1                     name
        read a 1 s 1                     name
        read a 1 h 1                     name
        read a 1 p 1                     name
        read a 1 b 1                     name
        read a 1 l x                     number
        read a 1 l 4294967296            number
        read a 1 l 1                     none
        release a l                      words
        release a 2 l                    processor
        release a 1 h                    name
        release a 1 t                    name
        release a 1 l                    none
        look a 0 l                       taken
        lock a 0 l                       taken
        down a 0 l                       taken
        barrier a 0 l                    taken
        call a 0 l                       none
        enter a 0 l                      name
        unlock a l                       name
        up a 0 l                         name
        park a l                         name
        barrier-poll a 0 l               name";
    check_faults(&rt, table)
}

#[test]
fn words_ask_for_tables(rt: HostRuntime) -> Result<(), Fail> {
    let l = Name::new(b"l").ok_or("a name")?;
    let t = Name::new(b"t").ok_or("a name")?;
    let rows = [
        (
            "install a 1 4294967295 7",
            Act::Install {
                processor: 1,
                key: 4_294_967_295,
                plug: 7,
            },
        ),
        (
            "remove a 1 7",
            Act::Remove {
                processor: 1,
                key: 7,
            },
        ),
        (
            "lookup a 0 8",
            Act::Lookup {
                processor: 0,
                key: 8,
            },
        ),
        (
            "lease a 1 t",
            Act::Lease {
                processor: 1,
                lease: t,
            },
        ),
        (
            "read a 0 l 9",
            Act::Read {
                processor: 0,
                lease: l,
                key: 9,
            },
        ),
        (
            "release a 1 l",
            Act::Release {
                processor: 1,
                lease: l,
            },
        ),
    ];
    for (line, act) in rows {
        assert!(rt; asks_for(&rt, line, act)?);
    }
    Ok(())
}

#[test]
fn texts_of_tables(rt: HostRuntime) -> Result<(), Fail> {
    let replies = [
        Reply::Installed(1),
        Reply::Removed(18_014_398_509_481_983),
        Reply::Plug(4_294_967_295),
        Reply::NoPlug,
        Reply::Leased {
            index: Index::One,
            version: 3,
        },
        Reply::Released,
        Reply::Refused(Command::Install, Cause::Full),
        Reply::Refused(Command::Install, Cause::NoSlot),
        Reply::Refused(Command::Install, Cause::Memory),
        Reply::Refused(Command::Remove, Cause::NotThere),
        Reply::Refused(Command::Lease, Cause::Exhausted),
    ];
    let text = "installed version 1\n\
        removed version 18014398509481983\n\
        plug 4294967295\n\
        none\n\
        lease index 1 version 3\n\
        released\n\
        refused install full\n\
        refused install noslot\n\
        refused install memory\n\
        refused remove notthere\n\
        refused lease exhausted\n";
    check_texts(&rt, &replies, text)
}
