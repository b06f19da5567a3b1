//! The lines of the chain.
use super::{asks_for, check_faults, check_texts};
use requests::{Act, Answer, BlockIds, Cause, Command, Fault, HandlerAnswers, Reply};
use std::test::Fail;

/// Would catch an id of 16, a priority that is read without its sign or beyond 32 bits, and one with two forms.
#[test]
fn faults_of_registers(rt: HostRuntime) -> Result<(), Fail> {
    let table = "
        register a 0 1                   words
        register a 0 1 5 5               words
        register A x x x                 name
        register b x x x                 domain
        register a x x x                 number
        register a 2 x x                 processor
        register a 1 x x                 number
        register a 1 16 x                number
        register a 1 01 5                number
        register a 1 -1 5                number
        register a 1 15 x                number
        register a 1 15 2147483648       number
        register a 1 15 -2147483649      number
        register a 1 15 -0               number
        register a 1 15 -01              number
        register a 1 15 +1               number
        register a 1 15 -                number
        register a 1 15 --1              number
        register a 1 15 2147483647       none
        register a 1 0 -2147483648       none
        register a 1 0 -1                none
        register a 1 0 0                 none
        unregister a 0                   words
        unregister a 0 1 5               words
        unregister b x x                 domain
        unregister a 2 x                 processor
        unregister a 1 16                number
        unregister a 1 15                none
        chain a                          words
        chain a 0 1                      words
        chain b x                        domain
        chain a 2                        processor
        chain a 1                        none";
    check_faults(&rt, table)
}

/// Would catch a pair that counts and is none, a handler that is named twice, and a pair that counts before an argument.
#[test]
fn faults_of_pairs(rt: HostRuntime) -> Result<(), Fail> {
    let table = "
        notify                           words
        notify a                         words
        notify A x x                     name
        notify b x x                     domain
        notify a x x                     number
        notify a 2 x                     processor
        notify a 1                       none
        notify a 1 x                     pair
        notify a 1 1                     pair
        notify a 1 ok                    pair
        notify a 1 1:                    pair
        notify a 1 :ok                   pair
        notify a 1 :                     pair
        notify a 1 1:OK                  pair
        notify a 1 1:o                   pair
        notify a 1 1:okay                pair
        notify a 1 1:ok:                 pair
        notify a 1 1::ok                 pair
        notify a 1 16:ok                 pair
        notify a 1 01:ok                 pair
        notify a 1 -1:ok                 pair
        notify a 1 1:ok 1:ok             pair
        notify a 1 1:ok 2:ok 1:bad       pair
        notify a 1 1:ok 2                pair
        notify a 1 0:done 15:bad         none
        notify a 1 4:ok 1:stop 2:bad     none";
    check_faults(&rt, table)
}

/// Would catch a pair that goes to another handler, or a handler that answers something else where no pair names it.
#[test]
fn words_ask_for_chains(rt: HostRuntime) -> Result<(), Fail> {
    let nothing = HandlerAnswers {
        by_id: [Answer::Done; 16],
    };
    let mut answers = nothing;
    answers.by_id[0] = Answer::Stop;
    answers.by_id[3] = Answer::Ok;
    answers.by_id[15] = Answer::Bad;
    let rows = [
        (
            "register a 1 15 -2147483648",
            Act::Register {
                processor: 1,
                id: 15,
                priority: i32::MIN,
            },
        ),
        (
            "register a 0 0 5",
            Act::Register {
                processor: 0,
                id: 0,
                priority: 5,
            },
        ),
        (
            "unregister a 1 7",
            Act::Unregister {
                processor: 1,
                id: 7,
            },
        ),
        ("chain a 1", Act::Chain { processor: 1 }),
        (
            "notify a 1",
            Act::Notify {
                processor: 1,
                answers: nothing,
            },
        ),
        (
            "notify a 1 15:bad 0:stop 7:done 3:ok",
            Act::Notify {
                processor: 1,
                answers,
            },
        ),
    ];
    for (line, act) in rows {
        assert!(rt; asks_for(&rt, line, act)?);
    }
    assert_eq!(rt; nothing.value(), 0);
    assert_eq!(rt; answers.value(), 0xc000_0042);
    Ok(())
}

/// Would catch hexadecimal in capitals, without its zeros, or cut to four digits.
#[test]
fn texts_of_chains(rt: HostRuntime) -> Result<(), Fail> {
    let replies = [
        Reply::Registered(15),
        Reply::Unregistered(0),
        Reply::Chain(BlockIds::new(&[])),
        Reply::Chain(BlockIds::new(&[3, 15, 0])),
        Reply::Chain(BlockIds::new(&[14, 13, 12, 11, 10, 9, 8, 7, 6, 5, 4, 3, 2, 1, 0])),
        Reply::Called { last: 0, calls: 0 },
        Reply::Called {
            last: 0x8001,
            calls: 3,
        },
        Reply::Called {
            last: 0xab,
            calls: 15,
        },
        Reply::Called {
            last: 0xfedc_ba98,
            calls: 1,
        },
        Reply::Refused(Command::Register, Cause::There),
        Reply::Refused(Command::Register, Cause::Full),
        Reply::Refused(Command::Register, Cause::NoSlot),
        Reply::Refused(Command::Unregister, Cause::NotThere),
        Reply::Refused(Command::Notify, Cause::Exhausted),
        Reply::Faulty {
            line: 13,
            fault: Fault::Pair,
        },
    ];
    let text = "registered 15\n\
        unregistered 0\n\
        chain\n\
        chain 3 15 0\n\
        chain 14 13 12 11 10 9 8 7 6 5 4 3 2 1 0\n\
        0000 calls 0\n\
        8001 calls 3\n\
        00ab calls 15\n\
        fedcba98 calls 1\n\
        refused register there\n\
        refused register full\n\
        refused register noslot\n\
        refused unregister notthere\n\
        refused notify exhausted\n\
        line 13: pair\n";
    check_texts(&rt, &replies, text)
}
