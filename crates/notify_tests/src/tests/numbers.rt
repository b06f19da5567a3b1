//! The numbers of answers and of refusals.
use notify::{BAD, DONE, OK, RegisterRefusal, STOP, STOP_BIT, UnregisterRefusal};
use std::test::Fail;

/// The numbers of `linux/notifier.h`. Would catch a bad answer that stops no call.
#[test]
fn numbers_of_answers(rt: HostRuntime) -> Result<(), Fail> {
    assert_eq!(rt; (DONE, OK, STOP_BIT), (0, 1, 0x8000));
    assert_eq!(rt; (STOP, BAD), (0x8001, 0x8002));
    Ok(())
}

/// Would catch another number of a refusal: callers hand it on.
#[test]
fn numbers_of_refusals(rt: HostRuntime) -> Result<(), Fail> {
    let register = [
        RegisterRefusal::There as u8,
        RegisterRefusal::Full as u8,
        RegisterRefusal::NoSlot as u8,
        RegisterRefusal::Memory as u8,
    ];
    let unregister = [
        UnregisterRefusal::NotThere as u8,
        UnregisterRefusal::NoSlot as u8,
    ];
    assert_eq!(rt; (register, unregister), ([1, 2, 3, 4], [1, 2]));
    Ok(())
}
