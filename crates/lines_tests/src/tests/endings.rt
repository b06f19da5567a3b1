use lines::RunError;
use std::test::Fail;

#[test]
fn numbers(rt: HostRuntime) -> Result<(), Fail> {
    let rows = [
        (RunError::Read, 1),
        (RunError::Write, 2),
        (RunError::Memory, 3),
    ];
    for (error, number) in rows {
        assert_eq!(rt; error as u8, number);
    }
    Ok(())
}
