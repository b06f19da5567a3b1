use super::*;
use std::io;
use std::test::Fail;

/// A writer that is full.
#[derive(Drop)]
struct Full;

impl Write for Full {
    fn write(&mut self, _buf: &[u8]) -> io::Result<usize> {
        Ok(0)
    }

    fn flush(&mut self) -> io::Result<()> {
        Ok(())
    }
}

/// Would catch a write that fails and is not told of.
#[test]
fn writing_fails(rt: HostRuntime) -> Result<(), Fail> {
    let size = Size {
        readers: 1,
        rounds: 1,
    };
    assert_eq!(rt; run(&rt, &mut Full, size), Err(RunError::Write));
    Ok(())
}
