//! Readers and writers for tests, which give and take little at once, and fail when they are told to.
use std::alloc::Allocator;
use std::io;
use std::io::{ErrorKind, Read, Write};

/// A reader that is interrupted.
#[derive(Drop)]
pub struct Reader<'a> {
    /// What is left to be read.
    pub rest: &'a [u8],
    /// How many bytes a read gives at most.
    pub most: usize,
    /// How many reads are left until one fails, and all after it.
    pub reads: usize,
}

impl Read for Reader<'_> {
    fn read(&mut self, buf: &mut [u8]) -> io::Result<usize> {
        if self.reads == 0 {
            return Err(ErrorKind::Interrupted.into());
        }
        self.reads -= 1;
        let count = buf.len().min(self.rest.len()).min(self.most);
        buf[..count].copy_from_slice(&self.rest[..count]);
        self.rest = &self.rest[count..];
        Ok(count)
    }
}

/// A writer that is interrupted.
#[derive(Drop)]
pub struct Writer<A: Allocator> {
    /// What was written.
    pub taken: Vec<u8, A>,
    /// How many bytes a write takes at most.
    pub most: usize,
    /// How many writes are left until one fails, and all after it.
    pub writes: usize,
}

impl<A: Allocator> Write for Writer<A> {
    fn write(&mut self, buf: &[u8]) -> io::Result<usize> {
        if self.writes == 0 {
            return Err(ErrorKind::Interrupted.into());
        }
        self.writes -= 1;
        let count = buf.len().min(self.most);
        self.taken.extend_from_slice(&buf[..count])?;
        Ok(count)
    }

    fn flush(&mut self) -> io::Result<()> {
        Ok(())
    }
}
