//! A number in two copies: readers read one with no lock, and the writer changes the other one and then swaps them.

use crate::miss::Miss;
use anyhow::Result;
use left_right::{Absorb, ReadHandle, WriteHandle, new};
use std::alloc::AllocError;
use std::sync::Wait;
use std::thread;
use std::thread::Threads;
use std::time::{Clock, Duration, Instant};

/// What is read.
const FIRST: u64 = 7;

/// The most threads that read at once.
const MOST_THREADS: usize = 1 << 16;

/// The number.
#[derive(Clone, Copy, Default)]
pub struct Number(pub u64);

impl Absorb<u64> for Number {
    type State = u64;

    ghost state = { λ n. n.0 };

    ghost applied = { λ _ put. put };

    ghost never_fails = { Unit {0} };

    fn absorb_first(&mut self, put: &u64, _other: &Number) -> Result<(), AllocError> {
        self.0 = *put;
        Ok(())
    }
}

/// Puts a number, which every later read finds. It waits until no reader has the copy that is changed.
fn put<R: Wait + Drop>(writer: &mut WriteHandle<Number, u64, R>, number: u64) -> Result<(), Miss> {
    if writer.append(number).is_err() || writer.publish().is_err() {
        return Err(Miss::Memory);
    }
    Ok(())
}

/// Reads the number so many times, one after another.
fn read_often(mut reader: ReadHandle<Number>, times: u64) -> Result<(), Miss> {
    for _ in 0..times {
        match reader.enter() {
            Some(number) if number.0 == FIRST => (),
            Some(number) => return Err(Miss::Read(number.0)),
            None => return Err(Miss::NoRead),
        }
    }
    Ok(())
}

/// How long it takes until each of so many threads has read so many times.
pub fn read_together<R: Threads + Sync + Wait + Clock + AllocGlobal + Copy + Drop>(
    rt: R,
    threads: usize,
    times: u64,
) -> Result<Duration> {
    // One more than the threads: the reader from which the others are cloned.
    let readers = threads.clamp(1, MOST_THREADS) + 1;
    let (mut writer, reader) = new::<Number, u64, R, _>(rt.alloc(), rt, readers)?;
    put(&mut writer, FIRST)?;
    let mut readers = Vec::new(rt.alloc());
    for _ in 0..threads {
        readers.push(reader.clone()?)?;
    }
    let start = Instant::now(&rt)?;
    let outcomes = thread::map_vec(&rt, readers, &|reader| read_often(reader, times))?;
    let elapsed = start.elapsed(&rt)?;
    for outcome in outcomes {
        outcome?;
    }
    Ok(elapsed)
}

/// How long it takes to change the number so many times, with a reader that is idle.
pub fn change<R: Wait + Clock + AllocGlobal + Copy + Drop>(rt: R, times: u64) -> Result<Duration> {
    let (mut writer, mut reader) = new::<Number, u64, R, _>(rt.alloc(), rt, 1)?;
    let start = Instant::now(&rt)?;
    for number in 0..times {
        put(&mut writer, number)?;
    }
    let elapsed = start.elapsed(&rt)?;
    let last = reader.enter().map(|number| number.0);
    match last {
        Some(number) if number == times.saturating_sub(1) => Ok(elapsed),
        Some(number) => Err(Miss::Read(number).into()),
        None => Err(Miss::NoRead.into()),
    }
}
