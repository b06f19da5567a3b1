ghost use Rattle.std.specs.Prelude.{◌<◌};

use super::*;
use std::test::Fail;

/// What a number says: itself, its phase, how many grace periods have ended, and the cookie of now.
fn read(value: u64) -> Option<(u64, Phase, u64, u64)>
    requires { value < 8 }
{
    let number = Number::new(value)?;
    Some((number.get(), state(number), completed(number), snap(number)))
}

#[test]
fn states_of_numbers(rt: HostRuntime) {
    for said in [
        (0, Phase::Idle, 0, 4),
        (1, Phase::Scan1, 0, 8),
        (2, Phase::Scan2, 0, 8),
        (4, Phase::Idle, 1, 8),
        (5, Phase::Scan1, 1, 12),
        (6, Phase::Scan2, 1, 12),
    ] {
        assert_eq!(rt; read(said.0), Some(said));
    }
    for value in [3, 7, (1 << 61) + 1, u64::MAX] {
        assert_eq!(rt; Number::new(value), None);
    }
}

/// Whether a cookie is done at a number.
fn done_at(value: u64, cookie: u64) -> Option<bool> {
    Some(is_done(Number::new(value)?, cookie))
}

// A cookie is done from its own number on, and the completed one always.
#[test]
fn cookies_of_numbers(rt: HostRuntime) {
    for (value, cookie, done) in [
        (0, 0, true),
        (0, 4, false),
        (2, 4, false),
        (4, 4, true),
        (9, 8, true),
        (0, COMPLETED, true),
        (2, COMPLETED, true),
        (0, 2, false),
    ] {
        assert_eq!(rt;
            (value, cookie, done_at(value, cookie)),
            (value, cookie, Some(done))
        );
    }
    for (value, after) in [(2, 4), (6, 8)] {
        assert_eq!(rt;
            Number::new(value).map(|number| number.finished().get()),
            Some(after)
        );
    }
    assert_eq!(rt; Number::zero().started().flipped().get(), 2);
}

// What is printed, and that it can be.
#[test]
fn numbers_are_printed(rt: HostRuntime) -> Result<(), Fail> {
    let most = Number::new(2305843009213693952).ok_or("a number")?;
    let one = Number::zero().started();
    let numbers = format!(in rt.alloc(); "{most} {one} {one:?}")?;
    assert_eq!(rt; numbers.as_str(), "2305843009213693952 1 Number(1)");
    Ok(())
}

#[test]
fn words_are_printed(rt: HostRuntime) -> Result<(), Fail> {
    let (zero, one) = (Index::Zero, Index::One);
    let indexes = format!(in rt.alloc(); "{zero} {} {one} {}", zero.other(), one.other())?;
    assert_eq!(rt; indexes.as_str(), "0 1 1 0");
    let phases = format!(in rt.alloc(); "{} {} {}", Phase::Idle, Phase::Scan1, Phase::Scan2)?;
    assert_eq!(rt; phases.as_str(), "idle scan1 scan2");
    Ok(())
}
