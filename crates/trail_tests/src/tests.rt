ghost use Rattle.std.specs.Prelude.{◌≡◌, ◌%◌, All, IfOk};

use linked_list_allocator::LocalHeap;
use std::alloc::{AllocError, Allocator, Global};
use std::sync::Wait;
use std::test::Fail;
use std::thread::{join, yield_now};
use trail::{Lies, Stock, Stocked, Trail};

/// A number that has a parity.
#[derive(Drop)]
struct Number {
    value: u64,
}

/// The rule: it has the parity of the key.
struct Parity;

impl Stocked<u64, Parity> for Number {
    ghost use Rattle.std.specs.Prelude.{◌≡◌, ◌%◌};

    ghost fits = { λ key n. n.value % 2 ≡ key };
}

/// Even numbers.
type Evens<A> = Stock<Number, u64, Parity, A>;

/// A stock in which nothing is.
fn empty<A: Allocator + Copy>(alloc: A, other: Global) -> Result<Evens<A>, AllocError>
    ensures key { IfOk result (λ stock. stock.key ≡ 0) }
    ensures none { IfOk result (λ stock. stock.count ≡ 0) }
{
    Stock::new(alloc, other, &0)
}

/// A stock of the numbers 2 and 4.
fn two<R: Wait + AllocGlobal>(rt: &R) -> Result<Evens<Global>, AllocError>
    ensures { IfOk result (λ stock. stock.key ≡ 0) }
{
    let mut stock = empty(rt.alloc(), rt.alloc())?;
    let mut numbers = Vec::with_capacity(rt.alloc(), 2)?;
    numbers.push_reserved(Number { value: 2 });
    numbers.push_reserved(Number { value: 4 });
    let _ = stock.fill(rt, numbers); // none is out of a new stock
    Ok(stock)
}

/// What is had where one number is asked for after another: two, and then none. And what is had again behind that.
fn take_all<R: Wait>(rt: &R, stock: &Evens<Global>) -> Option<(u64, u64, bool, u64)>
    requires { stock.now.key ≡ 0 }
{
    let Ok((first, out)) = stock.try_take(rt) else {
        return None;
    };
    let Ok((second, other)) = stock.try_take(rt) else {
        stock.give(rt, first, out);
        return None;
    };
    let values = (first.value, second.value);
    // Proved: the numbers are even.
    let odd = values.0 % 2 == 1;
    prove!(!odd);
    let none = stock.try_take(rt);
    let is_none = match none {
        Ok((third, more)) => {
            stock.give(rt, third, more);
            false
        }
        Err(_sight) => true,
    };
    stock.give(rt, first, out);
    stock.give(rt, second, other);
    match stock.try_take(rt) {
        Ok((again, out)) => {
            let value = again.value;
            stock.give(rt, again, out);
            Some((values.0, values.1, is_none, value))
        }
        Err(_sight) => None,
    }
}

/// Would catch a number that comes out twice, one that is lost, and one that is given where none is at home.
#[test]
fn out_and_back(rt: HostRuntime) -> Result<(), Fail> {
    let stock = two(&rt)?;
    assert_eq!(rt; take_all(&rt, &stock), Some((4, 2, true, 2)));
    let Ok(numbers) = stock.close(&rt) else {
        panic!(rt; "all are at home");
    };
    assert_eq!(rt; numbers.len(), 2);
    Ok(())
}

/// Would catch a stock that is closed while one is out.
#[test]
fn closed_in_vain(rt: HostRuntime) -> Result<(), Fail> {
    let stock = two(&rt)?;
    let Ok((number, out)) = stock.try_take(&rt) else {
        panic!(rt; "two are at home");
    };
    let Err((stock, _sight)) = stock.close(&rt) else {
        panic!(rt; "one is out");
    };
    stock.give(&rt, number, out);
    assert!(rt; stock.close(&rt).is_ok());
    Ok(())
}

/// How many these are, and their sum.
fn count_and_sum(numbers: &[Number]) -> (usize, u64) {
    let sum = numbers
        .iter()
        .fold(0, |sum: u64, number| sum.saturating_add(number.value));
    (numbers.len(), sum)
}

/// Would catch a stock that is filled again while one is out, which could then be closed without it, or never; and one that
/// hands out what it is filled with, in the place of as many others.
#[test]
fn filled_in_vain(rt: HostRuntime) -> Result<(), Fail> {
    let mut stock = two(&rt)?;
    let mut others = Vec::with_capacity(rt.alloc(), 2)?;
    others.push_reserved(Number { value: 6 });
    others.push_reserved(Number { value: 8 });
    let Ok((number, out)) = stock.try_take(&rt) else {
        panic!(rt; "two are at home");
    };
    let Err((others, _sight)) = stock.fill(&rt, others) else {
        panic!(rt; "one is out");
    };
    stock.give(&rt, number, out);
    let Ok((before, _sight)) = stock.fill(&rt, others) else {
        panic!(rt; "all are at home");
    };
    assert_eq!(rt; count_and_sum(before.as_slice()), (2, 6));
    let Ok(numbers) = stock.close(&rt) else {
        panic!(rt; "all are at home");
    };
    assert_eq!(rt; count_and_sum(numbers.as_slice()), (2, 14));
    Ok(())
}

const TURNS: u64 = 1_000;

/// Takes a number out and gives it back so often. Answers whether each one was even.
fn turn<R: Wait>(rt: &R, stock: &Evens<Global>) -> bool
    requires { stock.now.key ≡ 0 }
{
    let mut even = true;
    for _ in 0..TURNS {
        match stock.try_take(rt) {
            Ok((number, out)) => {
                even &= number.value % 2 == 0;
                stock.give(rt, number, out);
            }
            Err(_sight) => yield_now(),
        }
    }
    even
}

/// Would catch a number that two threads have at once, or that is lost.
#[test]
fn two_threads(rt: HostRuntime) -> Result<(), Fail> {
    let stock = two(&rt)?;
    let (here, there) = join(&rt, || turn(&rt, &stock), || turn(&rt, &stock));
    assert!(rt; here && there);
    let Ok(numbers) = stock.close(&rt) else {
        panic!(rt; "all are at home");
    };
    assert_eq!(rt; count_and_sum(numbers.as_slice()), (2, 6));
    Ok(())
}

/// Would catch a refused allocation that leaves something allocated.
#[test]
fn new_in_little_room(rt: HostRuntime) -> Result<(), Fail> {
    for room in 0..100 {
        let heap = LocalHeap::new(rt.alloc(), 16 + 8 * room)?;
        if let Ok(stock) = empty(&heap, rt.alloc()) {
            assert!(rt; room > 0 && heap.used() > 0);
            let Ok(none) = stock.close(&rt) else {
                panic!(rt; "nothing is out");
            };
            drop(none);
            assert_eq!(rt; heap.used(), 0);
            return Ok(());
        }
        assert_eq!(rt; heap.used(), 0);
    }
    panic!(rt; "it never fits")
}

/// A word that is written once.
#[derive(Drop)]
struct Word {
    written: Option<u64>,
}

impl Lies<u64, Option<u64>> for Word {
    ghost use Rattle.std.specs.Prelude.{◌≡◌, IfSome, Some};

    ghost fits = { λ key w. Unit {0} };

    ghost state = { λ w. w.written };

    ghost goes = { λ found next. IfSome found (λ n. next ≡ Some n) };
}

/// Writes it, where nobody did. Answers what stands there behind that.
fn write<R: Wait>(rt: &R, trail: &Trail<Word, u64, Option<u64>>, number: u64) -> u64 {
    let (word, loan) = trail.take(rt);
    let stands = word.written.unwrap_or(number);
    trail.put_back(
        Word {
            written: Some(stands),
        },
        loan,
    );
    stands
}

/// Would catch a word that is written twice.
#[test]
fn written_once(rt: HostRuntime) -> Result<(), Fail> {
    let trail = Trail::new(rt.alloc(), rt.alloc(), Word { written: None }, &0)?;
    let (here, there) = join(&rt, || write(&rt, &trail, 1), || write(&rt, &trail, 2));
    assert_eq!(rt; here, there);
    assert_eq!(rt; write(&rt, &trail, 3), here);
    Ok(())
}
