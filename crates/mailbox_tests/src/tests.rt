ghost use Rattle.std.specs.Prelude.{◌≡◌, IfOk};

use linked_list_allocator::LocalHeap;
use mailbox::{Mailbox, Posted};
use std::alloc::{AllocError, Allocator};
use std::sync::Wait;
use std::test::Fail;
use std::thread::join;

/// A count that has a parity, and can't be dropped.
struct Count {
    value: u64,
}

impl Posted<u64> for Count {
    ghost use Rattle.std.specs.Prelude.{◌≡◌, ◌%◌};

    ghost fits = { λ c key. c.value % 2 ≡ key };
}

/// The count's value.
fn spend(count: Count) -> u64
    ensures { result ≡ count.value }
{
    let Count { value } = count;
    value
}

/// A place for an even count.
fn even<A: Allocator>(alloc: A) -> Result<Mailbox<Count, u64, A>, AllocError>
    ensures { IfOk result (λ mailbox. mailbox.key ≡ 0) }
{
    Mailbox::new(alloc, &0)
}

/// Posts this value twice over, if nothing lies there.
fn post<A: Allocator>(mailbox: &Mailbox<Count, u64, A>, half: u32) -> bool
    requires { mailbox.now.key ≡ 0 }
{
    let value = 2 * half as u64;
    match mailbox.post(Count { value }) {
        Ok(()) => true,
        Err(back) => {
            let back = spend(back);
            prove!(back == value);
            false
        }
    }
}

/// What lies there, or 1.
fn take<A: Allocator>(mailbox: &Mailbox<Count, u64, A>) -> u64 {
    match mailbox.take() {
        Some(count) => spend(count),
        None => 1,
    }
}

/// Would catch a value that is lost under another, given twice, or refused where nothing lies; and an end that loses one.
#[test]
fn one_at_a_time(rt: HostRuntime) -> Result<(), Fail> {
    let mailbox = even(rt.alloc())?;
    let mut seen = (take(&mailbox), 0, 0, 0);
    let posted = (post(&mailbox, 1), post(&mailbox, 2));
    seen.1 = take(&mailbox);
    seen.2 = take(&mailbox);
    let again = post(&mailbox, 3);
    if let Some(last) = mailbox.close(&rt) {
        seen.3 = spend(last);
    }
    assert_eq!(rt; posted, (true, false));
    assert!(rt; again);
    assert_eq!(rt; seen, (1, 2, 1, 6));
    Ok(())
}

/// Would catch an end that gives a value where nothing lies.
#[test]
fn an_empty_one_ends_with_nothing(rt: HostRuntime) -> Result<(), Fail> {
    let mailbox = even(rt.alloc())?;
    let mut last = 1;
    if let Some(count) = mailbox.close(&rt) {
        last = spend(count);
    }
    assert_eq!(rt; last, 1);
    Ok(())
}

const TURNS: u32 = 1_000;

/// Posts 2, 4, 6 and so on.
fn post_all<R: Wait>(rt: &R, mailbox: &Mailbox<Count, u64>)
    requires { mailbox.now.key ≡ 0 }
{
    for turn in 1..TURNS + 1 {
        let value = 2 * turn as u64;
        mailbox.post_waiting(rt, Count { value });
    }
}

/// Takes as many. Returns their sum, and whether each was greater than the one before.
fn take_all<R: Wait>(rt: &R, mailbox: &Mailbox<Count, u64>) -> (u64, bool) {
    let mut sum: u64 = 0;
    let mut last = 0;
    let mut rising = true;
    for _ in 0..TURNS {
        let value = spend(mailbox.take_waiting(rt));
        sum = sum.wrapping_add(value);
        rising &= value > last;
        last = value;
    }
    (sum, rising)
}

/// Would catch a value that is lost or given twice between threads.
#[test]
fn one_posts_and_one_takes(rt: HostRuntime) -> Result<(), Fail> {
    let mailbox = even(rt.alloc())?;
    let (taken, ()) = join(&rt, || take_all(&rt, &mailbox), || post_all(&rt, &mailbox));
    let empty = take(&mailbox);
    if let Some(last) = mailbox.close(&rt) {
        spend(last);
    }
    let turns = TURNS as u64;
    assert_eq!(rt; taken, (turns * (turns + 1), true));
    assert_eq!(rt; empty, 1);
    Ok(())
}

/// Would catch a value that two takers get.
#[test]
fn two_post_and_two_take(rt: HostRuntime) -> Result<(), Fail> {
    let mailbox = even(rt.alloc())?;
    let posting = || {
        join(&rt, || post_all(&rt, &mailbox), || post_all(&rt, &mailbox));
    };
    let taking = || join(&rt, || take_all(&rt, &mailbox), || take_all(&rt, &mailbox));
    let (_, (one, other)) = join(&rt, posting, taking);
    if let Some(last) = mailbox.close(&rt) {
        spend(last);
    }
    let turns = TURNS as u64;
    assert_eq!(rt; one.0 + other.0, 2 * turns * (turns + 1));
    Ok(())
}

/// Would catch a refused allocation that leaves something allocated, and an end that does.
#[test]
fn new_in_little_room(rt: HostRuntime) -> Result<(), Fail> {
    for room in 0..20 {
        let heap = LocalHeap::new(rt.alloc(), 16 + 8 * room)?;
        if let Ok(mailbox) = even(&heap) {
            assert!(rt; room > 0 && heap.used() > 0);
            if let Some(last) = mailbox.close(&rt) {
                spend(last);
            }
            assert_eq!(rt; heap.used(), 0);
            return Ok(());
        }
        assert_eq!(rt; heap.used(), 0);
    }
    panic!(rt; "it never fits")
}
