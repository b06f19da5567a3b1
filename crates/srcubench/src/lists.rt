//! The loops through which entries go: a segmented list's, in which callbacks will wait, and those of a plain queue beside it.
ghost use Rattle.std.specs.Prelude.{◌≡◌, ℕ, ◌-◌, ◌+◌, ◌*◌, ◌^◌, ◌≤◌, [], ◌∷◌, ◌++◌, OnOk, IfOk};
ghost use Rattle.std.specs.VecDeque.{deque_len};
ghost use Rattle.segs.specs.MarkedList.{Done, Next, At};
ghost use Rattle.srcubench.specs.Lists.{AreMarked};

use segs::{Memory, SegList};
use std::alloc::AllocError;
use std::collections::VecDeque;

/// The entries of a batch: as many as one `take_done` takes at most.
pub const BATCH: u64 = 8;

/// The number for which the entries wait that are pushed all at once.
const NUMBER: u64 = 4;

/// Pushes an entry, which is lost where there is no memory.
fn push(list: &mut SegList<u64>, entry: u64) -> Result<(), Memory>
    ensures { OnOk result (list.new.entries ≡ list.old.entries ++ (entry, Next) ∷ []) }
{
    list.push(entry).map_err(|refused| refused.1)
}

/// Pushes so many entries, all at once, into an empty list.
fn push_all(list: &mut SegList<u64>, entries: u64) -> Result<(), Memory>
    requires { list.old.entries ≡ [] }
    ensures { OnOk result (AreMarked Next entries list.new.entries) }
{
    for entry in 0..entries {
        push(list, entry)?;
    }
    Ok(())
}

/// Pushes a batch into an empty list, and assigns the number after each push.
fn push_batch(list: &mut SegList<u64>, number: u64) -> Result<(), Memory>
    requires { list.old.entries ≡ [] }
    ensures { OnOk result (AreMarked (At number) 8 list.new.entries) }
{
    for entry in 0..BATCH {
        push(list, entry)?;
        list.assign(number);
    }
    Ok(())
}

/// Takes a batch out of a list in which all are done, and answers how many came.
fn take_batch(list: &mut SegList<u64>) -> u64
    ensures { (n : ℕ) → 8 ≤ n → AreMarked Done n list.old.entries → (result ≡ 8) × AreMarked Done (n - 8) list.new.entries }
{
    list.take_done(8).len() as u64
}

/// Takes out so many batches, which are all that is in the list, and answers how many entries came.
fn take_batches(list: &mut SegList<u64>, batches: u64) -> u64
    requires few { batches ≤ 2 ^ 54 }
    requires done { AreMarked Done (8 * batches) list.old.entries }
    ensures came { result ≡ 8 * batches }
    ensures empty { list.new.entries ≡ [] }
{
    let mut taken = 0;
    for _ in 0..batches {
        taken += take_batch(list);
    }
    taken
}

/// Pushes so many batches of entries into an empty list, gives them one number, advances to it, and takes all of them
/// out, a batch at a time. Answers how many entries came out.
pub fn pass_at_once(list: &mut SegList<u64>, batches: u64) -> Result<u64, Memory>
    requires few { batches ≤ 2 ^ 54 }
    requires empty { list.old.entries ≡ [] }
    ensures came { IfOk result (λ taken. taken ≡ 8 * batches) }
    ensures empty { OnOk result (list.new.entries ≡ []) }
{
    push_all(list, BATCH * batches)?;
    list.assign(NUMBER);
    list.advance(NUMBER);
    Ok(take_batches(list, batches))
}

/// The same a batch at a time, with an assign after each push.
pub fn pass_in_batches(list: &mut SegList<u64>, batches: u64) -> Result<u64, Memory>
    requires few { batches ≤ 2 ^ 54 }
    requires empty { list.old.entries ≡ [] }
    ensures came { IfOk result (λ taken. taken ≡ 8 * batches) }
    ensures empty { OnOk result (list.new.entries ≡ []) }
{
    let mut taken = 0;
    for number in 0..batches {
        push_batch(list, number)?;
        list.advance(number);
        taken += take_batches(list, 1);
    }
    Ok(taken)
}

/// Pushes an entry, which is lost where there is no memory.
fn queue_one(queue: &mut VecDeque<u64>, entry: u64) -> Result<(), AllocError>
    ensures { OnOk result (deque_len queue.new ≡ deque_len queue.old + 1) }
{
    queue.push_back(entry).map_err(|_| AllocError)
}

/// Pushes so many entries into a queue.
fn queue_up(queue: &mut VecDeque<u64>, entries: u64) -> Result<(), AllocError>
    ensures { OnOk result (deque_len queue.new ≡ deque_len queue.old + entries) }
{
    for entry in 0..entries {
        queue_one(queue, entry)?;
    }
    Ok(())
}

/// Pops so many entries, which are all that is in the queue, and answers how many came.
fn pop_all(queue: &mut VecDeque<u64>, entries: u64) -> u64
    requires { deque_len queue.old ≡ entries }
    ensures came { result ≡ entries }
    ensures empty { deque_len queue.new ≡ 0 }
{
    let mut popped = 0;
    for _ in 0..entries {
        if queue.pop_front().is_some() {
            popped += 1;
        }
    }
    popped
}

/// Pushes so many batches of entries into an empty queue and pops all of them. Answers how many came out.
pub fn queue_at_once(queue: &mut VecDeque<u64>, batches: u64) -> Result<u64, AllocError>
    requires few { batches ≤ 2 ^ 54 }
    requires empty { deque_len queue.old ≡ 0 }
    ensures came { IfOk result (λ popped. popped ≡ 8 * batches) }
    ensures empty { OnOk result (deque_len queue.new ≡ 0) }
{
    queue_up(queue, BATCH * batches)?;
    Ok(pop_all(queue, BATCH * batches))
}

/// The same a batch at a time.
pub fn queue_in_batches(queue: &mut VecDeque<u64>, batches: u64) -> Result<u64, AllocError>
    requires few { batches ≤ 2 ^ 54 }
    requires empty { deque_len queue.old ≡ 0 }
    ensures came { IfOk result (λ popped. popped ≡ 8 * batches) }
    ensures empty { OnOk result (deque_len queue.new ≡ 0) }
{
    let mut popped = 0;
    for _ in 0..batches {
        queue_up(queue, BATCH)?;
        popped += pop_all(queue, BATCH);
    }
    Ok(popped)
}
