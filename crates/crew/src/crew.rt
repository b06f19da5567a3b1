//! A crew: how it is mustered, how it works, and how it is dismissed.
ghost use Rattle.std.specs.Prelude.{◌≡◌, ◌≤◌, [], All, MatchResult, length, vec_len, vec_capacity};
ghost use Rattle.std.specs.List.{AllZip};
ghost use Rattle.std.specs.Thread.{IsSend, IsSync};
ghost use Rattle.crew.specs.Parts.{Accepts, Changes, IsReady, Does, Takes, IsMustered, HasWorked, mustered, AreBack, AreDone};

use crate::member::Member;
use std::thread::{Threads, for_each_mut, join_mut};

/// What comes back where there is no memory.
type Refused<W, P> = (Vec<W>, Vec<P>);

/// Gives each worker its part. The last one comes first.
fn muster<W, P, T>(
    workers: &mut Vec<W>,
    mut parts: Vec<P>,
    mut members: Vec<Member<W, P, T>>,
) -> Vec<Member<W, P, T>>
    requires as_many { vec_len workers.old ≡ vec_len parts }
    requires room { (vec_len members ≡ 0) × (vec_len parts ≤ vec_capacity members) }
    ensures members { IsMustered workers.old.items parts.items result.items }
    ensures as_many { vec_len result ≡ vec_len parts }
    ensures workers { (vec_len workers.new ≡ 0) × (vec_capacity workers.new ≡ vec_capacity workers.old) }
{
    while let Some(part) = parts.pop() {
        let Some(worker) = workers.pop() else {
            unreachable!()
        };
        members.push_reserved(Member {
            worker,
            part: Some(part),
            gave: None,
        });
    }
    parts.destroy_empty();
    members
}

/// Calls `work` with each of these, each on a thread of its own; with the last one on this thread.
fn do_each<R: Threads + Sync, M: Send, F: Fn(&mut M) + Sync>(rt: &R, work: &F, members: &mut Vec<M>)
    requires { All (Accepts F.Fn work.now) members.old.items }
    ensures each { AllZip (Changes F.Fn work.now) members.old.items members.new.items }
    ensures as_many { vec_len members.new ≡ vec_len members.old }
{
    let threads = members.len().max(1);
    let part = |_: usize, member: &mut M|
        requires { Accepts F.Fn work.now member.now }
        ensures { Changes F.Fn work.entry.now member.entry.now member.exit.now }
    { do_one(work, member) };
    for_each_mut(rt, members.as_mut_slice(), threads, &part);
}

fn do_one<M, F: Fn(&mut M)>(work: &F, member: &mut M)
    requires { Accepts F.Fn work.now member.old }
    ensures { Changes F.Fn work.now member.old member.new }
{
    work(member);
}

/// The same, while this thread calls `control`.
fn do_beside<R: Threads + Sync, M: Send, F: Fn(&mut M) + Sync, C, G: FnMut() -> C>(
    rt: &R,
    work: &F,
    control: &mut G,
    members: &mut Vec<M>,
) -> C
    requires members { All (Accepts F.Fn work.now) members.old.items }
    requires control { G.pre control.old }
    ensures members { AllZip (Changes F.Fn work.now) members.old.items members.new.items }
    ensures as_many { vec_len members.new ≡ vec_len members.old }
    ensures control { G.step control.old result control.new }
{
    let mut crew = ||
        requires { IsSync R.row × IsSync F.row × IsSend M.row × All (Accepts F.Fn work.now) members.now.items }
        ensures { AllZip (Changes F.Fn work.entry.now) members.entry.now.items members.exit.now.items × (vec_len members.exit.now ≡ vec_len members.entry.now) }
    { do_each(rt, work, members) };
    let (_, controlled) = join_mut(rt, &mut crew, control);
    controlled
}

/// Has the workers back, and what they gave.
fn dismiss<W, P, T>(
    mut members: Vec<Member<W, P, T>>,
    mut workers: Vec<W>,
    mut given: Vec<T>,
) -> (Vec<W>, Vec<T>)
    requires done { All HasWorked members.items }
    requires room { (vec_len workers ≡ 0) × (vec_len given ≡ 0) × (vec_len members ≤ vec_capacity workers) × (vec_len members ≤ vec_capacity given) }
    ensures { AreBack members.items result.0.items result.1.items }
{
    while let Some(member) = members.pop() {
        let Member { worker, part, gave } = member;
        let None = part else { unreachable!() };
        workers.push_reserved(worker);
        let Some(gave) = gave else { unreachable!() };
        given.push_reserved(gave);
    }
    members.destroy_empty();
    (workers, given)
}

/// Calls `work` with each worker and its part, at once, each on a thread of its own, and returns once all are done. The
/// workers come back, with what they gave, in order. Where there is no memory nothing was called, and all comes back.
pub fn at_once<R: Threads + Sync, W: Send, P: Send, T: Send, F: Fn(&mut W, P) -> T + Sync>(
    rt: &R,
    mut workers: Vec<W>,
    parts: Vec<P>,
    work: &F,
) -> Result<(Vec<W>, Vec<T>), Refused<W, P>>
    requires { AllZip (Takes F.Fn work.now) workers.items parts.items }
    ensures { MatchResult result
        (λ r. AreDone F.Fn work.now (mustered workers.items parts.items) r.0.items r.1.items)
        (λ back. back ≡ (workers, parts)) }
{
    let alloc = *workers.allocator();
    let Ok(members) = Vec::with_capacity(alloc, parts.len()) else {
        return Err((workers, parts));
    };
    let Ok(given) = Vec::with_capacity(alloc, parts.len()) else {
        members.destroy_empty();
        return Err((workers, parts));
    };
    let mut members = muster(&mut workers, parts, members);
    let part = |member: &mut Member<W, P, T>|
        requires { IsReady F.Fn work.now member.now }
        ensures { Does F.Fn work.entry.now member.entry.now member.exit.now }
    { member.work(work) };
    do_each(rt, &part, &mut members);
    Ok(dismiss(members, workers, given))
}

/// The same, while this thread calls `control`. Returns what that gave too.
pub fn at_once_beside<
    R: Threads + Sync,
    W: Send,
    P: Send,
    T: Send,
    F: Fn(&mut W, P) -> T + Sync,
    C,
    G: FnMut() -> C,
>(
    rt: &R,
    mut workers: Vec<W>,
    parts: Vec<P>,
    work: &F,
    control: &mut G,
) -> Result<((Vec<W>, Vec<T>), C), Refused<W, P>>
    requires takes { AllZip (Takes F.Fn work.now) workers.items parts.items }
    requires control { G.pre control.old }
    ensures { MatchResult result
        (λ r. AreDone F.Fn work.now (mustered workers.items parts.items) r.0.0.items r.0.1.items × G.step control.old r.1 control.new)
        (λ back. (back ≡ (workers, parts)) × (control.new ≡ control.old)) }
{
    let alloc = *workers.allocator();
    let Ok(members) = Vec::with_capacity(alloc, parts.len()) else {
        return Err((workers, parts));
    };
    let Ok(given) = Vec::with_capacity(alloc, parts.len()) else {
        members.destroy_empty();
        return Err((workers, parts));
    };
    let mut members = muster(&mut workers, parts, members);
    let part = |member: &mut Member<W, P, T>|
        requires { IsReady F.Fn work.now member.now }
        ensures { Does F.Fn work.entry.now member.entry.now member.exit.now }
    { member.work(work) };
    let controlled = do_beside(rt, &part, control, &mut members);
    Ok((dismiss(members, workers, given), controlled))
}
