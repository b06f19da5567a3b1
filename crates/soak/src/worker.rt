//! The threads that open, hold, hand over and close sections, use devices, ask, wait, queue jobs and start barriers.
//!
//! Why none of them waits for ever, where each has a thread of its own. A thread waits for sections and jobs in
//! `synchronize`, `barrier` and `remove_and_wait` alone. (For the engine or for a list it waits while another thread has it, which is for
//! one call that waits for neither.) It has no reading open there. The held section that it left in the mailbox is not
//! there any more: after each `post` it makes a `take`, before it waits. So what lies in the mailbox at some moment was
//! left there by a thread that is between the two. That one doesn't wait before its own `take`, which finds the section,
//! unless another thread has taken it, or takes it just then. Hence each section is closed by a thread that doesn't wait.
//! So each grace period ends, and whoever waits for one drives it. A barrier waits for jobs besides, which the driver
//! runs; the driver waits for no section and no job, and goes on until no worker is left. It would end early where no
//! more grace periods may start, which no run comes to.
ghost use Rattle.std.specs.Prelude.{◌≡◌, ◌<◌, ◌==◌, ◌⊎◌, IfOk, not};
ghost use Rattle.sections.specs.Words.{cells_in};
ghost use Rattle.sections.specs.Calls.{IsSameCpu};
ghost use Rattle.domain.specs.Barriers.{IsTicketOf};
ghost use Rattle.domain.specs.Views.{Stays};
ghost use Rattle.soak.specs.Workers.{IsAtWork};
ghost use Rattle.soak.specs.Counts.{more_if};
ghost use Rattle.soak.specs.Checks.{judged, Checks, IsRefused, WaitsAndChecks};

use crate::boxing::read_table;
use crate::counts::{Counts, count};
use crate::devices::{Device, use_device};
use crate::signs::Signs;
use crate::tables::Table;
use boxes::Boxes;
use domain::{Cookie, Cpu, Domain, Held, Memory, Reading, Ticket};
use mailbox::Mailbox;
use registry::Users;
use std::sync::Wait;
use std::thread::{sleep, yield_now};
use std::time::{Clock, Duration};

/// A job tells where it was queued.
#[derive(Drop)]
pub struct Job {
    pub processor: u16,
    /// Its number among the jobs of its processor, from 0.
    pub number: u64,
}

/// How long the workers go on.
#[derive(Clone, Copy, Debug, PartialEq, Eq)]
pub enum Length {
    /// So many rounds each.
    Rounds(u64),
    /// Until so many seconds are over.
    Seconds(u64),
}

impl Length {
    /// How many rounds a worker makes at most.
    fn rounds(self) -> u64 {
        match self {
            Length::Rounds(rounds) => rounds,
            Length::Seconds(_) => u64::MAX,
        }
    }
}

/// In so many rounds a worker waits once for a grace period, and once for its jobs: so there are never more than these
/// jobs of it, however long it goes on.
const ROUNDS_TO_A_WAIT: u64 = 16;

/// How often a worker looks for the others in the beginning, a millisecond apart, before it gives up.
const LOOKS: u32 = 10_000;

/// What one thread has.
#[derive(Drop)]
pub struct Worker {
    pub cpu: Cpu<Job>,
    pub boxes: Boxes<Table>,
    pub users: Users<u64, Box<Device>>,
    /// The number of the last table that it found.
    pub last: u64,
    pub counts: Counts,
}

/// A version as a section found it: its number, its first and its last word, and how old it was then.
#[derive(Clone, Copy)]
struct FoundVersion {
    version: u64,
    first: u64,
    last: u64,
    age: u64,
}

/// Finds the version that is there, and reads it. Its age is loaded last, while the section is still open.
fn look_at(cpu: &mut Cpu<Job>, reading: &mut Reading, signs: &Signs) -> FoundVersion
    requires here { reading.old.domain ≡ cpu.old.cpu.domain }
    requires cell { 0 < cells_in cpu.old.cpu.domain }
    ensures stays { Stays cpu.old cpu.new }
    ensures same { IsSameCpu cpu.old.cpu cpu.new.cpu }
    ensures reading { reading.new ≡ reading.old }
{
    let mut pin = cpu.find(reading, 0);
    let version = pin.version();
    let first = cpu.word(&mut pin, 0);
    yield_now(); // a reader may sleep
    let last = cpu.word(&mut pin, 15);
    FoundVersion {
        version,
        first,
        last,
        age: signs.age_of(version),
    }
}

/// Counts a version that was too old, and one of several pieces.
fn judge(counts: &mut Counts, sight: FoundVersion)
    ensures { counts.new ≡ judged sight counts.old }
{
    if sight.age > 1 {
        count(&mut counts.stale);
    }
    if sight.first != sight.version || sight.last != sight.version {
        count(&mut counts.torn);
    }
}

/// Opens a section, reads the version that is there, and closes it. A version that was replaced may be read until its
/// next grace period has ended, and that can't end as long as the section is open.
pub fn read(domain: &Domain<Job>, signs: &Signs, worker: &mut Worker)
    requires { IsAtWork domain.now worker.old }
    ensures { IsAtWork domain.now worker.new }
{
    let Ok(mut reading) = worker.cpu.read_lock() else {
        count(&mut worker.counts.refused);
        return;
    };
    count(&mut worker.counts.opened);
    let sight = look_at(&mut worker.cpu, &mut reading, signs);
    worker.cpu.read_unlock(reading);
    count(&mut worker.counts.closed);
    judge(&mut worker.counts, sight);
}

/// Where workers leave a held section for one another.
pub type Post = Mailbox<Held, Domain<Job>>;

/// Closes a held section.
fn close(domain: &Domain<Job>, worker: &mut Worker, held: Held)
    requires worker { IsAtWork domain.now worker.old }
    requires held { held.domain ≡ domain.now.domain }
    ensures { IsAtWork domain.now worker.new }
{
    if held.processor() != worker.cpu.processor() {
        count(&mut worker.counts.handed);
    }
    worker.cpu.up_read(held);
    count(&mut worker.counts.closed);
}

/// Closes what lies in the mailbox: the thread's own section, or one that came in its place.
fn take_back(domain: &Domain<Job>, post: &Post, worker: &mut Worker)
    requires { IsAtWork domain.now worker.old × (post.now.key ≡ domain.now) }
    ensures { IsAtWork domain.now worker.new }
{
    if let Some(held) = post.take() {
        close(domain, worker, held);
    }
}

/// Opens a section for whoever comes to the mailbox next, and closes what lay there.
pub fn hand_on(domain: &Domain<Job>, post: &Post, worker: &mut Worker)
    requires { IsAtWork domain.now worker.old × (post.now.key ≡ domain.now) }
    ensures { IsAtWork domain.now worker.new }
{
    take_back(domain, post, worker);
    let Ok(held) = worker.cpu.down_read() else {
        count(&mut worker.counts.refused);
        return;
    };
    count(&mut worker.counts.opened);
    if let Err(held) = post.post(held) {
        close(domain, worker, held);
    }
}

/// Queues a job, and counts it. Gives the job back if it is refused.
fn call<R: Wait>(rt: &R, domain: &Domain<Job>, worker: &mut Worker, job: Job) -> Option<Job>
    requires { IsAtWork domain.now worker.old }
    ensures { IsAtWork domain.now worker.new }
{
    match domain.call(rt, &mut worker.cpu, job) {
        Ok(_receipt) => {
            count(&mut worker.counts.queued);
            None
        }
        Err((job, _)) => Some(job),
    }
}

/// Queues a job. If memory is refused, the job has come back, and is queued again.
pub fn queue<R: Wait>(rt: &R, domain: &Domain<Job>, worker: &mut Worker)
    requires { IsAtWork domain.now worker.old }
    ensures { IsAtWork domain.now worker.new }
{
    let job = Job {
        processor: worker.cpu.processor(),
        number: worker.counts.queued,
    };
    let Some(job) = call(rt, domain, worker, job) else {
        return;
    };
    count(&mut worker.counts.again);
    if call(rt, domain, worker, job).is_some() {
        count(&mut worker.counts.refused);
    }
}

/// Asks for a grace period, and polls once.
fn poll(domain: &Domain<Job>, worker: &mut Worker)
    requires { IsAtWork domain.now worker.old }
    ensures { IsAtWork domain.now worker.new }
{
    let mut cookie = domain.start_poll(&mut worker.cpu);
    let _done = worker.cpu.poll(&mut cookie);
    count(&mut worker.counts.polled);
}

/// Polls a cookie that must be done, and counts a wait that was too short where it isn't.
pub fn check_done(domain: &Domain<Job>, worker: &mut Worker, cookie: &mut Cookie)
    requires worker { IsAtWork domain.now worker.old }
    requires cookie { cookie.old.domain ≡ domain.now.domain }
    ensures stays { IsAtWork domain.now worker.new }
    ensures checks { Checks cookie.old worker.old worker.new }
{
    if !worker.cpu.poll(cookie) {
        count(&mut worker.counts.early);
    }
}

/// Waits for a grace period. A cookie of before must be done then.
pub fn wait_for_period<R: Wait>(rt: &R, domain: &Domain<Job>, worker: &mut Worker)
    requires { IsAtWork domain.now worker.old }
    ensures stays { IsAtWork domain.now worker.new }
    ensures waits { IsRefused worker.old.counts worker.new.counts ⊎ WaitsAndChecks worker.old worker.new }
{
    let mut cookie = worker.cpu.cookie();
    // It would wait for itself.
    if worker.cpu.open_here() > 0 {
        count(&mut worker.counts.refused);
        return;
    }
    let Ok(()) = domain.synchronize(rt, &mut worker.cpu) else {
        count(&mut worker.counts.refused);
        return;
    };
    count(&mut worker.counts.waited);
    check_done(domain, worker, &mut cookie);
}

/// Counts a wait that was too short where not all jobs were run that a worker has queued.
fn check_run(counts: &mut Counts, run: u64)
    ensures { counts.new ≡ record counts.old { early = more_if (not (run == counts.old.queued)) counts.old.early } }
{
    if run != counts.queued {
        count(&mut counts.early);
    }
}

/// Starts a barrier. If memory is refused, it tries once more.
fn start_barrier(domain: &Domain<Job>, worker: &mut Worker) -> Result<Ticket<Job>, Memory>
    requires { IsAtWork domain.now worker.old }
    ensures stays { IsAtWork domain.now worker.new }
    ensures ticket { IfOk result (λ ticket. IsTicketOf domain.now ticket) }
{
    if let Ok(ticket) = domain.barrier_start(&mut worker.cpu) {
        return Ok(ticket);
    }
    count(&mut worker.counts.again);
    domain.barrier_start(&mut worker.cpu)
}

/// Waits until all jobs are run that this thread queued.
pub fn wait_for_jobs<R: Wait>(rt: &R, domain: &Domain<Job>, signs: &Signs, worker: &mut Worker)
    requires { IsAtWork domain.now worker.old }
    ensures { IsAtWork domain.now worker.new }
{
    let Ok(ticket) = start_barrier(domain, worker) else {
        count(&mut worker.counts.refused);
        return;
    };
    // It would wait for itself.
    if worker.cpu.open_here() > 0 {
        count(&mut worker.counts.refused);
        return;
    }
    domain.barrier(rt, &mut worker.cpu, &ticket);
    count(&mut worker.counts.barriers);
    let run = signs.run_of(worker.cpu.processor());
    check_run(&mut worker.counts, run);
}

/// Waits until all workers have come, so that they are at it at once, and counts that. It looks so many times. Where one
/// has looked in vain, none waits any more.
pub fn meet<R: Clock>(rt: &R, signs: &Signs, looks: u32, counts: &mut Counts) {
    signs.come();
    for _ in 0..looks {
        if signs.are_all_here() {
            count(&mut counts.met);
            return;
        }
        if signs.is_alone() {
            return;
        }
        sleep(rt, Duration::from_millis(1));
    }
    signs.set_alone();
}

/// All that a thread does, once. It waits in some rounds alone, and at their end.
fn make_round<R: Wait>(
    rt: &R,
    domain: &Domain<Job>,
    post: &Post,
    signs: &Signs,
    worker: &mut Worker,
    round: u64,
)
    requires { IsAtWork domain.now worker.old × (post.now.key ≡ domain.now) }
    ensures { IsAtWork domain.now worker.new }
{
    read(domain, signs, worker);
    read_table(domain, worker);
    use_device(domain, worker, round);
    hand_on(domain, post, worker);
    queue(rt, domain, worker);
    poll(domain, worker);
    take_back(domain, post, worker);
    match round % ROUNDS_TO_A_WAIT {
        7 => wait_for_period(rt, domain, worker),
        15 => wait_for_jobs(rt, domain, signs, worker),
        _ => {}
    }
}

/// Makes rounds until that is enough, once all workers have come, and waits for the last jobs.
pub fn work<R: Wait + Clock>(
    rt: &R,
    domain: &Domain<Job>,
    post: &Post,
    signs: &Signs,
    length: Length,
    worker: &mut Worker,
)
    requires { IsAtWork domain.now worker.old × (post.now.key ≡ domain.now) }
    ensures { IsAtWork domain.now worker.new }
{
    meet(rt, signs, LOOKS, &mut worker.counts);
    for round in 0..length.rounds() {
        if signs.is_ending() {
            break;
        }
        make_round(rt, domain, post, signs, worker, round);
    }
    wait_for_jobs(rt, domain, signs, worker);
}
