//! Held sections that go from worker to worker over a mailbox.
ghost use Rattle.std.specs.Prelude.{◌≡◌};

use srcu::{Domain, Held, Index, Mailbox, Refusal, Team, WIDEST, Worker, make};
use std::sync::Wait;
use std::test::Fail;
use std::thread::Threads;

/// How many sections are handed on.
const SECTIONS: usize = 100;

type Post = Mailbox<Held, Domain<u64>>;

/// Begins sections, and leaves each in the mailbox. Returns how many.
fn begin_all<R: Wait>(rt: &R, worker: &mut Worker<'_, u64>, post: &Post) -> usize
    requires { post.now.key ≡ worker.old.domain }
    ensures { worker.new.domain ≡ worker.old.domain }
{
    let mut begun = 0;
    for section in 0..SECTIONS {
        let Ok(held) = worker.down_read() else {
            break;
        };
        post.post_waiting(rt, held);
        begun = section + 1;
    }
    begun
}

/// Takes as many sections from the mailbox, and ends each. Returns how many.
fn end_all<R: Wait>(rt: &R, worker: &mut Worker<'_, u64>, post: &Post) -> usize
    requires { post.now.key ≡ worker.old.domain }
    ensures { worker.new.domain ≡ worker.old.domain }
{
    let mut ended = 0;
    for section in 0..SECTIONS {
        worker.up_read(post.take_waiting(rt));
        ended = section + 1;
    }
    ended
}

/// Worker 0 of the crew begins sections, and worker 1 ends them. Returns how many each.
fn hand_on<R: Wait + Threads + Sync>(
    rt: &R,
    team: &mut Team<'_, u64>,
    post: &Post,
) -> Result<Vec<usize>, Refusal>
    requires { post.now.key ≡ team.old.domain }
    ensures { team.new ≡ team.old }
{
    team.run(rt, 2, |worker: &mut Worker<'_, u64>, number: usize| {
        if number == 0 {
            begin_all(rt, worker, post)
        } else {
            end_all(rt, worker, post)
        }
    })
}

/// Would catch a section that is lost on the way or ends twice.
#[test]
fn sections_go_over_a_mailbox(rt: HostRuntime) -> Result<(), Fail> {
    let Ok((domain, cpus, writers)) = make(rt.alloc(), 3, WIDEST) else {
        panic!(rt; "no domain")
    };
    let mut team = Team::new(&domain, cpus, writers);
    let Some(mut worker) = team.worker() else {
        panic!(rt; "no worker")
    };
    let post = Post::new(rt.alloc(), &domain)?;
    let counts = hand_on(&rt, &mut team, &post);
    let mut left = 0;
    if let Some(held) = post.close(&rt) {
        worker.up_read(held);
        left = 1;
    }
    let open = worker.snapshot(rt.alloc())?;
    assert_eq!(rt; left, 0);
    match counts {
        Ok(counts) => assert_eq!(rt; counts.as_slice(), [SECTIONS, SECTIONS].as_slice()),
        Err(refusal) => panic!(rt; "{refusal}"),
    }
    for index in [Index::Zero, Index::One] {
        let counters = open.of(index);
        assert_eq!(rt; counters.begun, counters.ended);
    }
    Ok(())
}
