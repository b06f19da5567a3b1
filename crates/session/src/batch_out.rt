//! The batches that are out.
ghost use Rattle.std.specs.Prelude.{◌≡◌, ◌≤◌, [], None, Some, length, replicate, IfOk};
ghost use Rattle.solo.specs.Batches.{jobs_of};

use calls::Batch;
use lines::Name;
use requests::JobNames;
use std::alloc::{AllocError, Allocator};
use std::marker::Model;

/// The batch of a processor that is out, if one is: all jobs were taken from it. It must be spent, so spend this by
/// [`Out::into_batch`].
pub struct Out<A: Allocator> {
    batch: Option<Batch<Name, A>>,
}

impl<A: Allocator> Model for Out<A> {
    ghost use Rattle.std.specs.Prelude.{Option};
    ghost use Rattle.session.specs.Batches.{Batch};

    ghost Value = { Option Batch };

    ghost use Rattle.session.specs.Insides.{view_of_out};

    ghost view = { view_of_out };
}

/// For each of so many processors: none of its batches is out.
pub fn none_out<A: Allocator + Copy>(
    alloc: A,
    processors: u64,
) -> Result<Vec<Out<A>, A>, AllocError>
    ensures { IfOk result (λ v. v.items ≡ replicate processors None) }
{
    let mut all = Vec::new(alloc);
    if all.reserve(processors as usize).is_err() {
        all.destroy_empty();
        return Err(AllocError);
    }
    for _processor in 0..processors {
        all.push_reserved(Out::new());
    }
    Ok(all)
}

impl<A: Allocator> Out<A> {
    /// None is out.
    fn new() -> Out<A>
        ensures { result ≡ None }
    {
        Out { batch: None }
    }

    /// The batch is out. None was.
    pub fn put(&mut self, batch: Batch<Name, A>)
        requires { self.old ≡ None }
        ensures { self.new ≡ Some batch }
    {
        let was = self.batch.replace(batch);
        let None = was else { unreachable!() };
    }

    /// The batch that is out comes back. `None` where none is out.
    pub fn take(&mut self) -> Option<Batch<Name, A>>
        ensures out { result ≡ self.old }
        ensures none { self.new ≡ None }
    {
        self.batch.take()
    }

    /// The batch that is out comes back.
    pub fn into_batch(self) -> Option<Batch<Name, A>>
        ensures { result ≡ self }
    {
        let Out { batch } = self;
        batch
    }
}

/// Takes all jobs out of a batch. Their names come in their order.
pub fn drain<'a, A: Allocator>(batch: &mut Batch<Name, &'a A>) -> JobNames
    requires { length batch.old.entries ≤ 8 }
    ensures names { result ≡ jobs_of batch.old.entries }
    ensures batch { batch.new ≡ record batch.old { entries = [] } }
{
    let mut names = JobNames::new();
    while let Some(name) = batch.next() {
        names.push(name);
    }
    names
}
