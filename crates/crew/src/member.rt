//! One worker of a crew.
ghost use Rattle.crew.specs.Parts.{IsReady, Does};

use std::mem::replace;

/// A worker, with what it is given and what it then gives.
pub struct Member<W, P, T> {
    pub worker: W,
    pub part: Option<P>,
    pub gave: Option<T>,
}

impl<W, P, T> Member<W, P, T> {
    /// It does its part.
    pub fn work<F: Fn(&mut W, P) -> T>(&mut self, work: &F)
        requires { IsReady F.Fn work.now self.old }
        ensures { Does F.Fn work.now self.old self.new }
    {
        let part = self.part.take().unwrap();
        let gave = work(&mut self.worker, part);
        let before = replace(&mut self.gave, Some(gave));
        let None = before else { unreachable!() };
    }
}
