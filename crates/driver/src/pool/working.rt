//! Work on a processor that is lent.
ghost use Rattle.std.specs.Prelude.{MatchResult};
ghost use Rattle.std.specs.Fn.{FnOnceTakesAtMut};
ghost use Rattle.driver.specs.Pools.{IsIdle, IsOut, NoneAtHome};
ghost use Rattle.driver.specs.Works.{LeavesIdle, RunsOnOne};

use super::{AtHome, Lent, Pool};
use domain::Cpu;
use std::sync::Wait;

impl<'a, J: Drop> Pool<'a, J> {
    /// Runs the work on a processor of the pool, and gives it back behind that, whichever way the work ends (`get_cpu`,
    /// `put_cpu`). So `?` may stand in it: what it answers, also an error, is handed on. It waits until a processor is
    /// there, as [`Pool::take`] does. The work finds no reading open on it, and leaves none.
    pub fn with<R: Wait, T, F: FnOnce(&mut Cpu<J>) -> T>(&self, rt: &R, work: F) -> T
        requires may { (c : _) → IsIdle self.now.domain c → FnOnceTakesAtMut F.FnOnce work c }
        requires leaves { LeavesIdle F.FnOnce work self.now.domain }
        ensures { RunsOnOne F.FnOnce work self.now.domain result }
    {
        let lent = self.take(rt);
        self.work_on(rt, lent, work)
    }

    /// The same where a processor is at home. Else all are out, the work is not run, and it tells at which moment.
    pub fn try_with<R: Wait, T, F: FnOnce(&mut Cpu<J>) -> T>(
        &self,
        rt: &R,
        work: F,
    ) -> Result<T, AtHome<J>>
        requires may { (c : _) → IsIdle self.now.domain c → FnOnceTakesAtMut F.FnOnce work c }
        requires leaves { LeavesIdle F.FnOnce work self.now.domain }
        ensures { MatchResult result (λ answer. RunsOnOne F.FnOnce work self.now.domain answer) (λ home. NoneAtHome self.now home) }
    {
        let lent = self.try_take(rt)?;
        Ok(self.work_on(rt, lent, work))
    }

    /// Runs the work on this processor, which was taken, and gives it back.
    fn work_on<R: Wait, T, F: FnOnce(&mut Cpu<J>) -> T>(
        &self,
        rt: &R,
        mut lent: Lent<J>,
        work: F,
    ) -> T
        requires lent { IsOut self.now lent.cpu lent.slip }
        requires may { FnOnceTakesAtMut F.FnOnce work lent.cpu }
        requires leaves { LeavesIdle F.FnOnce work self.now.domain }
        ensures { RunsOnOne F.FnOnce work self.now.domain result }
    {
        let answer = work(&mut lent.cpu);
        self.give(rt, lent);
        answer
    }
}
