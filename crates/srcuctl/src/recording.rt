//! A run of which an account is kept.
ghost use Rattle.std.specs.Prelude.{◌≡◌, ◌++◌, [], length, true, IfOk, MatchResult};
ghost use Rattle.std.specs.Option.{option_copied};
ghost use Rattle.notify.specs.Calling.{GivesAt};
ghost use Rattle.requests.specs.Replies.{reply_text};
ghost use Rattle.session.specs.Scripts.{LineGives};
ghost use Rattle.sections.specs.Limits.{AreInRange};
ghost use Rattle.srcuctl.specs.Handlers.{Gives};
ghost use Rattle.srcuctl.specs.Programs.{Runs};

use crate::handler::{HANDLERS, ToldHandler};
use account::Account;
use lines::{Answers, Outcome, RunError, run_lines, words};
use notify::Handler;
use requests::{Fault, Reply, is_skipped, parse, push_reply};
use sections::Limits;
use session::Session;
use std::alloc::{AllocError, Allocator, Global};
use std::sync::Wait;

/// A session with the handlers that are lent to it, and an account of what its lines meant.
struct Recorder<'h, 'r, 'a, R: Wait> {
    alloc: Global,
    session: Session<'r, &'a Global, R>,
    handlers: &'h [Box<dyn Handler>; 16],
    account: Account,
}

/// The reply to a line of these words, which is also told.
fn push_faulty<A: Allocator>(
    account: &mut Account,
    line: u64,
    words: &[&[u8]],
    fault: Fault,
    reply: &mut Vec<u8, A>,
) -> Result<bool, AllocError>
    ensures { IfOk result (λ b. (b ≡ true) × (reply.new.items ≡ reply.old.items ++ reply_text (Reply.Faulty line fault))) }
{
    let given = Reply::Faulty { line, fault };
    push_reply(reply, &given)?;
    account.tell(line, words, &given)?;
    Ok(true)
}

impl<'a, R: Wait> Recorder<'_, '_, 'a, R> {
    /// Runs one line, as the session does, and notes what it meant.
    fn answer_line(
        &mut self,
        number: u64,
        line: Option<&[u8]>,
        reply: &mut Vec<u8, &'a Global>,
    ) -> Result<bool, AllocError>
        requires { reply.old.items ≡ [] }
        ensures limits { self.new.session.limits ≡ self.old.session.limits }
        ensures handlers { self.new.handlers ≡ self.old.handlers }
        ensures gives { IfOk result (λ faulty. LineGives (λ value id x. GivesAt (λ h y. answers h 1 value y) self.old.handlers.now id x) self.old.session.limits self.old.session.state number (option_copied line.entry) reply.new.items faulty self.new.session.state) }
    {
        let Some(line) = line else {
            return push_faulty(&mut self.account, number, &[], Fault::Text, reply);
        };
        let words = words(self.alloc, line)?;
        if is_skipped(&words) {
            self.account.skip(number)?;
            return Ok(false);
        }
        match parse(&words, &self.session) {
            Ok(request) => {
                let handlers = self.handlers;
                let given = self.session.respond(handlers, request)?;
                push_reply(reply, &given)?;
                self.account.tell(number, &words, &given)?;
                Ok(false)
            }
            Err(fault) => push_faulty(&mut self.account, number, &words, fault, reply),
        }
    }
}

impl<'a, R: Wait> Answers<&'a Global> for Recorder<'_, '_, 'a, R> {
    ghost use Rattle.std.specs.Prelude.{◌≡◌};
    ghost use Rattle.notify.specs.Calling.{GivesAt};
    ghost use Rattle.session.specs.Scripts.{LineGives};

    ghost gives = { λ s number line reply faulty s'. LineGives (λ value id x. GivesAt (λ h y. (Handler-box h).answers h.value 1 value y) s.handlers.now id x) s.session.limits s.session.state number line reply faulty s'.session.state × (s'.session.limits ≡ s.session.limits) × (s'.handlers ≡ s.handlers) };

    fn answer(
        &mut self,
        number: u64,
        line: Option<&[u8]>,
        reply: &mut Vec<u8, &'a Global>,
    ) -> Result<bool, AllocError> {
        self.answer_line(number, line, reply)
    }
}

/// A run that is over.
#[derive(Drop)]
pub struct Recorded {
    pub account: Account,
    /// What `run` writes for the script.
    pub replies: Vec<u8>,
    pub outcome: Outcome,
}

/// Runs a script, and keeps an account of what its lines meant. The replies are those that `run` writes.
pub fn record(
    alloc: Global,
    rt: &impl Wait,
    script: &[u8],
    limits: Limits,
    handlers: &[Box<dyn Handler>],
) -> Result<Recorded, RunError>
    requires limits { AreInRange limits }
    requires cells { limits.cells ≡ 2 }
    requires handlers { length handlers.now ≡ 16 }
    ensures { MatchResult result
        (λ r. Runs (λ value id x. GivesAt (λ h y. answers h 1 value y) handlers.now id x) limits script.now r.replies.items r.outcome.faulty)
        (λ error. error ≡ RunError.Memory) }
{
    let Some(handlers) = handlers.as_array::<16>() else {
        unreachable!();
    };
    let mut recorder = Recorder {
        alloc,
        session: Session::new(&alloc, rt, limits),
        handlers,
        account: Account::new(alloc),
    };
    let mut left = script;
    let mut replies = Vec::new(alloc);
    let outcome = run_lines(&alloc, rt, &mut recorder, &mut left, &mut replies);
    let Recorder {
        alloc: _,
        session,
        handlers: _,
        account,
    } = recorder;
    session.finish();
    match outcome {
        Ok(outcome) => Ok(Recorded {
            account,
            replies,
            outcome,
        }),
        // The reader and the writer are memory, so nothing but that can be wanting.
        Err(_) => Err(RunError::Memory),
    }
}

/// Runs a script, as [`record`] does, with sixteen handlers that answer what its lines tell them.
pub fn record_told(
    rt: &(impl Wait + AllocGlobal),
    script: &[u8],
    limits: Limits,
) -> Result<Recorded, RunError>
    requires limits { AreInRange limits }
    requires cells { limits.cells ≡ 2 }
    ensures { MatchResult result (λ r. Runs Gives limits script.now r.replies.items r.outcome.faulty) (λ error. error ≡ RunError.Memory) }
{
    let mut handlers: Vec<Box<dyn Handler>> = Vec::new(rt.alloc());
    for id in 0..HANDLERS {
        let handler = Box::new(rt.alloc(), ToldHandler::new(id)).map_err(|_| RunError::Memory)?;
        if handlers.push(handler).is_err() {
            return Err(RunError::Memory);
        }
    }
    record(rt.alloc(), rt, script, limits, &handlers)
}
