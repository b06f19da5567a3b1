//! From the words of a line to what it asks for, or to its first fault.
ghost use Rattle.std.specs.Prelude.{◌≡◌, ◌<◌, ◌≤◌, true, length, min, Some, None, IfOk, MatchResult, All};
ghost use Rattle.requests.specs.Commands.{takes_members as takes_members_lem, fits_members as fits_members_lem, count_of_arguments as count_of_arguments_lem};
ghost use Rattle.requests.specs.Faults.{texts, fault_of, words_fault, members_fault, behind_fault, is_skipped as is_skipped_lem};
ghost use Rattle.requests.specs.Requests.{AllName, MembersName, BehindNames, WordsAsk, AskOnly, IsFor, IsMemberIn};
ghost use Rattle.requests.specs.Given.{AreOfARow, AllSuit, BehindSuits};

use crate::command::{Argument, Command};
use crate::fault::Fault;
use crate::given::Given;
use crate::members::{Member, Members};
use crate::request::Request;
use crate::scene::Scene;

/// Whether a line of these words is skipped: there is none, or the first begins with `#`.
pub fn is_skipped(words: &[&[u8]]) -> bool
    ensures { result ≡ is_skipped_lem (texts words.now) }
{
    match words {
        [] => true,
        [first, ..] => first.starts_with(b"#"),
    }
}

/// What the words of a line ask for, or the first fault. A request's domain is there, its processor is one of the
/// domain's, and its name is new, or has what the act wants.
pub fn parse<S: Scene>(words: &[&[u8]], scene: &S) -> Result<Request, Fault>
    requires { 0 < length words.now }
    ensures fault { MatchResult result
        (λ _. fault_of (S.scene scene.now) (texts words.now) ≡ None)
        (λ f. fault_of (S.scene scene.now) (texts words.now) ≡ Some f) }
    ensures asks { IfOk result (λ asked. WordsAsk (S.scene scene.now) (texts words.now) asked × IsFor (S.scene scene.now) asked) }
    ensures only { IfOk result (AskOnly (S.scene scene.now) (texts words.now)) }
{
    let command = Command::of_word(words[0]).ok_or(Fault::Command)?;
    let behind = &words[1..];
    if !fits_members(command, behind.len()) {
        return Err(Fault::Words);
    }
    let count = count_of_arguments(command, behind.len());
    let given = given_by(command.takes(), &behind[..count], scene)?;
    let given = with_behind(given, command, &behind[count..], scene)?;
    Ok(given.asked_by(command))
}

/// Whether so many words behind the command are its arguments and one to eight members, where it takes members.
fn fits_members(command: Command, count: usize) -> bool
    ensures { result ≡ fits_members_lem command count }
{
    !command.takes_members() || count % 2 == 1 && 2 < count && count < 18
}

/// How many of so many words behind the command are its arguments. Those behind them are pairs or members.
fn count_of_arguments(command: Command, count: usize) -> usize
    ensures { result ≡ min (count_of_arguments_lem command count) count }
{
    if command.takes_pairs() || command.takes_members() {
        command.takes().len().min(count)
    } else {
        count
    }
}

/// What words name that should be these arguments, or the first fault.
fn given_by<S: Scene>(takes: &[Argument], words: &[&[u8]], scene: &S) -> Result<Given, Fault>
    requires { AreOfARow takes.now }
    ensures { MatchResult result
        (λ given. (words_fault (S.scene scene.now) takes.now (texts words.now) ≡ None)
        × AllName (S.scene scene.now) given takes.now (texts words.now)
        × AllSuit (S.scene scene.now) given takes.now)
        (λ f. words_fault (S.scene scene.now) takes.now (texts words.now) ≡ Some f) }
{
    if words.len() != takes.len() {
        return Err(Fault::Words);
    }
    let mut given = Given::nothing();
    for (argument, word) in takes.iter().zip(words) {
        given = given.with(*argument, word, scene)?;
    }
    Ok(given)
}

/// What is given with what the words say that stand behind the command's arguments.
fn with_behind<S: Scene>(
    given: Given,
    command: Command,
    words: &[&[u8]],
    scene: &S,
) -> Result<Given, Fault>
    requires { takes_members_lem command ≡ true → length words.now ≤ 16 }
    ensures { MatchResult result
        (λ g. (behind_fault (S.scene scene.now) (takes_members_lem command) (texts words.now) ≡ None)
        × (g ≡ record given { answers = g.answers; members = g.members })
        × BehindNames (S.scene scene.now) (takes_members_lem command) g (texts words.now)
        × BehindSuits (S.scene scene.now) (takes_members_lem command) g)
        (λ f. behind_fault (S.scene scene.now) (takes_members_lem command) (texts words.now) ≡ Some f) }
{
    if command.takes_members() {
        let members = members_in(words, scene)?;
        Ok(Given { members, ..given })
    } else {
        given.with_pairs(words)
    }
}

/// What words name that should be members, or the first fault.
fn members_in<S: Scene>(words: &[&[u8]], scene: &S) -> Result<Members, Fault>
    requires { length words.now ≤ 16 }
    ensures { MatchResult result
        (λ members. (members_fault (S.scene scene.now) (texts words.now) ≡ None)
        × MembersName (S.scene scene.now) members (texts words.now)
        × All (IsMemberIn (S.scene scene.now)) members)
        (λ f. members_fault (S.scene scene.now) (texts words.now) ≡ Some f) }
{
    let mut members = Members::new();
    let mut left = words;
    while let [domain, processor, rest @ ..] = left {
        let takes = [Argument::ADomain, Argument::AProcessor];
        let given = given_by(&takes, &[*domain, *processor], scene)?;
        members.push(Member {
            domain: given.domain,
            processor: given.processor,
        });
        left = rest;
    }
    if left.is_empty() {
        Ok(members)
    } else {
        Err(Fault::Words)
    }
}
