//! How the program ends: what it says then, and its status.
ghost use Rattle.std.specs.Prelude.{◌≡◌};
ghost use Rattle.std.specs.Process.{exit_status};
ghost use Rattle.srcuctl.specs.Statuses.{status_of};

use crate::showing::Unshown;
use clap::Error;
use clap::error::ErrorKind;
use lines::{Outcome, RunError};
use std::io;
use std::process::{ExitCode, Termination};

/// The status where all went well: no line of the script was faulty, or there was a race, or the help or the version
/// was asked for.
const ALL_WELL: u8 = 0;
/// The status of a run in which one or more lines were faulty.
const FAULTY: u8 = 1;
/// The status of a run or a race that ended early, and of a command line that is wrong or can't be read.
const STOPPED: u8 = 2;

/// How the program ends. It is what `main` returns, so there is no status but that of an ending.
#[derive(Drop)]
pub enum Ending {
    /// The whole script was run.
    Ran(Outcome),
    /// There was a race, and its lines are written.
    Raced,
    /// The run or the race ended early.
    Stopped(RunError),
    /// The run isn't shown, or not all of it.
    Unshown(Unshown),
    /// Nothing was run: the help or the version was asked for, or the command line is wrong, or there was no memory to
    /// read it.
    Answered(Error),
    /// The words of the command line can't be read.
    Unread(io::Error),
}

impl Ending {
    /// The status of this ending.
    fn status(&self) -> u8
        ensures { result ≡ status_of self.now }
    {
        match self {
            Ending::Ran(outcome) if outcome.faulty => FAULTY,
            Ending::Ran(_) | Ending::Raced => ALL_WELL,
            Ending::Answered(error) => match error.kind() {
                ErrorKind::DisplayHelp | ErrorKind::DisplayVersion => ALL_WELL,
                _ => STOPPED,
            },
            Ending::Stopped(_) | Ending::Unshown(_) | Ending::Unread(_) => STOPPED,
        }
    }

    /// Writes what a user has to know of this ending: the text that was asked for to standard output, and what went wrong
    /// to standard error.
    pub fn tell(&self, rt: &(impl Print + Eprint)) {
        // Where it can't be written, the status is all that is left to tell.
        let _ = match self {
            // Who has left reads no complaint.
            Ending::Ran(_) | Ending::Raced | Ending::Unshown(Unshown::Left) => Ok(()),
            Ending::Stopped(error) => eprintln!(rt; "srcuctl: {error}"),
            Ending::Unshown(why) => eprintln!(rt; "srcuctl: {why}"),
            Ending::Answered(error) => match error.kind() {
                // `clap` begins this text with another word.
                ErrorKind::OutOfMemory => eprintln!(rt; "srcuctl: {}", RunError::Memory),
                _ => error.print(rt),
            },
            Ending::Unread(error) => eprintln!(rt; "srcuctl: {error}"),
        };
    }
}

impl Termination for Ending {
    fn report<R: Eprint>(self, _rt: &R) -> ExitCode
        ensures { exit_status result ≡ status_of self }
    {
        ExitCode::from(self.status())
    }
}
