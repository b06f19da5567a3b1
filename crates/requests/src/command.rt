//! The table of commands.
ghost use Rattle.std.specs.Prelude.{◌≡◌, Some};
ghost use Rattle.lines.specs.Lines.{words_of};
ghost use Rattle.requests.specs.Commands.{IsForm, arguments, command_of, command_word, takes_pairs as takes_pairs_lem, takes_members as takes_members_lem};

use std::fmt;

/// A command of a script, which is the first word of a line. What its lines do stands in its row.
#[derive(Clone, Copy, Debug, PartialEq, Eq)]
pub enum Command {
    Domain,
    State,
    Look,
    Enter,
    Lock,
    Unlock,
    Down,
    Up,
    Park,
    Unpark,
    Get,
    Ask,
    Poll,
    Start,
    Advance,
    Step,
    Call,
    Run,
    Batch,
    Finish,
    Segs,
    Barrier,
    BarrierPoll,
    Register,
    Unregister,
    Chain,
    Notify,
    Install,
    Remove,
    Lookup,
    Lease,
    Read,
    Release,
    Set,
    SetPoll,
    Cleanup,
}

/// What a word of a line should be.
#[derive(Clone, Copy, Debug, PartialEq, Eq)]
pub enum Argument {
    /// A name that no domain has.
    NewDomain,
    /// Any number.
    AnyNumber,
    /// The name of a domain. The arguments behind it are of that domain.
    ADomain,
    /// The number of a processor.
    AProcessor,
    /// A name that is not in use in the domain.
    NewName,
    /// The name of a look.
    ALook,
    /// The name of a section that only its own processor may end.
    AReading,
    /// The name of a section that any processor may end, and that is not parked.
    AHeld,
    /// The name of a ticket.
    ATicket,
    /// The name of a job. Any name will do, also one that is in use.
    AJob,
    /// The name of a lease.
    ALease,
    /// The id of a handler, 0 to 15.
    AnId,
    /// A number of 32 bits with a sign.
    APriority,
    /// A number below 2^32.
    AKey,
    /// A number below 2^32.
    APlug,
    /// A name that no set has.
    NewSet,
    /// The name of a set.
    ASet,
}

/// A row of the table of commands.
#[derive(Clone, Copy, Debug)]
pub struct Row {
    /// The first word of the command's lines.
    pub word: &'static str,
    /// What the words behind it should be. Behind these stand pairs or members, where the command takes any.
    pub takes: &'static [Argument],
    /// A line of the command, as the help shows it.
    pub form: &'static str,
    /// What such a line does, for the help.
    pub does: &'static str,
}

/// The rows of the table, in the order in which the commands are declared.
static ROWS: [Row; 36] = [
    Row {
        word: "domain",
        takes: &[Argument::NewDomain, Argument::AnyNumber],
        form: "domain NAME N",
        does: "makes a domain of N processors (1 to 256)",
    },
    Row {
        word: "state",
        takes: &[Argument::ADomain],
        form: "state NAME",
        does: "shows where the domain stands",
    },
    Row {
        word: "look",
        takes: &[Argument::ADomain, Argument::AProcessor, Argument::NewName],
        form: "look NAME P R",
        does: "reads the current index on processor P, a look called R",
    },
    Row {
        word: "enter",
        takes: &[Argument::ADomain, Argument::AProcessor, Argument::ALook],
        form: "enter NAME P R",
        does: "begins a section of that index on processor P, called R",
    },
    Row {
        word: "lock",
        takes: &[Argument::ADomain, Argument::AProcessor, Argument::NewName],
        form: "lock NAME P S",
        does: "a look and a section at once; the section is called S",
    },
    Row {
        word: "unlock",
        takes: &[Argument::ADomain, Argument::AReading],
        form: "unlock NAME S",
        does: "ends a section of `lock` or `enter` where it began",
    },
    Row {
        word: "down",
        takes: &[Argument::ADomain, Argument::AProcessor, Argument::NewName],
        form: "down NAME P S",
        does: "begins a section on processor P that any may end",
    },
    Row {
        word: "up",
        takes: &[Argument::ADomain, Argument::AProcessor, Argument::AHeld],
        form: "up NAME P S",
        does: "ends a section of `down` on processor P",
    },
    Row {
        word: "park",
        takes: &[Argument::ADomain, Argument::AHeld],
        form: "park NAME S",
        does: "puts a section of `down` on the domain's desk",
    },
    Row {
        word: "unpark",
        takes: &[Argument::ADomain],
        form: "unpark NAME",
        does: "takes what lies on the domain's desk",
    },
    Row {
        word: "get",
        takes: &[Argument::ADomain, Argument::AProcessor],
        form: "get NAME P",
        does: "gives a cookie",
    },
    Row {
        word: "ask",
        takes: &[Argument::ADomain, Argument::AProcessor],
        form: "ask NAME P",
        does: "gives a cookie, and asks for its grace period",
    },
    Row {
        word: "poll",
        takes: &[Argument::ADomain, Argument::AProcessor, Argument::AnyNumber],
        form: "poll NAME P C",
        does: "tells whether a grace period has gone by since cookie C",
    },
    Row {
        word: "start",
        takes: &[Argument::ADomain, Argument::AProcessor],
        form: "start NAME P",
        does: "starts a grace period",
    },
    Row {
        word: "advance",
        takes: &[Argument::ADomain, Argument::AProcessor],
        form: "advance NAME P",
        does: "lets the engine work until it has an answer",
    },
    Row {
        word: "step",
        takes: &[Argument::ADomain, Argument::AProcessor],
        form: "step NAME P",
        does: "lets the engine make one step",
    },
    Row {
        word: "call",
        takes: &[Argument::ADomain, Argument::AProcessor, Argument::AJob],
        form: "call NAME P J",
        does: "queues job J on processor P, to run after a grace period",
    },
    Row {
        word: "run",
        takes: &[Argument::ADomain, Argument::AProcessor],
        form: "run NAME P",
        does: "runs the first ready jobs of processor P, up to 8",
    },
    Row {
        word: "batch",
        takes: &[Argument::ADomain, Argument::AProcessor],
        form: "batch NAME P",
        does: "takes those jobs out as a batch, and runs none yet",
    },
    Row {
        word: "finish",
        takes: &[Argument::ADomain, Argument::AProcessor],
        form: "finish NAME P",
        does: "runs the jobs of processor P's batch, and ends it",
    },
    Row {
        word: "segs",
        takes: &[Argument::ADomain, Argument::AProcessor],
        form: "segs NAME P",
        does: "shows how many jobs of processor P wait, and for what",
    },
    Row {
        word: "barrier",
        takes: &[Argument::ADomain, Argument::AProcessor, Argument::NewName],
        form: "barrier NAME P B",
        does: "gives a ticket B for the jobs that are queued by now",
    },
    Row {
        word: "barrier-poll",
        takes: &[Argument::ADomain, Argument::AProcessor, Argument::ATicket],
        form: "barrier-poll NAME P B",
        does: "tells whether all jobs of ticket B have run",
    },
    Row {
        word: "register",
        takes: &[
            Argument::ADomain,
            Argument::AProcessor,
            Argument::AnId,
            Argument::APriority,
        ],
        form: "register NAME P I N",
        does: "registers handler I on the chain, with priority N",
    },
    Row {
        word: "unregister",
        takes: &[Argument::ADomain, Argument::AProcessor, Argument::AnId],
        form: "unregister NAME P I",
        does: "takes handler I off the chain",
    },
    Row {
        word: "chain",
        takes: &[Argument::ADomain, Argument::AProcessor],
        form: "chain NAME P",
        does: "shows the handlers of the chain, as they are called",
    },
    Row {
        word: "notify",
        takes: &[Argument::ADomain, Argument::AProcessor],
        form: "notify NAME P I:W..",
        does: "calls the chain; I answers W: done, ok, stop or bad",
    },
    Row {
        word: "install",
        takes: &[
            Argument::ADomain,
            Argument::AProcessor,
            Argument::AKey,
            Argument::APlug,
        ],
        form: "install NAME P K N",
        does: "gives key K of the table the plug N",
    },
    Row {
        word: "remove",
        takes: &[Argument::ADomain, Argument::AProcessor, Argument::AKey],
        form: "remove NAME P K",
        does: "takes key K out of the table",
    },
    Row {
        word: "lookup",
        takes: &[Argument::ADomain, Argument::AProcessor, Argument::AKey],
        form: "lookup NAME P K",
        does: "finds the plug of key K",
    },
    Row {
        word: "lease",
        takes: &[Argument::ADomain, Argument::AProcessor, Argument::NewName],
        form: "lease NAME P L",
        does: "leases the version of the table; the lease is called L",
    },
    Row {
        word: "read",
        takes: &[
            Argument::ADomain,
            Argument::AProcessor,
            Argument::ALease,
            Argument::AKey,
        ],
        form: "read NAME P L K",
        does: "finds the plug of key K in the version of lease L",
    },
    Row {
        word: "release",
        takes: &[Argument::ADomain, Argument::AProcessor, Argument::ALease],
        form: "release NAME P L",
        does: "ends lease L on processor P",
    },
    Row {
        word: "set",
        takes: &[Argument::NewSet],
        form: "set K NAME P..",
        does: "asks in each domain, on its processor; K has the cookies",
    },
    Row {
        word: "set-poll",
        takes: &[Argument::ASet],
        form: "set-poll K",
        does: "tells whether all cookies of set K are done",
    },
    Row {
        word: "cleanup",
        takes: &[Argument::ADomain],
        form: "cleanup NAME",
        does: "takes the domain down, where nothing of it is in use",
    },
];

impl Command {
    /// All commands, in the order of the help.
    pub const ALL: [Command; 36] = [
        Command::Domain,
        Command::Look,
        Command::Enter,
        Command::Lock,
        Command::Unlock,
        Command::Down,
        Command::Up,
        Command::Park,
        Command::Unpark,
        Command::Get,
        Command::Ask,
        Command::Poll,
        Command::Start,
        Command::Advance,
        Command::Step,
        Command::Call,
        Command::Run,
        Command::Batch,
        Command::Finish,
        Command::Segs,
        Command::Barrier,
        Command::BarrierPoll,
        Command::Register,
        Command::Unregister,
        Command::Chain,
        Command::Notify,
        Command::Install,
        Command::Remove,
        Command::Lookup,
        Command::Lease,
        Command::Read,
        Command::Release,
        Command::Set,
        Command::SetPoll,
        Command::State,
        Command::Cleanup,
    ];

    /// The command's row of the table.
    pub fn row(self) -> Row
        ensures word { result.word.now ≡ command_word self }
        ensures found { command_of result.word.now ≡ Some self }
        ensures takes { result.takes.now ≡ arguments self }
        ensures form { IsForm self (words_of result.form.now) }
    {
        ROWS[self as usize]
    }

    /// What the words behind the command should be.
    pub fn takes(self) -> &'static [Argument]
        ensures { result.now ≡ arguments self }
    {
        self.row().takes
    }

    /// Whether pairs may stand behind what the command takes.
    pub fn takes_pairs(self) -> bool
        ensures { result ≡ takes_pairs_lem self }
    {
        matches!(self, Command::Notify)
    }

    /// Whether members stand behind what the command takes: from one to eight, each two words, which name a domain and one of
    /// its processors.
    pub fn takes_members(self) -> bool
        ensures { result ≡ takes_members_lem self }
    {
        matches!(self, Command::Set)
    }

    /// The command of this word; `None` where the word is no command.
    pub fn of_word(word: &[u8]) -> Option<Command>
        ensures { result ≡ command_of word.now }
    {
        Command::ALL
            .iter()
            .copied()
            .find(|command| command.row().word.as_bytes() == word)
    }
}

impl fmt::Display for Command {
    ghost use Rattle.std.specs.Prelude.{Some};
    ghost use Rattle.requests.specs.Commands.{command_word};

    ghost output = { λ command. Some (command_word command) };

    fn fmt<W: fmt::Write>(&self, f: &mut fmt::Formatter<W>) -> fmt::Result {
        f.write_str(self.row().word)
    }
}
