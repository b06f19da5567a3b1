//! What is wrong with a line.
use std::fmt;

/// Why a line is faulty: it is the first of these that holds, its arguments being read from left to right.
#[derive(Clone, Copy, Debug, PartialEq, Eq)]
pub enum Fault {
    /// A byte that is no printable ASCII, or more than 200 bytes.
    Text,
    /// The first word is no command.
    Command,
    /// Another number of words than the command's.
    Words,
    /// A word that should be a name is none, or names nothing of the kind.
    Name,
    /// A well-formed domain name that isn't there.
    Domain,
    /// A name that should be new is in use.
    Taken,
    /// A word that is no number of the asked range.
    Number,
    /// A number that is no processor of the domain.
    Processor,
    /// A word of `notify` that is no handler's id, a colon and an answer, or an id that is given twice.
    Pair,
}

impl fmt::Display for Fault {
    ghost use Rattle.std.specs.Prelude.{Some};
    ghost use Rattle.requests.specs.Faults.{fault_word};

    ghost output = { λ fault. Some (fault_word fault) };

    fn fmt<W: fmt::Write>(&self, f: &mut fmt::Formatter<W>) -> fmt::Result {
        match self {
            Fault::Text => f.write_str("text"),
            Fault::Command => f.write_str("command"),
            Fault::Words => f.write_str("words"),
            Fault::Name => f.write_str("name"),
            Fault::Domain => f.write_str("domain"),
            Fault::Taken => f.write_str("taken"),
            Fault::Number => f.write_str("number"),
            Fault::Processor => f.write_str("processor"),
            Fault::Pair => f.write_str("pair"),
        }
    }
}
