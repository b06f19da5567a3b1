//! What the help says of scripts.
use requests::{Command, Row};
use std::alloc::{AllocError, Allocator};
use std::fmt::Write;

const BEFORE_LINES: &str = "\
A script has a line for each thing that a domain should do:

";

const BEHIND_LINES: &str = "
Each line gets one reply line. Empty lines, and lines that begin with #, are
skipped. A faulty line gets the reply 'line N: WORD', what can't be done gets
'refused COMMAND CAUSE', and the run goes on. The status is 0 where no line was
faulty, 1 where one or more were, and 2 where reading or writing failed or
memory ran out. docs/script.md says what each WORD and each CAUSE means, and
'srcuctl annotate' shows which word of a line is wrong, and why.

An example:

  srcuctl run <<END
  domain web 2
  lock web 0 reader
  start web 1
  state web
  unlock web reader
  END";

/// What a newcomer has to know of a script, with a line for each command of the table.
pub fn of_scripts<A: Allocator>(alloc: A) -> Result<String<A>, AllocError> {
    let mut text = String::new(alloc);
    text.push_str(BEFORE_LINES)?;
    for command in Command::ALL {
        push_line(&mut text, command.row())?;
    }
    text.push_str(BEHIND_LINES)?;
    Ok(text)
}

/// Puts the help's line of a command behind the text.
fn push_line<A: Allocator>(text: &mut String<A>, row: Row) -> Result<(), AllocError> {
    let Row { form, does, .. } = row;
    writeln!(text, "  {form:<21} {does}").map_err(|_| AllocError)
}
