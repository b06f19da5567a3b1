//! The text of a script's requests: the table of commands, what a line asks for or what is wrong with it, and the replies.
#![tactic(auto)]

mod block_ids;
mod cause;
mod command;
mod fault;
mod given;
mod handler_answers;
mod job_names;
mod line;
mod members;
mod numbers;
mod pairs;
mod reply;
mod request;
mod scene;

pub use block_ids::BlockIds;
pub use cause::Cause;
pub use command::{Argument, Command, Row};
pub use fault::Fault;
pub use handler_answers::{Answer, HandlerAnswers};
pub use job_names::JobNames;
pub use line::{is_skipped, parse};
pub use members::{Member, Members};
pub use reply::{Period, Reply, Sections, Segments, Waiting, push_reply};
pub use request::{Act, Request};
pub use scene::{Kind, Scene};
