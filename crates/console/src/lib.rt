// The watch at a console: calls read from lines of text, and answers shown as lines.
#![tactic(auto)]

mod answers;
mod calls;
mod conversation;

pub use answers::show_answer;
pub use calls::{parse_call, parse_number};
pub use conversation::converse;
