//! Parses the lines of a script.
//!
//! It is proved that names, transactions, numbers and lists of these are parsed exactly as docs/FORMATS.md says. Tests show how whole lines
//! are parsed.
#![tactic(auto)]

mod fault;
mod line;
mod lists;
mod word;
mod words;

pub use fault::LineFault;
pub use line::{BlockLine, CommitteeLine, LimitsLine, Line, Request, parse_line};
pub use lists::list;
pub use word::{Name, number, number_u16, number_u32, transaction};
