//! Scripts of set commands as text, and what their commands are.
//!
//! # Model
//!
//! A script is lines that end with LF; the last may lack it, and one CR at a line's end is
//! dropped. Words are separated by spaces and tabs, which may also stand before and after. A word
//! that begins with `#` begins a comment to the line's end, in which any byte may stand. A line
//! without words is skipped.
//!
//! The first line with words may be `format 1` or `format 2`; a script without it has format 1.
//! Any other line is a command, in lower case: `add S K`, `del S K`, `has S K`, `move S S K`,
//! `pair S S K`, `size S`, `next S K`, and in format 2 `put S K V` and `get S K`. A name S is `l0`
//! to `l9`, `h0` to `h9` or `t0` to `t9`, and the two of a move differ. A key K is 1 to 10 decimal
//! digits of a number up to 4294967295, and a value V 1 to 20 of one up to 18446744073709551615.
//!
//! `specs/Grammar.antt` says this as a function on bytes, which computes the commands of a script,
//! or its first faulty line and what is wrong with it.
//!
//! # Contract
//!
//! `parse` answers exactly the commands of a script, or its first faulty line and what is wrong
//! with it first; want of memory is the one free answer. `read_line` and `parse_line` answer one
//! line, and `first_word` and its like the words of one. The laws say what the grammar comes to
//! over all texts and commands: `parse_is_exact` by all lines of a text, and `commands_read_back`
//! that each list of commands has a script.
//!
//! # Place
//!
//! It stands on `set_model`, whose commands it reads. The grammars of blocks, of growing sets and
//! of plans stand on its lines and words.
#![tactic(auto)]

mod faults;
mod format;
mod laws;
mod line;
mod numbers;
mod opening;
mod plain;
mod script;
mod words;

pub use faults::{FaultKind, ScriptFault};
pub use format::Format;
pub use laws::{commands_read_back, parse_is_exact};
pub use line::parse_line;
pub use numbers::read_value;
pub use opening::read_line;
pub use script::parse;
pub use words::{first_word, same_word, strip_carriage_return};
