//! The words of the command line, and what they ask for.
//!
//! # Model
//!
//! The words are lists of bytes. A list of words asks to run the scripts of files, with three numbers; or for a
//! generated script of a number and a seat; or to run the four generated scripts of a number; or to run the scripts of
//! blocks of files; or to do the commands of one file on so many seats; or to run scripts on a growing set; or to replay the
//! schedule of steps of one file. Every other list is out of form, or is in form with a number that is out of its range.
//! `asked` of `specs/Words.antt` says which.
//!
//! # Contract
//!
//! [`read_words`] answers exactly what `asked` says: the form comes first, and then the numbers, one after another.
//!
//! # Place
//!
//! The program's top call reads its words by this crate. Of `set_model` it takes the definition of a numeral alone.
#![tactic(auto)]

mod numbers;
mod options;
mod reading;
mod request;

pub use reading::read_words;
pub use request::{BadWords, Limit, Options, Request};
