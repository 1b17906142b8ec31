//! The report of a run on a growing hash set: its lines, the splits between them, and their text.
//!
//! # The model
//!
//! A run gives each command of each script one line, as `run_report` says of any run, and its seats split buckets between
//! their lines. A turn is what a seat did for one command: its line, and the split that it made behind it, if it made one.
//!
//! # One history
//!
//! `GrowRunOf past scripts lines end splits tables` (specs/Whole.antt) says where such lines come from. The history `past` is
//! legal, and each of its commits is one that a growing hash set allows, from an all-zero state on:
//!
//! - a line at a commit is the commit of its time, by its seat and with its command's tag; each commit of the history has
//!   exactly one line, or is a split and has none. A line at a read has the reply of its command in the state of its time;
//! - a seat's commits are those of its lines, and of one split at most behind each second add of its script that replied yes,
//!   ahead of its next line, and nothing else (`TurnsOf`, specs/Turns.antt);
//! - such a split is missing only where a state from that add on, ahead of the seat's next line or else up to the end, has the
//!   greatest level, or too many keys in the bucket that is next, or the last time;
//! - `splits` is how many there are, and the state at the end has 16 buckets and so many more;
//! - the lines are a legal run of the scripts (`LegalRun` of `run_report`) with room for as many nodes as there are. Splits
//!   have no part in its replay: they leave the catalogue.
//!
//! # The contract
//!
//! [`render_grown`] writes exactly `text_of_grown lines end splits tables` (specs/Text.antt): the text of `render`, with the
//! line `buckets B splits K` ahead of the tables. [`order_grown`] puts the lines of such a run in their order.
//!
//! # Its place
//!
//! It stands between the run, which makes lines, and the program, which writes the text, as `run_report` does, on whose
//! lines and proofs it stands. Of the set it knows the rules alone (`grow_hash`), and neither stores nor seats.
#![tactic(auto)]

mod line;
mod text;

pub use line::order_grown;
pub use text::render_grown;
