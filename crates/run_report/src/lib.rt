//! The report of a run: its lines and their order, what makes them a legal run, and their text.
//!
//! A run gives each command of each script one [`Line`]: the seat and the number of the command, the place where it took
//! effect, and its reply. A place is a commit or a read of the one history, with its printed time. Lines are ordered by
//! time, commits before reads, then by seat, then by number; [`order`] puts them so.
//!
//! **Legal runs.** `LegalRun scripts lines base capacity end` (specs/Legal.antt) says of lines in any order:
//!
//! 1. each command of each script has exactly one line, and there are no others;
//! 2. along a script the times never fall, and a commit's time is later than that of the line before it, or than `base`
//!    where it is the first; no read is of a time before `base`;
//! 3. no two commit lines have the same time;
//! 4. the replay of the ordered lines, from 30 empty maps, gives each line's reply and ends in `end`. A commit's command
//!    changes something there, and the change is made. A read's command has nothing to change there.
//!
//! The run is the one sorted permutation of its lines, so one definition serves one script and many. A commit
//! makes its time, and so shares it with no line before it along its script; a read may.
//!
//! Point 4 is what a reader of the text can check with the scripts alone: one catalogue, changed by one commit after
//! another, gives every reply.
//!
//! **One history.** `RunOf past scripts lines end tables` (specs/Whole.antt) says where such lines come from. The history
//! `past` is legal, and each of its commits is one that the sets allow, from an all-zero state on. A `Commit` line is the
//! commit of its time, by its seat and with its command's tag, and each commit of the history has exactly one line. A
//! `Read` line has the reply of its command in the state of its time, where the command has nothing to change. `end` is
//! the catalogue of the state after the whole history, and each seat's table counts what that seat did in it. The lines
//! of seats that each worked off its script are such a run (proofs/history), whose replay is then a consequence.
//!
//! **The text.** [`render`] writes exactly `text_of_run lines end tables` (specs/Text.antt): the lines as they stand, the
//! sets that aren't empty, and the table of each seat's log. [`render_in_order`] takes lines in any order, and writes the text of
//! the same lines in theirs (`IsTextInOrder`, specs/InOrder.antt): several threads merge and render even parts of them.
//!
//! **The summary.** [`summary`] writes exactly `summary number lines end` (specs/Summary.antt), of a run of the scripts of a number: how many
//! lines reply `yes`, `no` and `worn`, how many are commits, and the size of each set that isn't empty.
//!
//! The crate stands between the run, which makes lines, and the program, which writes the text. It knows commands,
//! replies and catalogues (`set_model`) and the tables of logs (`mv_history`), and neither stores nor seats.
#![tactic(auto)]

mod counts;
mod cuts;
mod in_order;
mod line;
mod lines;
mod parts;
mod row;
mod text;

pub use counts::summary;
pub use in_order::render_in_order;
pub use line::{Line, order};
pub use text::render;
