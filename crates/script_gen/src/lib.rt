//! Scripts from a number: four for each, one for each seat from 0 to 3.
//!
//! **Model.** A script is `COMMANDS` commands. They are drawn from the words of a PCG generator
//! (O'Neill, "PCG: a family of simple fast space-efficient statistically good algorithms for
//! random number generation"), whose state is made from the number and whose stream is the seat.
//! Each command takes the next four words: what it does, its set, the second set of a move, and
//! its key. All four are drawn also where the command is no move (`specs/Script.antt`).
//!
//! **Contract.** [`commands`] answers exactly the commands of `script number seat`, and [`text`]
//! their text, one command a line. Reading that text back by the grammar of scripts gives the
//! same commands, and it is far within the limits of a script. The keys of a script are below 256,
//! and are its seat modulo 4: two seats of one number have no key in common. Only four seats have keys
//! of their own, so both calls ask for a seat below 4. The error of both is want of memory. What four words
//! draw is [`DrawnWords::command`], and the text of one command is that of [`write_line`].
//!
//! **Place.** It stands on `set_model`, whose commands and grammar it speaks of, and on `rand_pcg`,
//! whose specification gives the words. The program prints such a script, and runs the four of a
//! number.
#![tactic(auto)]

mod draw;
mod line;
mod script;

pub use draw::DrawnWords;
pub use line::write_line;
pub use script::{COMMANDS, commands, text};
