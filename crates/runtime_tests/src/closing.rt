// The words that a domain ends with.
ghost use Rattle.std.specs.Prelude.{◌≡◌, ◌<◌, ◌≤◌};
ghost use Rattle.std.specs.Mem.Slots.{slots_len, IsFull};
ghost use Rattle.mv_core.specs.Passes.{IsOf};
ghost use Rattle.mv_layout.specs.Limits.{Checked};
ghost use Rattle.mv_layout.specs.Cells.{cells};

use crate::clients::Client;
use crate::playing::{Schedule, play_once};
use atomic_table::Closed;
use mv_core::{Pass, Shared};
use mv_history::{AnyRules, Tag};
use mv_layout::{CLOCK_CELL, Config, head_cell, mark_cell, master_cell};
use std::alloc::{AllocError, Global};

/// Words that a domain ends with, by name.
#[derive(Drop)]
pub struct LastWords {
    pub clock: u64,
    /// MARK of each seat.
    pub marks: Vec<u64>,
    /// HEAD of each object.
    pub heads: Vec<u64>,
    /// The first master word of each object.
    pub masters: Vec<u64>,
}

// Reads them from the cells in which `mv_layout` says that they lie.
fn last_words(
    alloc: Global,
    config: &Config,
    closed: &Closed<Tag, Global>,
) -> Result<LastWords, AllocError>
    requires checked { Checked config.now }
    requires counts { slots_len closed.now.words ≡ cells config.now }
    requires full { IsFull closed.now.words }
{
    let mut marks = Vec::new(alloc);
    for seat in 0..config.seats {
        marks.push(closed.word(mark_cell(config, seat) as usize))?;
    }
    let mut heads = Vec::new(alloc);
    let mut masters = Vec::new(alloc);
    for object in 0..config.objects {
        heads.push(closed.word(head_cell(config, object) as usize))?;
        masters.push(closed.word(master_cell(config, object, 0) as usize))?;
    }
    Ok(LastWords {
        clock: closed.word(CLOCK_CELL as usize),
        marks,
        heads,
        masters,
    })
}

// Closes a domain with one of its passes, and answers the words that are left.
fn close(
    alloc: Global,
    shared: Shared<AnyRules>,
    pass: Pass<AnyRules>,
) -> Result<LastWords, AllocError>
    requires of { IsOf shared pass }
{
    let config = *shared.config();
    let closed = shared.close(pass);
    let words = last_words(alloc, &config, &closed);
    closed.free();
    words
}

/// Plays a schedule once in a new domain, and closes the domain then with the pass of its last seat. It
/// answers the words that are left; `None` is that a turn was answered otherwise than was wanted, or that
/// the numbers are no domain. Where memory is refused before the domain is there, no turn was made.
pub fn closed_after(alloc: Global, schedule: &Schedule) -> Result<Option<LastWords>, AllocError> {
    let Ok((shared, mut clients)) = play_once(alloc, schedule)? else {
        return Ok(None);
    };
    let Some(Client { pass, .. }) = clients.pop() else {
        return Ok(None);
    };
    Ok(Some(close(alloc, shared, pass)?))
}
