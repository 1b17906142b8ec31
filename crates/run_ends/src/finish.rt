// How a call of the program ends.
use grow_hash::{GROW_LEVELS, GrowRules};
use mvrlu::Closing;
use run_words::Limit;
use script_files::Stop;
use script_files::set_blocks::BlockRules;
use set_model::SetRules;

/// What a run of the program leaves of its domain.
#[derive(Drop)]
pub enum LeftDomain {
    /// No domain was run, or not to its end.
    No,
    /// The domain of the sets on which the scripts were run. Its seats have met, so its one history is known whole.
    Sets(Closing<SetRules>),
    /// The domain of the blocks, likewise.
    Blocks(Closing<BlockRules>),
    /// The domain of the growing set, likewise.
    Grown(Closing<GrowRules<GROW_LEVELS>>),
}

/// What became of a call of the program.
#[derive(Drop)]
pub struct Ran {
    /// The status, 0 to 7.
    pub status: u8,
    /// The domain of the run, where the status is 0 and scripts were run.
    pub closed: LeftDomain,
}

/// How a call of the program ends.
#[derive(Drop)]
pub enum Finish {
    /// The whole text was written.
    Done(LeftDomain),
    /// The words are out of form.
    Usage,
    /// This number of the words is out of its range.
    Limit(Limit),
    /// Reading the files stopped, or there was no memory.
    Stopped(Stop),
    /// Writing the text failed.
    Write,
}
