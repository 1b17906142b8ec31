// The clients of a domain: a seat's pass and log each, and how far its section has come.
use log_reclaim::StartedWriteBack;
use mv_core::Pass;
use mv_history::AnyRules;
use object_lock::StartedLock;
use seat_log::Log;
use version_chain::{FoundVersion, Walk};

/// How far a client has come, as it knows it at run time.
#[derive(Clone, Copy)]
pub enum Stage {
    /// It is outside a section.
    Outside,
    /// It has loaded this low time of a section to come.
    Lowered(u64),
    /// It has stored the mark of a section to come.
    Marked,
    /// It is in a section that began by its load of this word of CLOCK, and has yet to help it.
    Taken(u64),
    /// It is in an open section, in which it has perhaps loaded and helped this word of CLOCK.
    Inside(Option<u64>),
    /// Its section has named a commit of this time, by its last step.
    Named(u64),
    /// It is in an open section, in which it has begun this lock.
    Locking(StartedLock),
    /// It is outside a section, and has loaded this word of CLOCK, and has yet to help it.
    Loaded(u64),
    /// It is outside a section, and has loaded and helped this word of CLOCK.
    Helped(u64),
    /// It is in an open section, in which it writes a version back.
    WritingBack,
}

/// What a client has begun and not ended, in an open section.
#[derive(Drop)]
pub(crate) enum UnderWay {
    Nothing,
    /// A walk over this object.
    Walking(u32, Walk),
    /// What a walk over this object ended at, and the client hasn't read.
    Ended(u32, Option<FoundVersion>),
    /// A write-back, of which so many words were stored.
    WriteBack(StartedWriteBack, u32),
}

/// What calls for one seat: its pass, its log, how far it has come, and what it has under way.
#[derive(Drop)]
pub struct Client {
    pub(crate) pass: Pass<AnyRules>,
    pub(crate) log: Log,
    pub(crate) stage: Stage,
    pub(crate) under_way: UnderWay,
}
