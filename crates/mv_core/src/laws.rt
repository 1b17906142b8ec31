//! The laws of the protocol: what holds between any two steps of any seats, whatever their order.
//! Each is the contract of a function that does nothing: its clause ranges over every state of the
//! shared words and of the seats' views that the rule allows, and the rule holds after each step.
//! They are the invariants of MV-RLU (Kim, Mathew, Kashyap, Ramanathan and Min, ASPLOS 2019,
//! sections 3 and 4), of the subject that stands in brackets at each.
ghost use Rattle.mv_core.specs.Points.{HistoryPoint, WriteSetsPoint, FreesPoint, MarksPoint, GracePoint, LockFreshnessPoint, SuccessorsPoint};
ghost use Rattle.mv_core.specs.Points.{DeathsPoint, PositionsPoint, PositionsBoundedPoint, EarlierStampedPoint, OneWriteBackPoint};
ghost use Rattle.mv_core.specs.Points.{ReachableLinksPoint, NoSlotReusePoint, BeforeDeathPoint, ChainsPoint, WalkersPoint, MasterReadPoint};
ghost use Rattle.mv_core.specs.Points.{WriteBackPoint};
ghost use Rattle.mv_core.specs.MoveLaws.{MovesKeep, OpeningHolds, ReachedHold, OneHistory, OneEntry};

use mv_history::Protocol;

/// There is one commit history. It is legal and allowed by the client's rules, and as long as the
/// clock's time less the base; the clock names the seat of its last entry and, of a commit, the slot
/// of the first position of its write set, which is live. By number, each seat has seen a prefix of
/// it and knows exactly its own commits and rests in it, and one has seen it all. The numbers of the
/// unspent views and of the notes of joined seats all differ, each entry is of one of them, and what
/// a seat knows is what its view says, or its note.
/// (MV-RLU: the clock orders commits.)
pub fn history_is_one<P: Protocol>()
    ensures { HistoryPoint P.start P.allowed }
{}

/// The words of a log are those of its write sets. Each set is a run of positions, all of them live.
/// A committed set has exactly the writes of one commit; any other has no committed version. A held
/// set reaches to the next position, its seat is in a section, and each version is held, at HEAD of
/// its object, or, once the section aborts, aborted; in any other set that isn't committed all are
/// aborted. A set's stamp is the time of its commit, or unset while the clock names the commit, and
/// of a held or aborted one unset. Each clock word that a seat helped has left the clock, names no
/// commit, or names a stamped one.
/// (MV-RLU: write sets in per-thread logs; the commit timestamp of a write set.)
pub fn write_sets_are_whole<P: Protocol>()
    ensures { WriteSetsPoint P.start P.allowed }
{}

/// A seat's first free of a write set is of the set's first slot, which is the oldest of its log, and
/// needs each version of the set dead from a time not above the seat's watermark; such a version is
/// reached by no section. Then no version of the set is live: its other slots are being freed. While
/// they are, each live version of the log is of a later set, no section and no clock word names the
/// set's commit, and no section reaches a link to it or to what was freed before. Each write of the
/// history has its version still, or its time is below the watermark of the seat that made it.
/// (MV-RLU: log space is reused after a grace period.)
pub fn sets_are_freed_whole<P: Protocol>()
    ensures { FreesPoint P.start P.allowed }
{}

/// The mark of a seat outside is 0. In a section it is one more than a time not above the section's,
/// which isn't above the clock's. A section that is past its help finds each live commit up to its
/// time stamped. (MV-RLU: the local timestamp of a critical section.)
pub fn marks_are_low<P: Protocol>()
    ensures { MarksPoint P.start P.allowed }
{}

/// No watermark, neither the shared one nor that of a seat, is above the time of any section or the
/// clock's; nor is the least time of a running scan above that of a section which it has scanned.
/// (MV-RLU: the grace period and the watermark.)
pub fn grace_is_below_sections<P: Protocol>()
    ensures { GracePoint P.start P.allowed }
{}

/// An object that a section holds was last written at or before the section's time.
/// (MV-RLU: a lock fails where the newest version is later than the section.)
pub fn locks_are_fresh<P: Protocol>()
    ensures { LockFreshnessPoint P.start P.allowed }
{}

/// SUPER of a live version is 0 or the time of the next write of its object, whose set is then
/// stamped. Of a version that wasn't cut it is 0 under a later write only while the seat of that
/// write's commit is still in its section. (MV-RLU: when a version is superseded.)
pub fn successors_are_next<P: Protocol>()
    ensures { SuccessorsPoint P.start P.allowed }
{}

/// A time of death that a seat noted for a committed version in its chain is that of the next write
/// of the version's object; for one that was aborted or cut it is at most one above the clock.
/// (MV-RLU: from when on no section needs a version.)
pub fn deaths_are_next<P: Protocol>()
    ensures { DeathsPoint P.start P.allowed }
{}

/// Each position of a log has its slot. A live version or one that is being freed stands in the slot
/// of its position, and these positions run without a gap to the last one used; a slot that is being
/// built is that of the next. (MV-RLU: the log is a ring.)
pub fn positions_run_on<P: Protocol>()
    ensures { PositionsPoint P.start P.allowed }
{}

/// A seat has used at most as many positions of its log as it has slots, for each entry of the
/// history and once more. (MV-RLU: log space is reused after a grace period.)
pub fn positions_are_bounded<P: Protocol>()
    ensures { PositionsBoundedPoint P.start P.allowed }
{}

/// Each live commit before the clock's time is stamped: no commit enters the history before the
/// stamp of the one before it is stored, whether or not its committer ever moves.
/// (MV-RLU: the commit timestamp is one word of the write set.)
pub fn earlier_commits_are_stamped<P: Protocol>()
    ensures { EarlierStampedPoint P.start P.allowed }
{}

/// Between its first store into an object's master and its leave, no other seat writes that object
/// back: a stalled write-back never stores over a later one. (MV-RLU: write-back to the master.)
pub fn one_seat_writes_back<P: Protocol>()
    ensures { OneWriteBackPoint P.start P.allowed }
{}

/// A link that a section reaches, from the HEAD of an object or from where it stands, each time by
/// PREV of a version whose stamp is unset or above the section's time, is 0 or names a live version
/// in the slot of its position. (MV-RLU: a reader walks a version chain.)
pub fn reached_links_are_live<P: Protocol>()
    ensures { ReachableLinksPoint P.start P.allowed }
{}

/// While a section reaches the link of a position of a log, the slot of that position has the
/// version of that very position: it is neither free nor built again.
/// (MV-RLU: log space is reused after a grace period.)
pub fn reached_slots_are_kept<P: Protocol>()
    ensures { NoSlotReusePoint P.start P.allowed }
{}

/// A time of death that a seat noted for a version is above the time of each section that stands at
/// the version or reaches it. (MV-RLU: from when on no section needs a version.)
pub fn deaths_are_after_readers<P: Protocol>()
    ensures { BeforeDeathPoint P.start P.allowed }
{}

/// Each object has one version chain, got from its HEAD by following PREV: perhaps one held version,
/// and then its latest writes, each committed and not cut, with falling times and none left out. It
/// ends grounded (its last link is 0, its master has the state before its lowest version, or the
/// present one, and the last write up to there isn't above any section's time) or loose (its lowest
/// version's time isn't above any section's). (MV-RLU: the version chain of a master object.)
pub fn chains_are_latest_writes<P: Protocol>()
    ensures { ChainsPoint P.start P.allowed }
{}

/// A walk stands at one of four places: a version in its object's chain, where each one above is held
/// or later than the section; a version that was cut and has the object's words of the section's
/// time; an aborted version whose PREV leads to such a place; or the master of a grounded chain, with
/// the words of that time. (MV-RLU: a reader walks a version chain down to its snapshot.)
pub fn walks_stand_right<P: Protocol>()
    ensures { WalkersPoint P.start P.allowed }
{}

/// A section that stands at an object's master finds there the words of the state at its time, and
/// no seat is then between its first store into that master and its exchange of the object's HEAD.
/// (MV-RLU: a reader falls back to the master.)
pub fn masters_are_read_whole<P: Protocol>()
    ensures { MasterReadPoint P.start P.allowed }
{}

/// A seat that writes a version back is in a section. The version is its object's last write up to
/// the section's time, and not later than any section. Until the exchange of HEAD each version above
/// it in the chain is held or later than that section, and the words stored so far are its own.
/// (MV-RLU: write-back to the master.)
pub fn write_backs_are_last<P: Protocol>()
    ensures { WriteBackPoint P.start P.allowed }
{}

/// A move is one step of one seat, as specs/Moves.antt has them for all thirty-two kinds. From a state
/// of the rule each move leads to a state of the rule, whose history begins with the old one.
pub fn each_move_keeps_the_rule<P: Protocol>()
    ensures { MovesKeep P.start P.allowed }
{}

/// A new domain is in a state of the rule.
pub fn opening_is_ruled<P: Protocol>()
    ensures { OpeningHolds P.start P.allowed }
{}

/// Whatever moves the seats of a new domain make, in whatever order, the state is one of the rule.
pub fn reachable_is_ruled<P: Protocol>()
    ensures { ReachedHold P.start P.allowed }
{}

/// All seats speak of one history: two histories that the rule allows for one state of the table are
/// the same. No move shortens it. Only an exchange of CLOCK that is won, for a commit or for a rest,
/// makes it longer, by one entry.
pub fn one_history<P: Protocol>()
    ensures one { OneHistory P.start P.allowed }
    ensures entry { OneEntry P.allowed }
{}
