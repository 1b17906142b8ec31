// A walk over the keys of a set, all of one state.
ghost use Rattle.std.specs.Prelude.{◌≡◌, ◌+◌, ◌≤◌, false, length};
ghost use Rattle.mv_history.specs.Calls.{Continues};
ghost use Rattle.set_model.specs.Catalogue.{map_of};
ghost use Rattle.set_model.specs.CatalogueOf.{catalogue_of};
ghost use Rattle.set_model.specs.Lawful.{IsLawful};
ghost use Rattle.section_work.specs.Causes.{causes};
ghost use Rattle.set_catalog.specs.Needs.{may_change};
ghost use Rattle.set_catalog.specs.Replies.{reply_in};
ghost use Rattle.set_catalog.specs.Shortages.{IsKnown};
ghost use Rattle.set_seats.specs.Walks.{IsWalk, Writes, entries_from, entries_in, first_entry};

use mv_history::{Section, Store, View};
use set_blocks::BlockRules;
use set_catalog::{Memo, PlanOutcome, Shortage, find_plan_near};
use set_model::{Command, Name, Reply};

/// A key of a set, with its value.
#[repr(C)]
#[derive(Clone, Copy, Debug, Drop, PartialEq, Eq)]
pub struct KeyValue {
    pub key: u32,
    pub value: u64,
}

/// What a walk over a set found.
#[derive(Clone, Copy, Debug, Drop, PartialEq, Eq)]
pub struct Walked {
    /// The printed time of the state of which all of it is.
    pub time: u64,
    /// How many entries were written.
    pub count: usize,
    /// The key of the next entry, for which there was no room, or none where all were written.
    pub more: Option<u32>,
}

// Walks over the set in one section of the store, and gives the store back.
pub(crate) fn walk_in<S: Store<Rules = BlockRules>>(
    store: S,
    memo: &mut Memo,
    name: Name,
    from: u32,
    entries: &mut [KeyValue],
) -> (S, Walked)
    requires known { IsKnown (S.seat_of store) memo.old.known }
    ensures walked { let shows = causes S.Open.may_refuse S.Open.has_trail S.took S.holds_back S.Open.found_held S.Open.loaded in
        IsWalk shows name from entries.old entries.new (S.seat_of store) (S.seat_of result.0) result.1 }
    ensures continues { Continues (S.seat_of store) (S.seat_of result.0) }
    ensures known { IsKnown (S.seat_of result.0) memo.new.known }
{
    let section = store.enter();
    let time = section.at();
    let mut section = section;
    let (count, more) = fill(&mut section, memo, name, from, entries);
    (section.leave(), Walked { time, count, more })
}

// Writes the entries of the set from this key on, in order, as long as there is room.
fn fill<V: View>(
    view: &mut V,
    memo: &mut Memo,
    name: Name,
    from: u32,
    entries: &mut [KeyValue],
) -> (usize, Option<u32>)
    requires lawful { IsLawful (V.state view.old) }
    ensures written { Writes (entries_in (V.state view.old) name from) entries.old entries.new result.0 result.1 }
    ensures known { memo.new.known ≡ memo.old.known }
    ensures as_before { V.as_before view.old view.new }
{
    let mut count = 0;
    let mut next = entry_from(view, memo, name, from);
    while let Some(entry) = next {
        if count == entries.len() {
            return (count, Some(entry.key));
        }
        entries[count] = entry;
        count += 1;
        next = entry_after(view, memo, name, entry.key);
    }
    (count, None)
}

// The least entry of the set whose key is above this one, or none.
fn entry_after<V: View>(view: &mut V, memo: &mut Memo, name: Name, key: u32) -> Option<KeyValue>
    requires lawful { IsLawful (V.state view.old) }
    ensures entry { result ≡ first_entry (entries_from (key + 1) (map_of name (catalogue_of (V.state view.old)))) }
    ensures known { memo.new.known ≡ memo.old.known }
    ensures as_before { V.as_before view.old view.new }
{
    if key == u32::MAX {
        return None;
    }
    entry_from(view, memo, name, key + 1)
}

// The least entry of the set whose key is not below this one, or none.
fn entry_from<V: View>(view: &mut V, memo: &mut Memo, name: Name, key: u32) -> Option<KeyValue>
    requires lawful { IsLawful (V.state view.old) }
    ensures entry { result ≡ first_entry (entries_from key (map_of name (catalogue_of (V.state view.old)))) }
    ensures known { memo.new.known ≡ memo.old.known }
    ensures as_before { V.as_before view.old view.new }
{
    let Reply::Key { key } = ask(view, memo, &Command::Next { name, key }) else {
        return None;
    };
    match ask(view, memo, &Command::Get { name, key }) {
        Reply::Value { value } => Some(KeyValue { key, value }),
        _ => unreachable!(),
    }
}

// The reply of a command that only asks.
fn ask<V: View>(view: &mut V, memo: &mut Memo, command: &Command) -> Reply
    requires lawful { IsLawful (V.state view.old) }
    requires asks { may_change command.now ≡ false }
    ensures reply { result ≡ reply_in command.now (V.state view.old) false }
    ensures known { memo.new.known ≡ memo.old.known }
    ensures as_before { V.as_before view.old view.new }
{
    let mut few = Shortage::unknown().few;
    let found = find_plan_near(
        &mut memo.plan,
        view,
        &mut memo.hints,
        &mut memo.fingers,
        &mut few,
        command,
    );
    match found {
        PlanOutcome::Settled(reply) => reply,
        PlanOutcome::Open(_) => unreachable!(),
    }
}
