// What the plain store does when it runs.
ghost use Rattle.std.specs.Prelude.{◌≡◌, ◌<◌, ◌≤◌, length, IfOk};
ghost use Rattle.plain_store.specs.Meaning.{seat_of};
ghost use Rattle.mv_history.specs.Calls.{GoesOn};

use crate::comparing::{assert_same, must};
use mv_history::{AnyRules, CommitAnswer, LockAnswer, Room, Section, Store, View, WORDS, Words};
use plain_store::{PlainSection, PlainStore};
use std::alloc::{AllocError, Global};
use std::process::Abort;
use std::test::Fail;

#[derive(Clone, Copy, Debug, PartialEq, Eq)]
enum CommitEnd {
    Done(u64),
    Refused,
    End,
}

// A store of so many objects of zeros, with room for so many commits.
fn open(alloc: Global, count: u32, base: u64, room: u32) -> Result<PlainStore<AnyRules>, AllocError>
    requires some { 0 < count }
    requires few { count ≤ 16777216 }
    requires early { base < 100 }
    ensures { IfOk result (λ store. length (seat_of store).start ≡ count) }
{
    let zeros = vec![in alloc; [0; WORDS]; count as usize]?;
    PlainStore::new(alloc, &zeros, base, room)
}

// Commits one object, in any store without rules.
fn commit_one<S: Store<Rules = AnyRules>>(store: S, object: u32, words: Words) -> (S, CommitEnd)
    requires in_range { object < length (S.seat_of store).start }
    ensures start { (S.seat_of result.0).start ≡ (S.seat_of store).start }
{
    let mut section = store.enter();
    let LockAnswer::Held = section.try_lock(object) else {
        return (section.abort(), CommitEnd::Refused);
    };
    section.write(object, words);
    match section.try_commit([1, 2, 3, 4]) {
        CommitAnswer::Done(store, time) => (store, CommitEnd::Done(time)),
        CommitAnswer::Again(section, _) => (section.abort(), CommitEnd::Refused),
        CommitAnswer::End(section) => (section.abort(), CommitEnd::End),
    }
}

#[test]
fn plain_store_end(rt: HostRuntime) -> Result<(), Fail> {
    let store = open(rt.alloc(), 182, 40, 1)?;
    let (store, first) = commit_one(store, 181, [1, 2, 3, 4, 5, 6]);
    let (store, second) = commit_one(store, 180, [7; 6]);
    let ended = (CommitEnd::Done(41), CommitEnd::End);
    assert_same(&rt, &(first, second), &ended, "two commits");
    let states = (store.state(181), store.state(180));
    assert_same(&rt, &states, &([1, 2, 3, 4, 5, 6], [0; 6]), "states");
    Ok(())
}

// Looks at a store of 182 objects, in which nothing was done, and at a section in it.
fn look_at_new<S: Store>(rt: &impl Abort, mut store: S) -> S {
    let (seat, most) = (store.seat(), store.write_max());
    assert_same(rt, &(seat, most), &(0, 16), "the seat");
    assert_same(rt, &store.prepare(), &Room::Enough, "room");
    let section = store.enter();
    let times = (section.at(), section.last());
    assert_same(rt, &times, &(0, 4_294_967_295), "times");
    let (most, objects) = (section.write_max(), section.objects());
    assert_same(rt, &(most, objects), &(16, 182), "the section");
    section.leave()
}

#[test]
fn a_new_store_has_room(rt: HostRuntime) -> Result<(), Fail> {
    let _store = look_at_new(&rt, open(rt.alloc(), 182, 0, 4_294_967_295)?);
    Ok(())
}

// The words of an object.
fn words_of<V: View>(rt: &impl Abort, view: &mut V, object: u32) -> Words
    ensures { V.as_before view.old view.new }
{
    must(rt, object < view.objects(), "an object of the view");
    view.read(object)
}

// Locks object 3 in a section that holds nothing, and writes it.
fn write_one<S: Section>(rt: &impl Abort, section: &mut S)
    ensures { GoesOn (S.section section.old) (S.section section.new) }
{
    must(rt, 3 < section.objects(), "an object of the section");
    assert_same(rt, &section.try_lock(3), &LockAnswer::Held, "a lock");
    must(rt, section.has_lock(3), "an object that is held");
    section.write(3, [9; 6]);
}

// Writes object 3, and looks at it and at the next one.
fn write_and_look<S: Section>(rt: &impl Abort, section: &mut S)
    ensures { GoesOn (S.section section.old) (S.section section.new) }
{
    write_one(rt, section);
    assert_same(rt, &words_of(rt, section, 3), &[9; 6], "what is written");
    assert_same(rt, &words_of(rt, section, 4), &[0; 6], "the next object");
    assert_same(rt, &section.held(), &1, "how many are held");
}

// Does so in a new section, and aborts it.
fn write_and_abort<S: Store>(rt: &impl Abort, store: S) -> S
    ensures { (S.seat_of result).start ≡ (S.seat_of store).start }
{
    let mut section = store.enter();
    write_and_look(rt, &mut section);
    section.abort()
}

// Looks that a new section holds nothing.
fn look_at_entered<S: Store>(rt: &impl Abort, store: S) -> S {
    let section = store.enter();
    let found = (section.at(), section.held());
    assert_same(rt, &found, &(0, 0), "a new section");
    section.leave()
}

#[test]
fn an_abort_leaves_nothing(rt: HostRuntime) -> Result<(), Fail> {
    let store = open(rt.alloc(), 182, 0, 4_294_967_295)?;
    let store = write_and_abort(&rt, store);
    assert_same(&rt, &store.state(3), &[0; 6], "the state");
    let _store = look_at_entered(&rt, store);
    Ok(())
}

// Locks an object, and looks at its words.
fn lock_and_look<S: Section>(rt: &impl Abort, section: &mut S, object: u32, words: Words) {
    assert!(rt; object < section.objects());
    assert_eq!(rt; section.try_lock(object), LockAnswer::Held);
    assert_eq!(rt; words_of(rt, section, object), words);
}

#[test]
fn a_lock_has_the_words_of_its_object(rt: HostRuntime) -> Result<(), Fail> {
    let two = [[1; WORDS], [2; WORDS]];
    let mut section = PlainStore::<AnyRules>::new(rt.alloc(), &two, 0, 1)?.enter();
    lock_and_look(&rt, &mut section, 1, [2; WORDS]);
    let _store = section.abort();
    Ok(())
}

// A section over one object of these words.
fn enter_one(alloc: Global, words: Words) -> Result<PlainSection<AnyRules>, AllocError> {
    Ok(PlainStore::new(alloc, &[words], 0, 1)?.enter())
}

// Looks at the words of object 0 from this place on, two and four.
fn expect_two<V: View>(rt: &impl Abort, view: &mut V, place: u32, want: (u64, u64))
    requires { place < 5 }
{
    must(rt, 0 < view.objects(), "an object of the view");
    assert_same(rt, &view.read_pair(0, place), &want, "a pair");
}

fn expect_four<V: View>(rt: &impl Abort, view: &mut V, place: u32, want: [u64; 4])
    requires { place < 3 }
{
    must(rt, 0 < view.objects(), "an object of the view");
    assert_same(rt, &view.read_four(0, place), &want, "four words");
}

// Reads words next to each other.
fn look_at_parts<S: Section>(rt: &impl Abort, mut section: S) -> S::Back {
    expect_two(rt, &mut section, 0, (1, 2));
    expect_two(rt, &mut section, 2, (3, 4));
    expect_two(rt, &mut section, 4, (5, 6));
    expect_four(rt, &mut section, 0, [1, 2, 3, 4]);
    expect_four(rt, &mut section, 2, [3, 4, 5, 6]);
    section.abort()
}

#[test]
fn a_pair_and_four_words_stand_next_to_each_other(rt: HostRuntime) -> Result<(), Fail> {
    let section = enter_one(rt.alloc(), [1, 2, 3, 4, 5, 6])?;
    let _store = look_at_parts(&rt, section);
    Ok(())
}
