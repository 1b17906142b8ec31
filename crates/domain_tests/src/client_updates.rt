// Reads and updates over a plain store, which has one seat: so no rival comes, and no lock is refused.
ghost use Rattle.std.specs.Prelude.{◌≡◌, ◌<◌, ◌≤◌, IfOk, length, ⊤};
ghost use Rattle.plain_store.specs.Meaning.{seat_of};
ghost use Rattle.mv_history.specs.Calls.{Continues};
ghost use Rattle.section_work.specs.Attempts.{HasSpace};
ghost use Rattle.mv_client.specs.Updates.{Filled};

use crate::comparing::{assert_same, must};
use mv_client::{Outcome, begin, lock_all, put, read, update, update_at_most, update_until};
use mv_history::{AnyRules, Section, Store, Tag, View, Words};
use plain_store::PlainStore;
use section_work::{Cause, Decision, Place, Refusal};
use std::alloc::{AllocError, Global};
use std::sync::Wait;
use std::test::Fail;

// One object that says 7, at the time 40, with room for so many commits.
fn open(alloc: Global, room: u32) -> Result<PlainStore<AnyRules>, AllocError>
    ensures { IfOk result (λ s. length (seat_of s).start ≡ 1) }
{
    PlainStore::new(alloc, &[counted(7)], 40, room)
}

// The words of an object that says this.
fn counted(count: u64) -> Words {
    [count, 0, 0, 0, 0, 0]
}

// Counts one more in a section, up to `most`, where there is nothing to commit any more. The reply is the count that was read.
fn count<T: Section<Rules = AnyRules>>(
    section: &mut T,
    most: u64,
) -> Result<Decision<u64, Tag>, Refusal>
    requires object { 0 < length (T.state section.old) }
    requires space { HasSpace 1 (T.section section.old) }
    ensures filled { Filled (λ tag before writes. ⊤) (T.section section.old) (T.section section.new) result }
{
    let reply = section.read(0)[0];
    if most <= reply {
        return Ok(Decision::Settled(reply));
    }
    put(section, 0, counted(reply + 1))?;
    let plan = [0; 4];
    Ok(Decision::Change { plan, reply })
}

// Gives a section up, as where a lock was refused.
fn refuse<T: Section<Rules = AnyRules>>(
    section: &mut T,
    refusal: Refusal,
) -> Result<Decision<u64, Tag>, Refusal>
    requires object { 0 < length (T.state section.old) }
    ensures filled { Filled (λ tag before writes. ⊤) (T.section section.old) (T.section section.new) result }
{
    section.read(0);
    Err(refusal)
}

// What is read in one section.
fn look<S: Store<Rules = AnyRules>>(store: S) -> (S, Words)
    requires object { 0 < length (S.seat_of store).start }
    ensures continues { Continues (S.seat_of store) (S.seat_of result.0) }
{
    read(
        store,
        |section: &mut S::Open|
            requires object { 0 < length (S.Open.state section.old) }
            ensures only_reads { S.Open.as_before section.old section.new }
        { section.read(0) },
    )
}

// How many objects a section holds that locked object 0 twice, and what it reads there.
fn hold_twice<S: Store<Rules = AnyRules>>(store: S) -> (S, u32, Words)
    requires object { 0 < length (S.seat_of store).start }
    requires write_max { 2 ≤ (S.seat_of store).write_max }
    requires spare { 2 ≤ (S.seat_of store).spare }
{
    let mut section = begin(store);
    let held = match lock_all(&mut section, &[0, 0]) {
        Ok(()) => section.held(),
        Err(_) => 0,
    };
    let words = section.read(0);
    (section.abort(), held, words)
}

// One update that counts.
fn count_once<S: Store<Rules = AnyRules>>(store: S, most: u64) -> (S, Outcome<u64>)
    requires object { 0 < length (S.seat_of store).start }
    requires write_max { 1 ≤ (S.seat_of store).write_max }
    ensures continues { Continues (S.seat_of store) (S.seat_of result.0) }
{
    update(
        store,
        |section: &mut S::Open|
            requires object { 0 < length (S.Open.state section.old) }
            requires space { HasSpace 1 (S.Open.section section.old) }
            ensures filled { Filled (λ tag before writes. ⊤) (S.Open.section section.old) (S.Open.section section.new) result }
        { count(section, most) },
    )
}

// Updates that count, so often at most.
fn count_at_most<S: Store<Rules = AnyRules>>(store: S, tries: u32, most: u64) -> (S, Outcome<u64>)
    requires some { 0 < tries }
    requires object { 0 < length (S.seat_of store).start }
    requires write_max { 1 ≤ (S.seat_of store).write_max }
    ensures continues { Continues (S.seat_of store) (S.seat_of result.0) }
{
    update_at_most(
        store,
        tries,
        |section: &mut S::Open|
            requires object { 0 < length (S.Open.state section.old) }
            requires space { HasSpace 1 (S.Open.section section.old) }
            ensures filled { Filled (λ tag before writes. ⊤) (S.Open.section section.old) (S.Open.section section.new) result }
        { count(section, most) },
    )
}

// Updates until it is counted.
fn count_until<R: Wait, S: Store<Rules = AnyRules>>(
    rt: &R,
    store: S,
    most: u64,
) -> (S, Option<(u64, Place)>)
    requires object { 0 < length (S.seat_of store).start }
    requires write_max { 1 ≤ (S.seat_of store).write_max }
    ensures continues { Continues (S.seat_of store) (S.seat_of result.0) }
{
    update_until(
        rt,
        store,
        |section: &mut S::Open|
            requires object { 0 < length (S.Open.state section.old) }
            requires space { HasSpace 1 (S.Open.section section.old) }
            ensures filled { Filled (λ tag before writes. ⊤) (S.Open.section section.old) (S.Open.section section.new) result }
        { count(section, most) },
    )
}

// Updates, so often at most, whose closure gives each section up.
fn give_up<S: Store<Rules = AnyRules>>(store: S, tries: u32, refusal: Refusal) -> (S, Outcome<u64>)
    requires some { 0 < tries }
    requires object { 0 < length (S.seat_of store).start }
    ensures continues { Continues (S.seat_of store) (S.seat_of result.0) }
{
    update_at_most(
        store,
        tries,
        |section: &mut S::Open|
            requires object { 0 < length (S.Open.state section.old) }
            ensures filled { Filled (λ tag before writes. ⊤) (S.Open.section section.old) (S.Open.section section.new) result }
        { refuse(section, refusal) },
    )
}

#[test]
fn a_read_has_the_opening_words(rt: HostRuntime) -> Result<(), Fail> {
    let (_store, words) = look(open(rt.alloc(), 1)?);
    assert_same(&rt, &words, &counted(7), "the words");
    Ok(())
}

#[test]
fn a_lock_holds_an_object_once_and_keeps_its_words(rt: HostRuntime) -> Result<(), Fail> {
    let (_store, held, words) = hold_twice(open(rt.alloc(), 1)?);
    assert_same(&rt, &held, &1, "objects that are held");
    assert_same(&rt, &words, &counted(7), "the words");
    Ok(())
}

#[test]
fn an_update_is_one_commit_and_is_read(rt: HostRuntime) -> Result<(), Fail> {
    let (store, done) = count_once(open(rt.alloc(), 2)?, 100);
    must(
        &rt,
        matches!(
            done,
            Outcome::Done {
                reply: 7,
                place: Place::Commit(41)
            }
        ),
        "the first answer",
    );
    let (store, done) = count_once(store, 100);
    must(
        &rt,
        matches!(
            done,
            Outcome::Done {
                reply: 8,
                place: Place::Commit(42)
            }
        ),
        "the second answer",
    );
    let (_store, words) = look(store);
    assert_same(&rt, &words, &counted(9), "the words");
    Ok(())
}

#[test]
fn nothing_to_commit_is_a_read(rt: HostRuntime) -> Result<(), Fail> {
    let (store, done) = count_once(open(rt.alloc(), 2)?, 7);
    must(
        &rt,
        matches!(
            done,
            Outcome::Done {
                reply: 7,
                place: Place::Read(40)
            }
        ),
        "the first answer",
    );
    let (_store, words) = look(store);
    assert_same(&rt, &words, &counted(7), "the words");
    Ok(())
}

#[test]
fn no_time_is_left_for_a_commit(rt: HostRuntime) -> Result<(), Fail> {
    let (store, _done) = count_once(open(rt.alloc(), 1)?, 100);
    let (store, end) = count_once(store, 100);
    must(&rt, matches!(end, Outcome::End), "the first answer");
    let (_store, words) = look(store);
    assert_same(&rt, &words, &counted(8), "the words");
    Ok(())
}

#[test]
fn at_most_so_many_tries_are_done_at_the_first(rt: HostRuntime) -> Result<(), Fail> {
    let (store, done) = count_at_most(open(rt.alloc(), 1)?, 3, 100);
    must(
        &rt,
        matches!(
            done,
            Outcome::Done {
                reply: 7,
                place: Place::Commit(41)
            }
        ),
        "the first answer",
    );
    let (store, settled) = count_at_most(store, 3, 8);
    must(
        &rt,
        matches!(
            settled,
            Outcome::Done {
                reply: 8,
                place: Place::Read(41)
            }
        ),
        "the second answer",
    );
    let (store, end) = count_at_most(store, 3, 100);
    must(&rt, matches!(end, Outcome::End), "the third answer");
    let (_store, words) = look(store);
    assert_same(&rt, &words, &counted(8), "the words");
    Ok(())
}

#[test]
fn a_refused_lock_is_the_last_answer(rt: HostRuntime) -> Result<(), Fail> {
    let refusal = Refusal::Busy { object: 0, seat: 3 };
    let (store, again) = give_up(open(rt.alloc(), 1)?, 3, refusal);
    must(
        &rt,
        matches!(
            again,
            Outcome::Again(Cause::Lock(Refusal::Busy { object: 0, seat: 3 }))
        ),
        "the first answer",
    );
    let (_store, words) = look(store);
    assert_same(&rt, &words, &counted(7), "the words");
    Ok(())
}

#[test]
fn until_it_is_done(rt: HostRuntime) -> Result<(), Fail> {
    let (store, done) = count_until(&rt, open(rt.alloc(), 1)?, 100);
    must(
        &rt,
        matches!(done, Some((7, Place::Commit(41)))),
        "the first answer",
    );
    let (store, settled) = count_until(&rt, store, 8);
    must(
        &rt,
        matches!(settled, Some((8, Place::Read(41)))),
        "the second answer",
    );
    let (store, none) = count_until(&rt, store, 100);
    must(&rt, none.is_none(), "the third answer");
    let (_store, words) = look(store);
    assert_same(&rt, &words, &counted(8), "the words");
    Ok(())
}
