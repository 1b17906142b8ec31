// What the calls of lists and tables do when they run.
ghost use Rattle.std.specs.Prelude.{◌≡◌, ℕ, ◌+◌, ◌<◌, true, Some};
ghost use Rattle.set_model.specs.Lawful.{IsLawful};
ghost use Rattle.list_set.specs.Filling.{IsFilled};
ghost use Rattle.list_set.specs.declared.answers.SetStep.TheVariants.{Yes, No};
ghost use Rattle.list_set.specs.declared.answers.Removed.TheVariants.{Took, Absent};

use crate::asked::Asked::{Get, Has, Next, Size};
use crate::asked::{Asked, Object, expect_words};
use crate::comparing::{assert_row, must};
use crate::opening::open_lists;
use list_set::{Removed, SetStep};
use mv_history::{Section, View};
use std::process::Abort;
use std::test::*;

// The structure whose calls a case makes.
#[derive(Clone, Copy)]
enum Kind {
    List,
    Table,
}

// A case: what is done to the list or table 1, in this order, and what is found then.
struct Case {
    name: &'static str,
    kind: Kind,
    // The keys that are added, with ten times themselves as values, in nodes 180, 181 and 182.
    added: [u32; 3],
    // A key, the value that it has, and the one that it is given.
    put: (u32, u64, u64),
    // A key that is there, and isn't added again.
    again: u32,
    // A key that isn't there, and isn't taken out.
    absent: u32,
    // A key that is taken out, and its node.
    taken: (u32, u32),
    // Questions of lists or tables, by their numbers.
    asked: [(u32, Asked); 9],
    left: &'static [Object],
}

static CASES: [Case; 2] = [
    Case {
        name: "the order of a list, a put and a del",
        kind: Kind::List,
        added: [1, 3, 2],
        put: (2, 20, 7),
        again: 3,
        absent: 4,
        taken: (3, 181),
        asked: [
            (1, Has(2, true)),
            (1, Has(3, false)),
            (1, Get(2, Some(7))),
            (1, Get(3, None)),
            (1, Next(0, Some(1))),
            (1, Next(2, Some(2))),
            (1, Next(3, None)),
            (1, Size(2)),
            (169, Size(0)),
        ],
        // The head, the nodes of 1 and 2, and the one that was of 3.
        left: &[
            (1, [0, 0, 0, 180, 0, 0]),
            (180, [2, 0, 1, 182, 0, 10]),
            (182, [2, 0, 2, 0, 0, 7]),
            (181, [0; 6]),
        ],
    },
    Case {
        name: "two buckets of a table, of which 19 and 3 share one",
        kind: Kind::Table,
        added: [19, 3, 20],
        put: (3, 30, 7),
        again: 20,
        absent: 4,
        taken: (19, 180),
        asked: [
            (1, Has(20, true)),
            (1, Has(19, false)),
            (1, Get(3, Some(7))),
            (1, Get(19, None)),
            (1, Next(0, Some(3))),
            (1, Next(4, Some(20))),
            (1, Next(21, None)),
            (1, Size(2)),
            (9, Size(0)),
        ],
        // Two heads, the nodes of 3 and 20, and the one that was of 19.
        left: &[
            (29, [0, 0, 0, 181, 0, 0]),
            (30, [0, 0, 0, 182, 0, 0]),
            (181, [30, 0, 3, 0, 0, 7]),
            (182, [31, 0, 20, 0, 0, 200]),
            (180, [0; 6]),
        ],
    },
];

// Adds a key, in the node behind those that may be filled.
fn add<S: Section>(section: &mut S, kind: Kind, key: u32, value: u64, filled: u32) -> SetStep
    requires few { filled < 6 }
    requires filled { IsFilled (S.section section.old) filled }
    ensures no { result ≡ No → IsFilled (S.section section.new) filled }
    ensures yes { result ≡ Yes → IsFilled (S.section section.new) (filled + 1) }
{
    let node = 180 + filled;
    match kind {
        Kind::List => list_set::add_in(section, 1, key, value, node),
        Kind::Table => hash_set::add_in(section, 1, key, value, node),
    }
}

// Gives a key this value, if the key is there.
fn put<S: Section>(section: &mut S, kind: Kind, key: u32, value: u64) -> Option<SetStep>
    requires filled { IsFilled (S.section section.old) 3 }
    ensures no { result ≡ Some No → IsFilled (S.section section.new) 3 }
    ensures yes { result ≡ Some Yes → IsFilled (S.section section.new) 4 }
{
    match kind {
        Kind::List => {
            if !list_set::has_in(section, 1, key) {
                return None;
            }
            Some(list_set::put_in(section, 1, key, value))
        }
        Kind::Table => {
            if !hash_set::has_in(section, 1, key) {
                return None;
            }
            Some(hash_set::put_in(section, 1, key, value))
        }
    }
}

// Takes a key out.
fn del<S: Section>(section: &mut S, kind: Kind, key: u32) -> Removed
    requires filled { IsFilled (S.section section.old) 4 }
    ensures absent { result ≡ Absent → IsFilled (S.section section.new) 4 }
    ensures took { (node inner : ℕ) → result ≡ Took node inner → IsLawful (S.state section.new) }
{
    match kind {
        Kind::List => list_set::del_in(section, 1, key),
        Kind::Table => hash_set::del_in(section, 1, key),
    }
}

// Adds the keys of a case. Whether each was new.
fn add_all<S: Section>(section: &mut S, case: &Case) -> bool
    requires filled { IsFilled (S.section section.old) 0 }
    ensures { result ≡ true → IsFilled (S.section section.new) 3 }
{
    for i in 0..3 {
        let key = case.added[i];
        let SetStep::Yes = add(section, case.kind, key, key as u64 * 10, i as u32) else {
            return false;
        };
    }
    true
}

// Puts the value that a key has, and then another one. Whether the second alone changes something.
fn put_twice<S: Section>(section: &mut S, case: &Case) -> bool
    requires filled { IsFilled (S.section section.old) 3 }
    ensures { result ≡ true → IsFilled (S.section section.new) 4 }
{
    let (key, old, new) = case.put;
    let Some(SetStep::No) = put(section, case.kind, key, old) else {
        return false;
    };
    matches!(put(section, case.kind, key, new), Some(SetStep::Yes))
}

// Adds a key that is there, and takes out one that isn't. Whether neither changes anything.
fn change_nothing<S: Section>(section: &mut S, case: &Case) -> bool
    requires filled { IsFilled (S.section section.old) 4 }
    ensures { result ≡ true → IsFilled (S.section section.new) 4 }
{
    let SetStep::No = add(section, case.kind, case.again, 7, 4) else {
        return false;
    };
    matches!(del(section, case.kind, case.absent), Removed::Absent)
}

// Takes a key out. Whether it stood in its node.
fn take_out<S: Section>(section: &mut S, case: &Case) -> bool
    requires filled { IsFilled (S.section section.old) 4 }
    ensures { result ≡ true → IsLawful (S.state section.new) }
{
    let Removed::Took { node, inner: 0 } = del(section, case.kind, case.taken.0) else {
        return false;
    };
    node == case.taken.1
}

// Makes the changes of a case. Whether each call answers as it should.
fn change<S: Section>(section: &mut S, case: &Case) -> bool
    requires filled { IsFilled (S.section section.old) 0 }
    ensures { result ≡ true → IsLawful (S.state section.new) }
{
    add_all(section, case)
        && put_twice(section, case)
        && change_nothing(section, case)
        && take_out(section, case)
}

// Asks a list one question. Whether its answer is the one that is wanted.
fn ask_list<V: View>(view: &mut V, head: u32, asked: Asked) -> bool
    requires head_in { head < 170 }
    requires lawful { IsLawful (V.state view.old) }
    ensures { V.as_before view.old view.new }
{
    match asked {
        Has(key, found) => list_set::has_in(view, head, key) == found,
        Get(key, value) => list_set::get_in(view, head, key) == value,
        Next(key, next) => list_set::next_in(view, head, key) == next,
        Size(count) => list_set::size_in(view, head) == count,
    }
}

// The same of a table.
fn ask_table<V: View>(view: &mut V, set: u32, asked: Asked) -> bool
    requires set_in { set < 10 }
    requires lawful { IsLawful (V.state view.old) }
    ensures { V.as_before view.old view.new }
{
    match asked {
        Has(key, found) => hash_set::has_in(view, set, key) == found,
        Get(key, value) => hash_set::get_in(view, set, key) == value,
        Next(key, next) => hash_set::next_in(view, set, key) == next,
        Size(count) => hash_set::size_in(view, set) == count,
    }
}

// The same of either.
fn ask<V: View>(rt: &impl Abort, view: &mut V, kind: Kind, set: u32, asked: Asked) -> bool
    requires lawful { IsLawful (V.state view.old) }
    ensures { V.as_before view.old view.new }
{
    match kind {
        Kind::List => {
            must(rt, set < 170, "a head");
            ask_list(view, set, asked)
        }
        Kind::Table => {
            must(rt, set < 10, "a table");
            ask_table(view, set, asked)
        }
    }
}

// Asks the questions of a case, one after another.
fn ask_all<V: View>(rt: &impl Abort, view: &mut V, case: &Case)
    requires lawful { IsLawful (V.state view.old) }
{
    for (row, (set, asked)) in case.asked.iter().enumerate() {
        let answers = ask(rt, view, case.kind, *set, *asked);
        assert_row(rt, &answers, &true, case.name, row);
    }
}

// Plays a case in a new section.
fn play<S: Section>(rt: &impl Abort, mut section: S, case: &Case) -> S::Back
    requires filled { IsFilled (S.section section) 0 }
{
    must(rt, change(&mut section, case), case.name);
    ask_all(rt, &mut section, case);
    expect_words(rt, &mut section, case.left);
    section.abort()
}

#[test]
fn lists_and_tables(rt: HostRuntime) -> Result<(), Fail> {
    for case in &CASES {
        let _store = play(&rt, open_lists(rt.alloc(), 186)?, case);
    }
    Ok(())
}
