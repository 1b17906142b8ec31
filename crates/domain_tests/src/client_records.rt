// Fields and records, over a plain store.
ghost use Rattle.std.specs.Prelude.{◌≡◌, ◌<◌, ◌≤◌, IfOk, length};
ghost use Rattle.plain_store.specs.Meaning.{seat_of};

use crate::comparing::{assert_same, must};
use mv_client::{Field, Record, begin, put_record, read_record};
use mv_history::{AnyRules, Section, Store, View, Words};
use plain_store::PlainStore;
use std::alloc::{AllocError, Global};
use std::test::Fail;

// A record with a field of each kind.
#[derive(Clone, Copy, PartialEq, Eq)]
struct Page {
    next: Option<u32>,
    is_open: bool,
    lines: (u32, u32),
    kind: u32,
    time: u64,
}

impl Record for Page {
    ghost use Rattle.std.specs.Prelude.{◌^◌, ◌<◌, ◌≤◌, ◌∷◌, [], slice_index};
    ghost use Rattle.mv_client.specs.Fields.{IsLink, IsPair, link_word, link_of, bool_word, bool_of, pair_word, pair_of};
    ghost use Rattle.mv_client.specs.Fields.{link_words, bool_words, pair_words, link_reads_back, bool_reads_back, pair_reads_back};

    ghost words_of = { λ r. link_word r.next ∷ bool_word r.is_open ∷ pair_word r.lines ∷ r.kind ∷ r.time ∷ 0 ∷ [] };

    ghost record_of = { λ words. record {
      next = link_of (slice_index words 0);
      is_open = bool_of (slice_index words 1);
      lines = pair_of (slice_index words 2);
      kind = slice_index words 3;
      time = slice_index words 4;
    } };

    ghost is_record = { λ r. IsLink r.next × IsPair r.lines × (r.kind < 2 ^ 32) × (r.time < 2 ^ 64) };

    ghost are_words = { λ words. (slice_index words 0 ≤ 2 ^ 32) × (slice_index words 1 < 2) × (slice_index words 2 < 2 ^ 64)
        × (slice_index words 3 < 2 ^ 32) × (slice_index words 4 < 2 ^ 64) };

    fn to_words(self) -> Words {
        [
            self.next.to_word(),
            self.is_open.to_word(),
            self.lines.to_word(),
            self.kind.to_word(),
            self.time,
            0,
        ]
    }

    fn from_words(words: Words) -> Page {
        Page {
            next: Option::from_word(words[0]),
            is_open: bool::from_word(words[1]),
            lines: <(u32, u32)>::from_word(words[2]),
            kind: u32::from_word(words[3]),
            time: words[4],
        }
    }

    ghost words = { λ r is. (link_words r.next is.0, bool_words r.is_open, pair_words r.lines is.1, is.2, is.3) };

    ghost reads_back = { λ r is. λ i. record {
      next = link_reads_back r.next i;
      is_open = bool_reads_back r.is_open i;
      lines = pair_reads_back r.lines is.1 i;
      kind = r.kind;
      time = r.time;
    } };
}

// The first page, and the words that stand for it: the link to object 7 is the word 8, and the lines 3 to 5 are 5 * 2^32 + 3.
const PAGE: Page = Page {
    next: Some(7),
    is_open: true,
    lines: (3, 5),
    kind: 2,
    time: 1 << 40,
};

const PAGE_WORDS: Words = [8, 1, 21474836483, 2, 1099511627776, 0];

// One object of these words.
fn open(alloc: Global, words: Words) -> Result<PlainStore<AnyRules>, AllocError>
    ensures { IfOk result (λ s. length (seat_of s).start ≡ 1) }
{
    PlainStore::new(alloc, &[words], 40, 1)
}

// A value, from its word.
fn there_and_back<T: Field>(value: T) -> T
    ensures { result ≡ value }
{
    T::from_word(value.to_word())
}

// What a section reads that put this record, and its words, or nothing where the lock was refused.
fn put_and_read<S: Store<Rules = AnyRules>, T: Record>(
    store: S,
    value: T,
) -> (S, Option<(T, Words)>)
    requires object { 0 < length (S.seat_of store).start }
    requires write_max { 1 ≤ (S.seat_of store).write_max }
    requires spare { 1 ≤ (S.seat_of store).spare }
{
    let mut section = begin(store);
    let put = match put_record(&mut section, 0, value) {
        Ok(()) => Some((read_record(&mut section, 0), section.read(0))),
        Err(_) => None,
    };
    (section.abort(), put)
}

#[test]
fn each_field_is_read_as_it_was_written(rt: HostRuntime) -> Result<(), Fail> {
    let numbers = (there_and_back(u64::MAX), there_and_back(u32::MAX));
    assert_same(&rt, &numbers, &(u64::MAX, u32::MAX), "numbers");
    let truths = (there_and_back(true), there_and_back(false));
    assert_same(&rt, &truths, &(true, false), "truths");
    let links = (there_and_back(Some(u32::MAX)), there_and_back(None));
    assert_same(&rt, &links, &(Some(u32::MAX), None::<u32>), "links");
    let pair = there_and_back((1_u32, u32::MAX));
    assert_same(&rt, &pair, &(1, u32::MAX), "a pair");
    Ok(())
}

#[test]
fn a_section_reads_the_record_that_it_put(rt: HostRuntime) -> Result<(), Fail> {
    let (_store, put) = put_and_read(open(rt.alloc(), [0; 6])?, PAGE);
    must(
        &rt,
        put == Some((PAGE, PAGE_WORDS)),
        "a record and its words",
    );
    Ok(())
}
