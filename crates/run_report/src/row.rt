// The text of a line, which is made from its end on in a row of bytes on the stack.
ghost use Rattle.std.specs.Prelude.{◌≡◌, ◌+◌, ◌≤◌, ◌∷◌, ◌++◌, codes, decimal, drop};
ghost use Rattle.run_report.specs.Text.{text_of_line, text_of_place, text_of_answer, text_of_reply};

use crate::line::Line;
use itoa::write_digits;
use section_work::Place;
use set_model::Reply;

/// How many bytes a row has. A line has at most 66.
pub(crate) const ROW: usize = 96;

/// Puts the text of a line at the end of the row, and answers where it begins.
pub(crate) fn put_line(row: &mut [u8; ROW], line: &Line) -> usize
    ensures within { result ≤ 96 }
    ensures text { drop result row.new ≡ text_of_line line.now }
{
    let at = put(row, ROW, b'\n');
    let at = put_reply(row, at, line.reply);
    let at = put(row, at, b' ');
    let at = put_place(row, at, &line.place);
    let at = put(row, at, b' ');
    let at = put_number(row, at, line.number as u64);
    let at = put(row, at, b'.');
    put_number(row, at, line.seat as u64)
}

// Puts a byte ahead of what ends the row from `end` on, and answers where it stands.
#[inline(always)]
fn put(row: &mut [u8; ROW], end: usize, byte: u8) -> usize
    requires { (1 ≤ end) × (end ≤ 96) }
    ensures at { result + 1 ≡ end }
    ensures text { drop result row.new ≡ byte ∷ drop end row.old }
{
    let at = end - 1;
    row[at] = byte;
    at
}

// Puts the decimal digits of a number there.
#[inline(always)]
fn put_number(row: &mut [u8; ROW], end: usize, number: u64) -> usize
    requires { (20 ≤ end) × (end ≤ 96) }
    ensures at { (result ≤ end) × (end ≤ result + 20) }
    ensures text { drop result row.new ≡ decimal number ++ drop end row.old }
{
    write_digits(number, row, end)
}

// Puts a place there.
#[inline(always)]
fn put_place(row: &mut [u8; ROW], end: usize, place: &Place) -> usize
    requires { (21 ≤ end) × (end ≤ 96) }
    ensures at { (result ≤ end) × (end ≤ result + 21) }
    ensures text { drop result row.new ≡ text_of_place place.now ++ drop end row.old }
{
    let (kind, time) = match place {
        Place::Commit(time) => (b'c', *time),
        Place::Read(time) => (b'r', *time),
    };
    let at = put_number(row, end, time);
    put(row, at, kind)
}

// Puts a reply there.
#[inline(always)]
fn put_reply(row: &mut [u8; ROW], end: usize, reply: Reply) -> usize
    requires { (20 ≤ end) × (end ≤ 96) }
    ensures at { (result ≤ end) × (end ≤ result + 20) }
    ensures text { drop result row.new ≡ text_of_reply reply ++ drop end row.old }
{
    match reply {
        Reply::Yes => put_answer(row, end, true),
        Reply::No => put_answer(row, end, false),
        Reply::Full => put_word(row, end, *b"full"),
        Reply::Worn => put_word(row, end, *b"worn"),
        Reply::Both { first, second } => {
            let at = put_answer(row, end, second);
            let at = put(row, at, b' ');
            put_answer(row, at, first)
        }
        Reply::Count { count } => put_number(row, end, count),
        Reply::Key { key } => put_number(row, end, key as u64),
        Reply::NoKey => put_word(row, end, *b"none"),
        Reply::Value { value } => put_number(row, end, value),
    }
}

// Puts whether a set has a key there.
#[inline(always)]
fn put_answer(row: &mut [u8; ROW], end: usize, has: bool) -> usize
    requires { (3 ≤ end) × (end ≤ 96) }
    ensures at { (result ≤ end) × (end ≤ result + 3) }
    ensures text { drop result row.new ≡ text_of_answer has ++ drop end row.old }
{
    if has {
        let at = put(row, end, b's');
        let at = put(row, at, b'e');
        put(row, at, b'y')
    } else {
        let at = put(row, end, b'o');
        put(row, at, b'n')
    }
}

// Puts a word of four bytes there.
#[inline(always)]
fn put_word(row: &mut [u8; ROW], end: usize, word: [u8; 4]) -> usize
    requires { (4 ≤ end) × (end ≤ 96) }
    ensures at { result + 4 ≡ end }
    ensures text { drop result row.new ≡ word ++ drop end row.old }
{
    let at = put(row, end, word[3]);
    let at = put(row, at, word[2]);
    let at = put(row, at, word[1]);
    put(row, at, word[0])
}
