// Reading the texts of files.
ghost use Rattle.std.specs.Prelude.{◌≡◌, ◌≤◌, ◌<◌, [], ℕ, Some, length, map, slice_get, string_bytes, All, IfErr, IfOk, IsOk, IsTrue};
ghost use Rattle.host_io.specs.Outside.{HasText, IsTold};
ghost use Rattle.script_files.specs.Reading.{AreFirstTexts, IsTextAt, text_of};
ghost use Rattle.script_files.specs.Scripts.{FirstStands, IsReadText, NoText, NoneFailed, NoneFails};

use crate::stop::{MOST_BYTES, Stop};
use host_io::{Failed, Files};
use std::alloc::{AllocError, Global};

// How many bytes of a text are read at once, at most.
const PIECE_BYTES: usize = 65_536;

/// What reading a text comes to where no call of the files fails.
#[derive(Drop)]
pub(crate) enum Text {
    /// All of it, within the limit.
    Whole(Vec<u8>),
    /// It has too many bytes.
    TooLong,
    /// There is no memory for it.
    NoMemory,
}

/// Reads the texts of the files of these names, one after another. An error is the first reason why one has none within
/// the limit: it can't be opened or read, has too many bytes, or there is no memory. Then the texts are those of the files
/// before it. Where a call failed, the file of which it did is told by the first place of its name.
pub fn read_texts<F: Files>(
    alloc: Global,
    files: &mut F,
    names: &[String],
    texts: &mut Vec<Vec<u8>>,
) -> Result<(), Stop>
    requires none { texts.old.items ≡ [] }
    requires few { length names.now ≤ 64 }
    ensures texts { AreFirstTexts (F.texts files.old) (map string_bytes names.now) (map text_of texts.new.items) }
    ensures all { IfOk result (λ _. length texts.new.items ≡ length names.now) }
    ensures few { length texts.new.items ≤ length names.now }
    ensures stop { IfErr result (λ stop.
        NoText stop (length texts.new.items) (F.texts files.old) (map string_bytes names.now) (F.faults files.old) (F.faults files.new)) }
    ensures steady { IfErr result (λ stop. NoneFails stop (F.steady files.old) (F.texts files.old) (map string_bytes names.now)) }
    ensures short { All (λ text. length text.items ≤ MOST_BYTES) texts.new.items }
{
    let mut piece = zeros(alloc, PIECE_BYTES)?;
    read_each(alloc, files, names, &mut piece, texts)
}

// The same, with room for one piece of a text.
fn read_each<F: Files>(
    alloc: Global,
    files: &mut F,
    names: &[String],
    piece: &mut [u8],
    texts: &mut Vec<Vec<u8>>,
) -> Result<(), Stop>
    requires room { 0 < length piece.old }
    requires none { texts.old.items ≡ [] }
    requires few { length names.now ≤ 64 }
    ensures texts { AreFirstTexts (F.texts files.old) (map string_bytes names.now) (map text_of texts.new.items) }
    ensures all { IfOk result (λ _. length texts.new.items ≡ length names.now) }
    ensures few { length texts.new.items ≤ length names.now }
    ensures stop { IfErr result (λ stop.
        NoText stop (length texts.new.items) (F.texts files.old) (map string_bytes names.now) (F.faults files.old) (F.faults files.new)) }
    ensures steady { IfErr result (λ stop. NoneFails stop (F.steady files.old) (F.texts files.old) (map string_bytes names.now)) }
    ensures short { All (λ text. length text.items ≤ MOST_BYTES) texts.new.items }
{
    for place in 0..names.len() {
        let text = copy_text(alloc, files, names, place, piece)?;
        texts.push(text)?;
    }
    Ok(())
}

// The text of the file of this place.
fn copy_text<F: Files>(
    alloc: Global,
    files: &mut F,
    names: &[String],
    place: usize,
    piece: &mut [u8],
) -> Result<Vec<u8>, Stop>
    requires place { place < length names.now }
    requires few { length names.now ≤ 64 }
    requires room { 0 < length piece.old }
    ensures text { IfOk result (λ text. IsTextAt (F.texts files.old) (map string_bytes names.now) place text.items) }
    ensures none { IfOk result (λ _. NoneFailed (F.faults files.old) (F.faults files.new)) }
    ensures stop { IfErr result (λ stop.
        NoText stop place (F.texts files.old) (map string_bytes names.now) (F.faults files.old) (F.faults files.new)) }
    ensures steady { IfErr result (λ stop. NoneFails stop (F.steady files.old) (F.texts files.old) (map string_bytes names.now)) }
    ensures texts { F.texts files.new ≡ F.texts files.old }
    ensures still { F.steady files.new ≡ F.steady files.old }
{
    let name = names[place].as_str();
    match read_text(alloc, files, name, piece) {
        Ok(Text::Whole(text)) => Ok(text),
        Ok(Text::TooLong) => Err(Stop::Bytes {
            script: place as u32,
        }),
        Ok(Text::NoMemory) => Err(Stop::Memory),
        Err(Failed) => Err(Stop::Read {
            script: first_place(names, name),
        }),
    }
}

// The place at which a name first stands.
fn first_place(names: &[String], name: &str) -> u32
    requires stands { (place : ℕ) × (slice_get (map string_bytes names.now) place ≡ Some name.now) }
    requires few { length names.now ≤ 64 }
    ensures { FirstStands (map string_bytes names.now) result name.now }
{
    for place in 0..names.len() {
        if names[place].as_str() == name {
            return place as u32;
        }
    }
    unreachable!()
}

/// Reads the text of this name a piece at a time, and no byte of it behind the first one that is too much.
fn read_text<F: Files>(
    alloc: Global,
    files: &mut F,
    name: &str,
    piece: &mut [u8],
) -> Result<Text, Failed>
    requires room { 0 < length piece.old }
    ensures text { IfOk result (λ text. IsReadText text (F.texts files.old) name.now) }
    ensures texts { F.texts files.new ≡ F.texts files.old }
    ensures still { F.steady files.new ≡ F.steady files.old }
    ensures told { IsTold (F.faults files.old) (F.faults files.new) name.now result }
    ensures succeeds { IsTrue (F.steady files.old) → HasText (F.texts files.old) name.now → IsOk result }
{
    files.open(name)?;
    let mut text = Vec::new(alloc);
    while text.len() <= MOST_BYTES {
        let room = piece.len().min(MOST_BYTES + 1 - text.len());
        let got = files.read(&mut piece[..room])?;
        if got == 0 {
            return Ok(Text::Whole(text));
        }
        if text.extend_from_slice(&piece[..got]).is_err() {
            return Ok(Text::NoMemory);
        }
    }
    Ok(Text::TooLong)
}

/// A buffer of zeros. The length is a variable here, since a proof would compute a list of a literal length.
pub fn zeros(alloc: Global, count: usize) -> Result<Vec<u8>, AllocError>
    ensures { IfOk result (λ buffer. length buffer.items ≡ count) }
{
    vec![in alloc; 0u8; count]
}
