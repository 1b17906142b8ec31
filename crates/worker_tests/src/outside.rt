// The calls that take memory, and the system's files and streams.
ghost use Rattle.std.specs.Prelude.{IsSome};

use crate::comparing::{assert_same, must};
use host_io::{Files, RealErr, RealFiles, RealOut, Sink};
use memory_io::{MemFiles, MemSink, MemText};
use std::alloc::{AllocError, Global};
use std::fs;
use std::process::Abort;
use std::test::Fail;

// A piece, and how many of its bytes a call takes. None: the call fails.
type Piece = (&'static [u8], Option<usize>);

// Writes the pieces, one after another.
fn write_all<S: Sink>(rt: &impl Abort, sink: &mut S, rows: &[Piece]) {
    for (piece, count) in rows {
        must(rt, 0 < piece.len(), "a piece");
        let name = str::from_utf8(piece).unwrap_or("a piece");
        assert_same(rt, &sink.write(piece).ok(), count, name);
    }
}

// Three bytes a call at most, in all five; the second call fails.
static PIECES: [Piece; 4] = [
    (b"abcd", Some(3)),
    (b"d", None),
    (b"def", Some(2)),
    (b"f", None),
];

#[test]
fn writes_to_memory_until_the_room_is_spent(rt: HostRuntime) -> Result<(), Fail> {
    let mut sink = MemSink::new(rt.alloc(), 5, 3, Vec::from_array(rt.alloc(), [2])?)?;
    write_all(&rt, &mut sink, &PIECES);
    assert_same(&rt, &sink.bytes(), &b"abcde".as_slice(), "all five");
    Ok(())
}

// Opens a text, behind one that isn't there.
fn opens<F: Files>(rt: &impl Abort, files: &mut F, absent: &str, name: &str)
    ensures { IsSome (F.opened files.new) }
{
    must(rt, files.open(absent).is_err(), "no text of the name");
    must(rt, files.open(name).is_ok(), "a text of the name");
}

// Reads into the buffer from this place on, and looks how many bytes come. None: the call fails.
fn reads<F: Files>(
    rt: &impl Abort,
    files: &mut F,
    buffer: &mut [u8],
    from: usize,
    count: Option<usize>,
)
    requires { IsSome (F.opened files.old) }
    ensures { IsSome (F.opened files.new) }
{
    must(rt, from < buffer.len(), "room");
    let found = files.read(&mut buffer[from..]).ok();
    assert_same(rt, &found, &count, "how many bytes come");
}

// A file of three bytes, of which two come in a call, and the third call fails.
fn abc(alloc: Global) -> Result<MemFiles, AllocError> {
    let mut texts = Vec::new(alloc);
    texts.push(MemText {
        name: String::from_str(alloc, "a")?,
        bytes: b"abc".to_vec(alloc)?,
    })?;
    Ok(MemFiles::new(texts, 2, Vec::from_array(alloc, [3])?))
}

#[test]
fn reads_from_memory_to_the_end(rt: HostRuntime) -> Result<(), Fail> {
    let mut files = abc(rt.alloc())?;
    let mut buffer = [0u8; 4];
    opens(&rt, &mut files, "b", "a");
    reads(&rt, &mut files, &mut buffer, 0, None);
    reads(&rt, &mut files, &mut buffer, 0, Some(2));
    reads(&rt, &mut files, &mut buffer, 2, Some(1));
    reads(&rt, &mut files, &mut buffer, 3, Some(0));
    assert_same(&rt, &buffer, b"abc\0", "the bytes");
    Ok(())
}

// Reads a file of three bytes.
fn reads_abc<F: Files>(rt: &impl Abort, files: &mut F, path: &str) {
    let mut buffer = [0u8; 8];
    opens(rt, files, "host_io_test_absent.txt", path);
    reads(rt, files, &mut buffer, 0, Some(3));
    reads(rt, files, &mut buffer, 3, Some(0));
    assert_same(rt, &&buffer[..3], &b"abc".as_slice(), "the bytes");
}

#[test]
fn reads_a_file_of_the_system(rt: HostRuntime) -> Result<(), Fail> {
    let path = "host_io_test.txt";
    fs::write(&rt, path, b"abc".as_slice())?;
    reads_abc(&rt, &mut RealFiles::new(&rt), path);
    fs::remove_file(&rt, path)?;
    Ok(())
}

#[test]
fn writes_to_standard_output(rt: HostRuntime) -> Result<(), Fail> {
    let mut out = RealOut::new(&rt);
    assert_same(&rt, &out.write(b"out\n").ok(), &Some(4), "the bytes");
    Ok(())
}

#[test]
fn writes_text_to_standard_error(rt: HostRuntime) -> Result<(), Fail> {
    let mut err = RealErr::new(&rt);
    assert_same(&rt, &err.write(b"err\n").ok(), &Some(4), "a text");
    must(&rt, err.write(&[255]).is_err(), "no text is refused");
    Ok(())
}
