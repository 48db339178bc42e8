//! A text that is one line, from a file or from standard input.
ghost use Rattle.std.specs.Prelude.{◌≡◌, ◌++◌, ◌+◌, ◌↔◌, IfOk, IfSome, IsSomeAnd, IsTrue, List, option_map, take, ℕ};
ghost use Rattle.tasks.specs.Lines.{IsEnd, IsLineOf, IsRest, IsShortLineOf, IsWithoutEnd};

use std::alloc::Global;
use std::io;
use std::io::Read;

/// The line that the text consists of, without its end, which is LF, CR LF or nothing. `None` if the text is
/// not exactly one line. Takes no memory.
pub fn line_in(text: &[u8]) -> Option<&[u8]>
    ensures line { IfSome result (λ line. IsLineOf text.now line.now) }
    ensures only { (line : List ℕ) → IsLineOf text.now line
        → IsSomeAnd result (λ found. found.now ≡ line) }
{
    let (line, end) = split_at_end(text);
    if is_end(end) { Some(line) } else { None }
}

// Whether this is the end of a line, with nothing after it.
fn is_end(text: &[u8]) -> bool
    ensures { IsTrue result ↔ IsEnd text.now }
{
    if text.is_empty() {
        return true;
    }
    text == b"\n".as_slice() || text == b"\r\n".as_slice()
}

// The bytes before the first LF or CR, and the rest from there on.
fn split_at_end(text: &[u8]) -> (&[u8], &[u8])
    ensures whole { text.now ≡ result.0.now ++ result.1.now }
    ensures front { IsWithoutEnd result.0.now }
    ensures back { IsRest result.1.now }
{
    let end = text
        .iter()
        .position(|byte| matches!(byte, b'\n' | b'\r'))
        .unwrap_or(text.len());
    text.split_at(end)
}

/// The line that the whole text of a reader consists of, if it is one line of at most `most` bytes; otherwise
/// `None`. Reads at most `most` + 3 bytes, which is enough to tell.
pub fn read_line<R: Read + Drop>(alloc: Global, reader: R, most: u16) -> io::Result<Option<Vec<u8>>>
    ensures line { IfOk result
        (λ found. IfSome (R.remaining reader)
        (λ text. IsShortLineOf most text (option_map (λ line. line.items) found))) }
{
    let mut text = Vec::new(alloc);
    // Two bytes for the end of the line, and one to see whether anything follows.
    reader.take(u64::from(most) + 3).read_to_end(&mut text)?;
    match short_line_in(text.as_slice(), most) {
        Some(line) => Ok(Some(Vec::from_slice(alloc, line)?)),
        None => Ok(None),
    }
}

// The line of a text that begins with `start`, which is the whole text or its first `most` + 3 bytes.
fn short_line_in(start: &[u8], most: u16) -> Option<&[u8]>
    ensures { (text : List ℕ) → start.now ≡ take (most + 3) text
        → IsShortLineOf most text (option_map (λ line. line.now) result) }
{
    let line = line_in(start)?;
    if line.len() <= usize::from(most) {
        Some(line)
    } else {
        None
    }
}
