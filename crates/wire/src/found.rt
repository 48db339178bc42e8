//! The answer with a file: its head and its bytes (RFC 9112, section 4).
ghost use Rattle.std.specs.Prelude.{◌≡◌, ◌++◌, ◌<◌, ◌≤◌, length, take, IfErr};
ghost use Rattle.hex.specs.Hex.{encode_lower};
ghost use Rattle.sigtext.specs.Counts.{CountsErrors};
ghost use Rattle.wire.specs.Answers as said;
ghost use Rattle.wire.specs.Answers.{answer_text, file_head};
ghost use Rattle.wire.specs.Sending.{Sends};

use crate::composing::join;
use crate::counted::Counted;
use crate::fault::WireFault;
use crate::sending::send;
use hex::encode_to_slice;
use std::io::Write;

// The most bytes that are sent together: a file's head and its first bytes.
const MOST_FRONT: usize = 4096;

// Writes the answer with a file. The head is sent together with as many of the file's bytes as fit. The other
// bytes follow.
pub(crate) fn put_file<W: Write>(
    number: u64,
    digest: [u8; 32],
    bytes: &[u8],
    is_head: bool,
    writer: &mut Counted<W>,
) -> Result<(), WireFault>
    ensures sent { Sends (answer_text is_head (said.Found number (encode_lower digest) bytes.now))
        (W.contents writer.old.inner) (W.contents writer.new.inner) result }
    ensures count { CountsErrors writer.old.faults writer.new.faults result }
    ensures fault { IfErr result (λ f. f ≡ WireFault.Write) }
{
    let mut text = [0; MOST_FRONT];
    if is_head {
        let len = head_text(number, digest, bytes, &mut text);
        return send(&text[..len], writer);
    }
    let (len, rest) = front_text(number, digest, bytes, &mut text);
    match send(&text[..len], writer) {
        Ok(()) => send(rest, writer),
        Err(fault) => Err(fault),
    }
}

// Puts a file's head, and as many of the file's bytes as fit, to the front of the buffer. Returns the length
// of both, and the other bytes.
fn front_text<'a>(
    number: u64,
    digest: [u8; 32],
    bytes: &'a [u8],
    out: &mut [u8; MOST_FRONT],
) -> (usize, &'a [u8])
    ensures within { result.0 ≤ MOST_FRONT }
    ensures text { take result.0 out.new ++ result.1.now ≡ file_head number
        (encode_lower digest) bytes.now ++ bytes.now }
    ensures full { 0 < length result.1.now → result.0 ≡ MOST_FRONT }
{
    let head = head_text(number, digest, bytes, out);
    let (first, rest) = bytes.split_at(bytes.len().min(MOST_FRONT - head));
    let len = head + first.len();
    out[head..len].copy_from_slice(first);
    (len, rest)
}

// Puts a file's head to the front of the buffer. Returns its length.
fn head_text(number: u64, digest: [u8; 32], bytes: &[u8], out: &mut [u8; MOST_FRONT]) -> usize
    ensures within { result ≤ MOST_FRONT }
    ensures text { take result out.new ≡ file_head number (encode_lower digest) bytes.now }
{
    let mut length_digits = itoa::Buffer::new();
    let mut number_digits = itoa::Buffer::new();
    let length_text = length_digits.format(bytes.len()).as_bytes();
    let number_text = number_digits.format(number).as_bytes();
    join(
        &[
            b"HTTP/1.1 200 OK\r\nContent-Type: application/octet-stream\r\nContent-Length: ",
            length_text,
            b"\r\nX-Drop-Receipt: ",
            number_text,
            b"\r\nX-Drop-Sha256: ",
            &hex_digits(digest),
            b"\r\n\r\n",
        ],
        out,
    )
}

/// The 64 hexadecimal digits of a digest, in lower case.
pub fn hex_digits(digest: [u8; 32]) -> [u8; 64]
    ensures { result ≡ encode_lower digest }
{
    let mut digits = [0; 64];
    let _ = encode_to_slice(digest, &mut digits);
    digits
}
