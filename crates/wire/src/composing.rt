//! Joining texts in a buffer.
ghost use Rattle.std.specs.Prelude.{◌≡◌, ◌≤◌, length, take};
ghost use Rattle.std.specs.List.{flat_map};

// Puts the pieces, one after another, to the front of the buffer. Returns their total length.
pub(crate) fn join(pieces: &[&[u8]], out: &mut [u8]) -> usize
    requires { length (flat_map (λ piece. piece.now) pieces.now) ≤ length out.old }
    ensures within { result ≤ length out.old }
    ensures long { result ≡ length (flat_map (λ piece. piece.now) pieces.now) }
    ensures joined { take result out.new ≡ flat_map (λ piece. piece.now) pieces.now }
{
    let mut len = 0;
    'pieces: for piece in pieces {
        let end = len + piece.len();
        out[len..end].copy_from_slice(piece);
        len = end;
    }
    len
}
