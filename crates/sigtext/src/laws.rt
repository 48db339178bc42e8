//! Laws of canonical requests, for callers' proofs.
ghost use Rattle.std.specs.Prelude.{ℕ, List};
ghost use Rattle.sigtext.specs.CanonicalRequest.{Signed, IsCanonicalRequest};
ghost use Rattle.sigtext.specs.SameText.{IsPlain, AreSameSigned};

/// Canonical requests are unambiguous. Two requests with the same canonical text have the same method, path and signed
/// headers, and the same signed parameters in some order. So a part of one value can't be moved into the next header, nor a
/// parameter into the path, without changing the text.
pub fn law_text()
    ensures same { (a b : Signed) (text : List ℕ) → IsPlain a → IsPlain b
        → IsCanonicalRequest a text → IsCanonicalRequest b text → AreSameSigned a b }
{}
