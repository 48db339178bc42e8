//! Texts whose bytes all pass one test.
ghost use Rattle.std.specs.Prelude.{◌≡◌, ◌↔◌, ◌<◌, ℕ, Bool, IsTrue};
ghost use Rattle.sigtext.specs.Bytes.{IsWord, is_visible};

/// Whether the text has 1 to `most` bytes, and each passes the test.
pub fn is_word<F: Fn(u8) -> bool>(text: &[u8], most: usize, passes: F) -> bool
    requires { F.IsAlwaysCallable passes }
    ensures { (test : ℕ → Bool)
        → ((b : ℕ) (answer : Bool) → b < 256 → F.post passes b answer → answer ≡ test b)
        → IsTrue result ↔ IsWord test most text.now }
{
    if text.is_empty() || text.len() > most {
        return false;
    }
    for byte in text {
        if !passes(*byte) {
            return false;
        }
    }
    true
}

/// Whether the byte is 0x21 to 0x7E.
pub fn is_visible(byte: u8) -> bool
    ensures { result ≡ is_visible byte }
{
    matches!(byte, 0x21..=0x7E)
}
