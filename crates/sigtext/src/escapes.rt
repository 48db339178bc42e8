//! Texts that are decoded while they are read.
ghost use Rattle.std.specs.Prelude.{◌≡◌, ◌↔◌, IsTrue};
ghost use Rattle.percent_encoding.specs.Percent as percent;

use memchr::memchr;
use percent_encoding::percent_decode;

// Whether the text has no `%`, so it decodes to itself.
pub(crate) fn has_no_escape(text: &[u8]) -> bool
    ensures { IsTrue result → percent.percent_decode text.now ≡ text.now }
{
    memchr(b'%', text).is_none()
}

/// Whether the text decodes to these bytes.
pub fn decodes_to(text: &[u8], bytes: &[u8]) -> bool
    ensures { IsTrue result ↔ (percent.percent_decode text.now ≡ bytes.now) }
{
    if has_no_escape(text) {
        return text == bytes;
    }
    percent_decode(text).eq(bytes.iter().copied())
}
