//! Writing a whole text.
ghost use Rattle.std.specs.Prelude.{◌≡◌, IfErr};
ghost use Rattle.sigtext.specs.Counts.{CountsErrors};
ghost use Rattle.wire.specs.Sending.{Sends};

use crate::counted::Counted;
use crate::fault::WireFault;
use std::io::Write;

/// Writes the whole text, by as many writes as it takes. The first write that fails, or takes no bytes, ends
/// it. There is no retry.
///
/// # Errors
///
/// `Write` if that happened. A prefix of the text was then written.
pub fn send<W: Write>(text: &[u8], writer: &mut Counted<W>) -> Result<(), WireFault>
    ensures sent { Sends text.now (W.contents writer.old.inner)
        (W.contents writer.new.inner) result }
    ensures count { CountsErrors writer.old.faults writer.new.faults result }
    ensures fault { IfErr result (λ f. f ≡ WireFault.Write) }
{
    let mut sent = 0;
    'text: while sent < text.len() {
        match writer.write(&text[sent..]) {
            Ok(0) => return Err(WireFault::Write),
            Ok(n) => sent += n,
            Err(_) => return Err(WireFault::Write),
        }
    }
    Ok(())
}
