//! Requests that memory is taken for.
ghost use Rattle.std.specs.Prelude.{◌≡◌, IsFalse, IsTrue};
ghost use Rattle.sigtext.specs.Readable.{IsReadable};
ghost use Rattle.sigtext.specs.Request.{Request};

use crate::methods::Method;
use crate::six::has_names;
use sigtext::Target;

/// Whether memory is taken for a request with this method and target: the method is served, the target can be read, one of the
/// six signing parameters is present, and no other name begins with `X-Amz-`. Takes no memory.
pub fn is_readable(method: &[u8], target: &[u8]) -> bool
    ensures told { IsTrue result → (r : Request) → r.method ≡ method.now → r.target ≡ target.now → IsReadable r }
    ensures denied { IsFalse result → (r : Request) → r.method ≡ method.now → r.target ≡ target.now → IsReadable r → ⊥ }
{
    if Method::read(method).is_none() {
        return false;
    }
    match Target::read(target) {
        Ok(target) => has_names(&target),
        Err(_) => false,
    }
}
