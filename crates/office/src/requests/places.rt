//! The place that a path names.
ghost use Rattle.std.specs.Prelude.{◌≡◌, IfOk, drop};
ghost use Rattle.sigtext.specs.Request.{Request};
ghost use Rattle.links.specs.LinkReadings.{IsLinkOf};
ghost use Rattle.links.specs.WellFormed.{LinkValues};
ghost use Rattle.office.specs.Places.{place_at};
ghost use Rattle.office.specs.Rules.{place_of};

use links::LinkParts;
use sigtext::cut;
use std::alloc::{AllocError, Global};

/// The name of a box, and the name of a file in it.
#[derive(Clone, Copy)]
pub(crate) struct FilePlace<'a> {
    pub(crate) in_box: &'a [u8],
    pub(crate) name: &'a [u8],
}

/// The decoded path of a link.
pub(crate) fn decoded_path(alloc: Global, link: &LinkParts<'_>) -> Result<Vec<u8>, AllocError>
    ensures { (r : Request) (p : LinkValues) → IsLinkOf link.now r p
        → IfOk result (λ path. path.items ≡ p.path) }
{
    let mut path = Vec::new(alloc);
    link.path_into(&mut path)?;
    Ok(path)
}

// The bytes after the first.
fn behind_first(path: &[u8]) -> &[u8]
    ensures { result.now ≡ drop 1 path.now }
{
    match path.split_first() {
        Some((_, rest)) => rest,
        None => path,
    }
}

/// The place that a decoded path names. The box is between the first `/` and the second, or the end. The name
/// is everything after the second.
pub(crate) fn read_place(path: &[u8]) -> FilePlace<'_>
    ensures { place_at result ≡ place_of path.entry.now }
{
    let rest = behind_first(path);
    match cut(rest, b'/') {
        Some((in_box, name)) => FilePlace { in_box, name },
        None => FilePlace {
            in_box: rest,
            name: &[],
        },
    }
}
