//! The places of the files, in order.
ghost use Rattle.std.specs.Prelude.{IfErr, IfOk, option_map};
ghost use Rattle.boxes.specs.State.{place_cmp, Place, State};
ghost use Rattle.boxes.specs.Bound.{StaysBy};
ghost use Rattle.boxes.specs.Next.{IsFile, IsNext};
ghost use Rattle.lists.specs.Asking.{Meant};
ghost use Rattle.lists.specs.Lists.{by_keeper, IsOfAnswering};
ghost use Rattle.lists.specs.Places.{place_in, IsFirstPast};

use crate::ListFault;
use boxes::Rolls;
use std::alloc::Global;

/// The place of a file.
#[derive(Drop)]
pub struct FilePlace {
    /// The name of the box.
    pub in_box: Vec<u8>,
    /// The name of the file.
    pub name: Vec<u8>,
}

// The first file in the boxes after this one.
fn file_past<K: Rolls>(
    alloc: Global,
    keeper: &mut K,
    in_box: &[u8],
) -> Result<Option<FilePlace>, ListFault>
    ensures value { (s : State) → Meant K.Keeper keeper.old keeper.new s
        → IfOk result (λ found. IsFirstPast s in_box.now (option_map place_in found)) }
    ensures stays { StaysBy K.Keeper keeper.old keeper.new (by_keeper result) }
    ensures fault { IfErr result IsOfAnswering }
{
    let Ok(mut after) = Vec::from_slice(alloc, in_box) else {
        return Err(ListFault::Memory);
    };
    'boxes: for _ in 0..u64::MAX {
        let next = match keeper.box_after(&after) {
            Ok(Some(next)) => next,
            Ok(None) => return Ok(None),
            Err(fault) => return Err(ListFault::Keep(fault)),
        };
        match keeper.file_after(&next, b"") {
            Ok(Some(name)) => return Ok(Some(FilePlace { in_box: next, name })),
            Ok(None) => after = next,
            Err(fault) => return Err(ListFault::Keep(fault)),
        }
    }
    Err(ListFault::Memory)
}

/// The first file after this place, in the order of boxes and then names. There need not be a file at this place. Every file
/// comes after the place of two empty texts.
///
/// # Errors
///
/// `Keep` if the keeper failed, `Memory` if memory ran out.
pub fn next_file<K: Rolls>(
    alloc: Global,
    keeper: &mut K,
    in_box: &[u8],
    name: &[u8],
) -> Result<Option<FilePlace>, ListFault>
    ensures value { (s : State) → Meant K.Keeper keeper.old keeper.new s
        → IfOk result (λ found. IsNext place_cmp (IsFile s)
        (record { box = in_box.now; name = name.now }) (option_map place_in found)) }
    ensures stays { StaysBy K.Keeper keeper.old keeper.new (by_keeper result) }
    ensures fault { IfErr result IsOfAnswering }
{
    match keeper.file_after(in_box, name) {
        Ok(Some(next)) => match Vec::from_slice(alloc, in_box) {
            Ok(in_box) => Ok(Some(FilePlace { in_box, name: next })),
            Err(_) => Err(ListFault::Memory),
        },
        Ok(None) => file_past(alloc, keeper, in_box),
        Err(fault) => Err(ListFault::Keep(fault)),
    }
}
