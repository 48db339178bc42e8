//! The export of an office's files.
ghost use Rattle.std.specs.Prelude.{◌≡◌, ◌∷◌, [], ◌++◌, IfErr, IfOk, IfSome, List, option_map, Some};
ghost use Rattle.std.specs.FinMap.{entries, get};
ghost use Rattle.sigtext.specs.Counts.{CountsErrors};
ghost use Rattle.boxes.specs.Rows.{IsFileAt};
ghost use Rattle.boxes.specs.Sound.{IsSound};
ghost use Rattle.boxes.specs.State.{place_cmp, File, State};
ghost use Rattle.boxes.specs.Bound.{StaysBy};
ghost use Rattle.boxes.specs.Next.{IsNext};
ghost use Rattle.wire.specs.Sending.{Sends};
ghost use Rattle.lists.specs.Asking.{Meant};
ghost use Rattle.lists.specs.Lists.{line};
ghost use Rattle.lists.specs.Places.{place_in};
ghost use Rattle.lists.specs.Exports.{export_head, files_in, named_box, shown, start_in, Exports, IsAmong, IsIn, SendsFiles, SendsFirst};
ghost use Rattle.lists.specs.Faults.{by_files, by_keeper, by_sums, if_put, IsOfAsking, IsOfWriting};
ghost use Rattle.lists.specs.Folders.{Adds};
ghost use Rattle.lists.specs.Names.{IsComponent};

use crate::export_fault::ExportFault;
use crate::folder::Folder;
use crate::texts::{EXPORT_HEAD, ExportTexts, export_texts};
use crate::{FilePlace, ListFault, next_file, send_line};
use boxes::{FileRow, Rolls};
use std::alloc::Global;
use std::io::Write;
use wire::{Counted, send};

// The place before all files of this box. Without a box, the place before all files.
fn first_place(alloc: Global, in_box: Option<&[u8]>) -> Result<FilePlace, ExportFault>
    ensures start { IfOk result (λ p. place_in p ≡ start_in (named_box in_box.entry)) }
    ensures memory { IfErr result (λ f. f ≡ ExportFault.Memory) }
{
    let in_box = match in_box {
        Some(in_box) => match Vec::from_slice(alloc, in_box) {
            Ok(in_box) => in_box,
            Err(_) => return Err(ExportFault::Memory),
        },
        None => Vec::new(alloc),
    };
    Ok(FilePlace {
        in_box,
        name: Vec::new(alloc),
    })
}

// The first file after this place.
fn next_of_all<K: Rolls>(
    alloc: Global,
    keeper: &mut K,
    after: &FilePlace,
) -> Result<Option<FilePlace>, ExportFault>
    ensures next { (s : State) → Meant K.Keeper keeper.old keeper.new s → IfOk result (λ found.
        IsNext place_cmp (IsAmong s.files) (place_in after.now) (option_map place_in found)) }
    ensures stays { StaysBy K.Keeper keeper.old keeper.new (by_keeper result) }
    ensures fault { IfErr result IsOfAsking }
{
    match next_file(alloc, keeper, &after.in_box, &after.name) {
        Ok(found) => Ok(found),
        Err(ListFault::Keep(fault)) => Err(ExportFault::Keep(fault)),
        Err(_) => Err(ExportFault::Memory),
    }
}

// The first file of the box after this name.
fn next_of_box<K: Rolls>(
    alloc: Global,
    keeper: &mut K,
    in_box: &[u8],
    name: &[u8],
) -> Result<Option<FilePlace>, ExportFault>
    ensures next { (s : State) → Meant K.Keeper keeper.old keeper.new s → IfOk result (λ found.
        IsNext place_cmp (IsAmong (files_in (Some in_box.now) s))
        (record { box = in_box.now; name = name.now }) (option_map place_in found)) }
    ensures inside { IfOk result (λ found. IfSome found (λ p. p.in_box.items ≡ in_box.now)) }
    ensures stays { StaysBy K.Keeper keeper.old keeper.new (by_keeper result) }
    ensures fault { IfErr result IsOfAsking }
{
    match keeper.file_after(in_box, name) {
        Ok(Some(next)) => match Vec::from_slice(alloc, in_box) {
            Ok(in_box) => Ok(Some(FilePlace { in_box, name: next })),
            Err(_) => Err(ExportFault::Memory),
        },
        Ok(None) => Ok(None),
        Err(fault) => Err(ExportFault::Keep(fault)),
    }
}

// The first file of the box after this place. Without a box, the first of all files after it.
fn next_place<K: Rolls>(
    alloc: Global,
    keeper: &mut K,
    in_box: Option<&[u8]>,
    after: &FilePlace,
) -> Result<Option<FilePlace>, ExportFault>
    requires { IsIn (named_box in_box) (place_in after.now) }
    ensures next { (s : State) → Meant K.Keeper keeper.old keeper.new s → IfOk result (λ found.
        IsNext place_cmp (IsAmong (files_in (named_box in_box.entry) s))
        (place_in after.now) (option_map place_in found)) }
    ensures inside { IfOk result (λ found.
        IfSome found (λ p. IsIn (named_box in_box.entry) (place_in p))) }
    ensures stays { StaysBy K.Keeper keeper.old keeper.new (by_keeper result) }
    ensures fault { IfErr result IsOfAsking }
{
    match in_box {
        Some(in_box) => next_of_box(alloc, keeper, in_box, &after.name),
        None => next_of_all(alloc, keeper, after),
    }
}

// The file at this place.
fn file_at<K: Rolls>(keeper: &mut K, place: &FilePlace) -> Result<FileRow, ExportFault>
    ensures value { (s : State) → Meant K.Keeper keeper.old keeper.new s
        → IfOk result (λ file. IsFileAt s (place_in place.now) (Some file)) }
    ensures stays { StaysBy K.Keeper keeper.old keeper.new (by_keeper result) }
    ensures fault { IfErr result IsOfAsking }
{
    match keeper.file(&place.in_box, &place.name) {
        Ok(Some(file)) => Ok(file),
        Ok(None) => Err(ExportFault::Memory),
        Err(fault) => Err(ExportFault::Keep(fault)),
    }
}

// Puts a file, and writes its row and its sum.
fn write_file<F: Folder, W: Write, V: Write>(
    texts: &ExportTexts,
    file: &FileRow,
    folder: &mut F,
    files: &mut Counted<W>,
    sums: &mut Counted<V>,
) -> Result<(), ExportFault>
    requires folder { IsComponent texts.now.path.folder.items }
    requires name { IsComponent texts.now.path.name.items }
    ensures put { Adds (F.holds folder.old) (F.holds folder.new) (if_put result (record {
      path = texts.now.path.folder.items ++ 47 ∷ texts.now.path.name.items;
      bytes = file.now.bytes.items;
    } ∷ [])) }
    ensures row { Sends (if_put result texts.now.row.items)
        (W.contents files.old.inner) (W.contents files.new.inner) result }
    ensures sum { Sends (if_put result texts.now.sum.items)
        (V.contents sums.old.inner) (V.contents sums.new.inner) result }
    ensures files_count { CountsErrors files.old.faults files.new.faults (by_files result) }
    ensures sums_count { CountsErrors sums.old.faults sums.new.faults (by_sums result) }
    ensures fault { IfErr result IsOfWriting }
{
    if let Err(fault) = folder.put(&texts.path.folder, &texts.path.name, &file.bytes) {
        return Err(ExportFault::Put(fault));
    }
    if let Err(_) = send(&texts.row, files) {
        return Err(ExportFault::Files);
    }
    match send(&texts.sum, sums) {
        Ok(()) => Ok(()),
        Err(_) => Err(ExportFault::Sums),
    }
}

// Exports the file at this place.
fn export_file<K: Rolls, F: Folder, W: Write, V: Write>(
    alloc: Global,
    keeper: &mut K,
    place: &FilePlace,
    folder: &mut F,
    files: &mut Counted<W>,
    sums: &mut Counted<V>,
) -> Result<(), ExportFault>
    ensures sent { (s : State) → Meant K.Keeper keeper.old keeper.new s → (f : File)
        → get s.files (place_in place.now) ≡ Some f
        → SendsFiles s (if_put result ((place_in place.now, f) ∷ []))
        (shown (F.holds folder.old) (W.contents files.old.inner) (V.contents sums.old.inner))
        (shown (F.holds folder.new) (W.contents files.new.inner) (V.contents sums.new.inner)) result }
    ensures stays { StaysBy K.Keeper keeper.old keeper.new (by_keeper result) }
    ensures files_count { CountsErrors files.old.faults files.new.faults (by_files result) }
    ensures sums_count { CountsErrors sums.old.faults sums.new.faults (by_sums result) }
{
    let file = file_at(keeper, place)?;
    let texts = export_texts(alloc, place, &file)?;
    write_file(&texts, &file, folder, files, sums)
}

// Exports the files of this box, or all files.
fn export_files<K: Rolls, F: Folder, W: Write, V: Write>(
    alloc: Global,
    keeper: &mut K,
    in_box: Option<&[u8]>,
    folder: &mut F,
    files: &mut Counted<W>,
    sums: &mut Counted<V>,
) -> Result<(), ExportFault>
    ensures sent { (s : State) → Meant K.Keeper keeper.old keeper.new s
        → SendsFirst s (entries (files_in (named_box in_box.entry) s))
        (shown (F.holds folder.old) (W.contents files.old.inner) (V.contents sums.old.inner))
        (shown (F.holds folder.new) (W.contents files.new.inner) (V.contents sums.new.inner)) result }
    ensures stays { StaysBy K.Keeper keeper.old keeper.new (by_keeper result) }
    ensures files_count { CountsErrors files.old.faults files.new.faults (by_files result) }
    ensures sums_count { CountsErrors sums.old.faults sums.new.faults (by_sums result) }
{
    let mut after = first_place(alloc, in_box)?;
    'files: for _ in 0..u64::MAX {
        let Some(place) = next_place(alloc, keeper, in_box, &after)? else {
            return Ok(());
        };
        export_file(alloc, keeper, &place, folder, files, sums)?;
        after = place;
    }
    Err(ExportFault::Memory)
}

// Writes the header line of `files.csv`.
fn send_head<W: Write>(alloc: Global, files: &mut Counted<W>) -> Result<(), ExportFault>
    ensures sent { Sends (line export_head)
        (W.contents files.old.inner) (W.contents files.new.inner) result }
    ensures files_count { CountsErrors files.old.faults files.new.faults (by_files result) }
    ensures sums_count { by_sums result ≡ Ok tt }
    ensures keeper { by_keeper result ≡ Ok tt }
{
    match send_line(alloc, &EXPORT_HEAD, files) {
        Ok(()) => Ok(()),
        Err(ListFault::Write) => Err(ExportFault::Files),
        Err(_) => Err(ExportFault::Memory),
    }
}

/// Exports the current files of an office, or those of one box, sorted by box and then by name. The path of a file is the
/// folder of its box (`folder_name`) and its name there (`export_name`). `files` gets a row per file under the header line
/// `path,box,name,receipt,length,sha256,moment,key`: the path, the box, the name, the receipt's number, the length in bytes,
/// the digest in 64 lower-case hex digits, the moment like `20130524T000000Z`, and the id of the key that uploaded the file.
/// `sums` gets a line per file that `sha256sum` can check: the digest, two spaces and the path.
///
/// # Errors
///
/// `Keep` if the keeper failed, `Put` if a file could not be put, `Files` or `Sums` if a write failed, `Memory` if memory ran
/// out. The earlier files are then in the folder, and a beginning of their rows and their sums is written.
pub fn export<K: Rolls, F: Folder, W: Write, V: Write>(
    alloc: Global,
    keeper: &mut K,
    in_box: Option<&[u8]>,
    folder: &mut F,
    files: &mut Counted<W>,
    sums: &mut Counted<V>,
) -> Result<(), ExportFault>
    ensures exports { (s : State) → K.means keeper.old s → IsSound s → K.is_honest keeper.new
        → Exports s (entries (files_in (named_box in_box.entry) s))
        (shown (F.holds folder.old) (W.contents files.old.inner) (V.contents sums.old.inner))
        (shown (F.holds folder.new) (W.contents files.new.inner) (V.contents sums.new.inner)) result }
    ensures stays { StaysBy K.Keeper keeper.old keeper.new (by_keeper result) }
    ensures files_count { CountsErrors files.old.faults files.new.faults (by_files result) }
    ensures sums_count { CountsErrors sums.old.faults sums.new.faults (by_sums result) }
{
    send_head(alloc, files)?;
    export_files(alloc, keeper, in_box, folder, files, sums)
}
