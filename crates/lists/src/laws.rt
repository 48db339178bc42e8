//! Facts about the names of exported files, for callers to cite.
ghost use Rattle.std.specs.Prelude.{◌≡◌, ◌≢◌, ℕ, ◌-◌, ◌^◌, ◌<◌, codes, length, List, slice_index};
ghost use Rattle.boxes.specs.Sound.{IsBoxName};
ghost use Rattle.boxes.specs.State.{Place};
ghost use Rattle.lists.specs.Exports.{IsPath};
ghost use Rattle.lists.specs.Names.{IsExportName, IsFolderName};

/// A number and a name have only one exported name, and an exported name has only one number. So files with different receipts
/// have different exported names.
pub fn law_of_names()
    ensures name { (n : ℕ) (name text other : List ℕ) → IsExportName n name text
        → IsExportName n name other → text ≡ other }
    ensures number { (m n : ℕ) (a b text : List ℕ) → m < 2 ^ 64 → n < 2 ^ 64
        → IsExportName m a text → IsExportName n b text → m ≡ n }
{}

/// A box's folder has the box's name, if the name neither begins nor ends with a dot and is not the name of a list.
pub fn law_of_folders()
    ensures { (box text : List ℕ) → IsBoxName box → box ≢ codes "files.csv"
        → box ≢ codes "sha256sums" → slice_index box 0 ≢ 46
        → slice_index box (length box - 1) ≢ 46 → IsFolderName box text → text ≡ box }
{}

/// A path has no line feed and no backslash, so `SHA256SUMS` needs no escapes.
pub fn law_of_paths()
    ensures { (place : Place) (number : ℕ) (path : List ℕ) → number < 2 ^ 64
        → IsPath place number path → (i : ℕ) → i < length path
        → (slice_index path i ≢ 10) × (slice_index path i ≢ 92) }
{}
