//! Laws of the rules of boxes, for callers to cite.
ghost use Rattle.std.specs.Prelude.{◌≡◌, ◌≤◌, ◌↔◌, ℕ, List, Some, IsFalse};
ghost use Rattle.std.specs.FinMap.{get};
ghost use Rattle.boxes.specs.Clerks.{clerks};
ghost use Rattle.boxes.specs.Steps.{HasOtherClerk};
ghost use Rattle.boxes.specs.State.{Key, State};
ghost use Rattle.boxes.specs.Sound.{IsSound};
ghost use Rattle.boxes.specs.Changes.{MayChange};
ghost use Rattle.boxes.specs.declared.change.Change.{Change};

use crate::rows::Role;

/// Each change that the rules allow keeps the state sound: quotas and file limits hold, receipts have no gap, and each
/// file's receipt has the file's length and digest.
pub fn law_of_changes()
    ensures { (s after : State) (change : Change) → IsSound s → MayChange s change after
        → IsSound after }
{}

/// For an unrevoked clerk's key, another one exists exactly if there are two or more.
pub fn law_of_clerks()
    ensures { (s : State) (id : List ℕ) (k : Key) → get s.keys id ≡ Some k → k.role ≡ Role.Clerk
        → IsFalse k.revoked
        → (2 ≤ clerks s) ↔ HasOtherClerk s id }
{}
