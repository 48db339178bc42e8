//! A keeper that caches the answers of another keeper.
ghost use Rattle.std.specs.Prelude.{◌≡◌, ◌↔◌, ℕ, List, IsErr, OnErr};
ghost use Rattle.boxes.specs.State.{State};
ghost use Rattle.shelf.specs.Recalled.{Recalls};

use crate::cache::Cache;
use boxes::{KeepFault, Keeper};
use std::alloc::Global;

/// Caches the inner keeper's settings, keys, boxes, totals of boxes, and next receipt number. All other calls go to the inner
/// keeper. A change makes the cache forget what it may affect. An upload updates the totals and the next receipt number
/// instead. After a fault the cache is emptied, so a store that shut itself is asked again and refuses.
#[derive(Drop)]
pub struct CachedKeeper<K> {
    pub(crate) keeper: K,
    pub(crate) cache: Cache,
}

impl<K: Keeper> CachedKeeper<K> {
    /// Wraps a keeper, with an empty cache.
    pub fn new(alloc: Global, keeper: K) -> CachedKeeper<K>
        ensures same { result.keeper ≡ keeper }
        ensures means { (s : State) → (⟦<CachedKeeper<K> as Keeper>⟧.means result s ↔ K.means keeper s) }
        ensures honest { ⟦<CachedKeeper<K> as Keeper>⟧.is_honest result ↔ K.is_honest keeper }
        ensures opened { ⟦<CachedKeeper<K> as Keeper>⟧.is_open result ↔ K.is_open keeper }
        ensures count { ⟦<CachedKeeper<K> as Keeper>⟧.faults result ≡ K.faults keeper }
        ensures store { ⟦<CachedKeeper<K> as Keeper>⟧.has_store ↔ K.has_store }
        ensures staged { (bytes : List ℕ) → (⟦<CachedKeeper<K> as Keeper>⟧.stages result bytes
            ↔ K.stages keeper bytes) }
        ensures leaves { (t : State) → (⟦<CachedKeeper<K> as Keeper>⟧.leaves result t ↔ K.leaves keeper t) }
        ensures whole { ⟦<CachedKeeper<K> as Keeper>⟧.leaves_whole result ↔ K.leaves_whole keeper }
        ensures rests { (t : State) → (⟦<CachedKeeper<K> as Keeper>⟧.rests result t ↔ K.rests keeper t) }
        ensures rests_whole { ⟦<CachedKeeper<K> as Keeper>⟧.rests_whole result ↔ K.rests_whole keeper }
        ensures alone { ⟦<CachedKeeper<K> as Keeper>⟧.is_alone result ↔ K.is_alone keeper }
    {
        CachedKeeper {
            keeper,
            cache: Cache::new(alloc),
        }
    }

    /// Gives the inner keeper back.
    pub fn into_inner(self) -> K
        ensures same { result ≡ self.keeper }
        ensures alone { ⟦<CachedKeeper<K> as Keeper>⟧.is_alone self → K.is_alone result }
        ensures rests { (t : State) → (⟦<CachedKeeper<K> as Keeper>⟧.rests self t ↔ K.rests result t) }
        ensures rests_whole { ⟦<CachedKeeper<K> as Keeper>⟧.rests_whole self ↔ K.rests_whole result }
    {
        let CachedKeeper { keeper, cache: _ } = self;
        keeper
    }
}

/// Returns the inner keeper's answer. An error empties the cache.
pub(crate) fn or_forget<T>(cache: &mut Cache, answer: Result<T, KeepFault>) -> Result<T, KeepFault>
    ensures same { result ≡ answer }
    ensures stays { (s : State) → Recalls cache.old s → Recalls cache.new s }
    ensures forgot { OnErr result ((s : State) → Recalls cache.new s) }
{
    if answer.is_err() {
        *cache = Cache::new(cache.alloc);
    }
    answer
}
