//! The office.
use boxes::Keeper;
use sigv4::LastKey;
use std::alloc::Global;

/// An office over a keeper.
#[derive(Drop)]
pub struct Office<K> {
    /// Stores what the office holds.
    pub keeper: K,
    /// The allocator for each answer.
    pub alloc: Global,
    // The signing key of the last link. Most links use the same key as the link before.
    pub(crate) last_key: LastKey,
}

impl<K: Keeper> Office<K> {
    ghost use Rattle.std.specs.Prelude.{◌≡◌};

    /// An office over this keeper, which stays as it is.
    pub fn new(alloc: Global, keeper: K) -> Office<K>
        ensures { result.keeper ≡ keeper }
    {
        Office {
            keeper,
            alloc,
            last_key: LastKey::new(),
        }
    }
}
