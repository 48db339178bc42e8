//! The state at the beginning of a run of the loop.

use std::marker::Brand;

/// The state when a run began; it only exists in proofs. S: a connection as it was accepted; E: one of its
/// ends.
pub trait Start<S, E> {
    ghost use Rattle.std.specs.Prelude.{ℕ, List};
    ghost use Rattle.sockets.specs.Listening.{Event};

    /// What the listener had told.
    ghost told: { List (Event S E) → Type 0 };

    /// How many connections were to come.
    ghost connections: { ℕ };

    /// How many connections might be open at a time.
    ghost most: { ℕ };
}

impl<S, E> Start<S, E> for Brand {
    ghost use Rattle.std.specs.Prelude.{⊤};

    ghost told = { λ _. ⊤ };

    ghost connections = { 0 };

    ghost most = { 0 };
}
