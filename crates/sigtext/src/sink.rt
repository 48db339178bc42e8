//! Sinks, which take bytes piece by piece.
ghost use Rattle.std.specs.Prelude.{◌≡◌, ℕ, Bool, true, List, [], ◌++◌, IsOk, OnOk, OnErr};

use std::alloc::AllocError;

/// A sink takes the bytes of a text, piece by piece.
pub trait ByteSink {
    /// The first sink becomes the second by taking these bytes.
    ghost takes: { Self → List ℕ → Self → Type 0 };

    /// No call of `take` fails.
    ghost never_fails: { Bool };

    /// Takes the bytes, after those that it has. The only error is a lack of memory. Then it takes none of them.
    fn take(&mut self, bytes: &[u8]) -> Result<(), AllocError>
        ensures ok { OnOk result (takes self.old bytes.now self.new) }
        ensures err { OnErr result (takes self.old [] self.new) }
        ensures sure { never_fails ≡ true → IsOk result };

    /// Taking no bytes may leave a sink unchanged.
    ghost nothing: { (s : Self) → takes s [] s };

    /// Taking one text and then another is taking both, joined.
    ghost joins: { (s t u : Self) (a b : List ℕ) → takes s a t → takes t b u → takes s (a ++ b) u };
}

impl ByteSink for Vec<u8> {
    ghost use Rattle.std.specs.Prelude.{◌≡◌, ◌++◌, ◌+◌, ◌<◌, [], false, length, OnOk, OnErr, vec_capacity, vec_len};
    ghost use Rattle.sigtext.specs.Sinks.{appends_nothing, appends_both};

    ghost takes = { λ v bytes w. w.items ≡ v.items ++ bytes };

    ghost never_fails = { false };

    fn take(&mut self, bytes: &[u8]) -> Result<(), AllocError>
        ensures ok { OnOk result (self.new.items ≡ self.old.items ++ bytes.now) }
        ensures err { OnErr result (self.new.items ≡ self.old.items ++ []) }
        ensures full { OnErr result (vec_capacity self.old < vec_len self.old + length bytes.now) }
    {
        self.extend_from_slice(bytes)
    }

    ghost nothing = { λ v. appends_nothing v.items };

    ghost joins = { λ v w x a b p q. appends_both v.items w.items x.items a b p q };
}
