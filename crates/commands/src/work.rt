//! The work of a command on an office.
ghost use Rattle.std.specs.Prelude.{OnOk};
ghost use Rattle.std.specs.Io.KnownBytes.{Appends};
ghost use Rattle.boxes.specs.State.{State};
ghost use Rattle.commands.specs.Asking.{Asked};
ghost use Rattle.commands.specs.Working.{Passes};

use crate::faults::Fault;
use boxes::Rolls;
use std::io::Write;

/// The work of a command on an office. It owns the keeper while it works, so that a clause can say what became of it.
pub trait OfficeWork {
    /// What the work gives: its result, and what it was handed besides the keeper.
    type Gain: Drop;

    /// What the work did, from a state of the office to the state after, and what it was asked there.
    ghost step: { Self → Self.Gain → State → State → Asked → Type 0 };

    /// What it gives where nothing was done.
    ghost idle: { Self → Self.Gain → Type 0 };

    /// Does the work on the office of a keeper. Returns what it gives, and the keeper.
    fn run<K: Rolls>(self, rt: &HostRuntime, keeper: K) -> (Self::Gain, K)
        ensures { Passes K.Keeper keeper result.1 (step self result.0) };

    /// What the work gives where the office could not be opened.
    fn refuse(self, fault: Fault) -> Self::Gain
        ensures { idle self result };
}

/// The result of a work, and its output. There is no output if memory was refused for its buffer.
#[derive(Drop)]
pub struct Done<W: Drop> {
    /// The result.
    pub result: Result<(), Fault>,
    /// The output.
    pub out: Option<W>,
}

/// Writes a text and flushes the output.
///
/// # Errors
///
/// The output failed. A beginning of the text may have been written.
pub(crate) fn say<W: Write>(out: &mut W, text: &[u8]) -> Result<(), Fault>
    ensures { OnOk result (Appends (W.contents out.old) (W.contents out.new) text.now) }
{
    if out.write_all(text).is_err() || out.flush().is_err() {
        return Err(Fault::CannotWrite);
    }
    Ok(())
}
