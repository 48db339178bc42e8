//! A list of connections.
use crate::clocks::Clock;
use crate::office::Office;
use boxes::Keeper;
use std::io::{Read, Write};
use wire::Counted;

impl<K: Keeper> Office<K> {
    ghost use Rattle.std.specs.Prelude.{◌≤◌};
    ghost use Rattle.boxes.specs.Keeping.{KeepsGroup};
    ghost use Rattle.boxes.specs.State.{State};
    ghost use Rattle.office.specs.Connections.{Runs};
    ghost use Rattle.office.specs.Premise.{IsLeft, StaysUnstaged, WasKept};

    /// Serves the connections one after another, each by a session. Returns how many sessions ended by a
    /// failed read or write. If messages are answered with refusal 40, the run is also a run without them:
    /// the other messages get the same answers, and the state after is the same.
    ///
    /// If the keeper was open and no connection gave up, exactly that one state is kept. Changes survive a
    /// crash: if nothing was given up except at a failed read, a crash afterwards leaves the state after. In
    /// any case it leaves that state, or that state with one more request: one that a connection gave up,
    /// done at its moment.
    ///
    /// An upload acts once over a run. Suppose an upload got a receipt, whether its answer was written or
    /// lost. A later upload of the same bytes to the same place gets the same receipt and changes nothing, if
    /// rules 7 to 26 hold for it and it is not answered with 40, unless other bytes were put there in between
    /// or the file was dropped. This holds even after the box has closed, and if it is full.
    pub fn run<R: Read, W: Write, C: Clock>(
        &mut self,
        connections: &mut [(Counted<R>, Counted<W>)],
        clock: &mut C,
    ) -> u64
        ensures runs { (s : State) → WasKept K.Keeper self.old.keeper self.new.keeper s
            → (after : State) × IsLeft (K.means self.new.keeper) after
            × Runs C.now_gives R.remaining W.contents clock.old clock.new
            connections.old connections.new
            K.Keeper self.old.keeper self.new.keeper s after result }
        ensures honest { K.is_honest self.new.keeper → K.is_honest self.old.keeper }
        ensures group { KeepsGroup K.is_alone K.gathers self.old.keeper self.new.keeper }
        ensures unstaged { StaysUnstaged K.Keeper self.old.keeper self.new.keeper }
        ensures never_less { K.faults self.old.keeper ≤ K.faults self.new.keeper }
    {
        let mut faulty = 0;
        'connections: for connection in connections.iter_mut() {
            let end = self.session(&mut connection.0, &mut connection.1, clock);
            if end.is_fault() {
                faulty += 1;
            }
        }
        faulty
    }
}
