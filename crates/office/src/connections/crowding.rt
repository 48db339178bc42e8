//! Connections that come and go while others are served.
ghost use Rattle.std.specs.Prelude.{◌≡◌};
ghost use Rattle.office.specs.Crowds.{is_fault_end};

use crate::clocks::Clock;
use crate::office::Office;
use boxes::Keeper;
use std::io::{Read, Write};
use wire::{Crowd, Due, Seat, SessionEnd, Spare};

// What a turn returns besides the slot.
#[derive(Drop)]
struct Turned {
    spare: Spare,
    is_fault: bool,
}

// Whether the connection ended by a failed read or write.
fn has_failed(end: Option<SessionEnd>) -> bool
    ensures { result ≡ is_fault_end end }
{
    match end {
        Some(end) => end.is_fault(),
        None => false,
    }
}

impl<K: Keeper> Office<K> {
    ghost use Rattle.std.specs.Prelude.{◌≤◌, ◌+◌, ◌++◌, ◌<◌, ℕ, List, length, slice_set, Option, None};
    ghost use Rattle.boxes.specs.Keeping.{KeepsGroup};
    ghost use Rattle.boxes.specs.State.{State};
    ghost use Rattle.wire.specs.Crowds.{GivenTurn, slot_at};
    ghost use Rattle.office.specs.Crowds.{ServesCrowd, TurnsSlot};
    ghost use Rattle.office.specs.Premise.{IsLeft, StaysUnstaged, WasKept};

    // Gives the connection of a slot a turn, if there is one.
    fn turn_slot<R: Read, W: Write, C: Clock>(
        &mut self,
        slot: &mut Option<Seat<R, W>>,
        due: Due,
        clock: &mut C,
    ) -> Turned
        ensures turns { (s : State) → WasKept K.Keeper self.old.keeper self.new.keeper s
            → (after : State) × IsLeft (K.means self.new.keeper) after
            × TurnsSlot C.now_gives R.remaining W.contents due.most clock.old clock.new
            K.Keeper self.old.keeper self.new.keeper s after slot.old slot.new result.is_fault }
        ensures honest { K.is_honest self.new.keeper → K.is_honest self.old.keeper }
        ensures group { KeepsGroup K.is_alone K.gathers self.old.keeper self.new.keeper }
        ensures unstaged { StaysUnstaged K.Keeper self.old.keeper self.new.keeper }
        ensures never_less { K.faults self.old.keeper ≤ K.faults self.new.keeper }
    {
        let Some(seat) = slot else {
            return Turned {
                spare: due.spare(),
                is_fault: false,
            };
        };
        let was_open = seat.end().is_none();
        let spare = self.take_turn(seat, due, clock);
        Turned {
            spare,
            is_fault: was_open && has_failed(seat.end()),
        }
    }

    // Gives the connection of the slot that is due its turn, if there is one.
    fn turn_at<R: Read, W: Write, C: Clock>(
        &mut self,
        slots: &mut [Option<Seat<R, W>>],
        due: Due,
        clock: &mut C,
    ) -> Turned
        requires { due.index < length slots.old }
        ensures turns { (s : State) → WasKept K.Keeper self.old.keeper self.new.keeper s
            → (after : State) × IsLeft (K.means self.new.keeper) after
            × (now : Option (Seat R W)) × (slots.new ≡ slice_set slots.old due.index now)
            × TurnsSlot C.now_gives R.remaining W.contents due.most clock.old clock.new
            K.Keeper self.old.keeper self.new.keeper s after (slot_at slots.old due.index) now result.is_fault }
        ensures slot { (now : Option (Seat R W)) × (slots.new ≡ slice_set slots.old due.index now) }
        ensures honest { K.is_honest self.new.keeper → K.is_honest self.old.keeper }
        ensures group { KeepsGroup K.is_alone K.gathers self.old.keeper self.new.keeper }
        ensures unstaged { StaysUnstaged K.Keeper self.old.keeper self.new.keeper }
        ensures never_less { K.faults self.old.keeper ≤ K.faults self.new.keeper }
    {
        self.turn_slot(&mut slots[due.index], due, clock)
    }

    /// Serves connections that come and go, each in the turns that the crowd gives it, until no more turns
    /// are due. All slots are to be free at first. Returns how many connections ended by a failed read or
    /// write.
    ///
    /// There is one order of all messages in which the machine leads from the state before to the state
    /// after. For each connection that came, the bytes read, the answers and the end are those of its own
    /// messages, until it went or as it stands in its slot. Over all connections an upload acts once.
    ///
    /// If the keeper was open and no connection gave up, exactly that one state is kept. Changes survive a
    /// crash: if nothing was given up except at a failed read, a crash afterwards leaves the state after. In
    /// any case it leaves that state, or that state with one more request: one that a connection gave up,
    /// done at its moment.
    ///
    /// Exactly the turns that the crowd gives are taken, in order, each by its own connection. Each tells at
    /// most one moment. One that only reads on tells none and answers nothing. It has read as many bytes as the
    /// crowd lets it, and those that came of the message are no whole message. The turn in which a connection
    /// ends answers no message in full. A connection gives up only within a message that has begun. The
    /// connections that came, as they were last, are exactly those that went and those in the slots.
    pub fn serve_crowd<R: Read, W: Write, G: Crowd<R, W>, C: Clock>(
        &mut self,
        crowd: &mut G,
        slots: &mut [Option<Seat<R, W>>],
        clock: &mut C,
    ) -> u64
        ensures serves { ((p : ℕ) → slot_at slots.old p ≡ None)
            → (before gone : List (Seat R W)) → G.met crowd.old before gone
            → (numbers : ℕ → ℕ) (given : List GivenTurn) → G.gave crowd.old numbers given
            → (came went : List (Seat R W)) × G.met crowd.new (before ++ came) (gone ++ went)
            × (numbered : ℕ → ℕ) × (more : List GivenTurn) × G.gave crowd.new numbered (given ++ more)
            × (G.turns crowd.old ≡ G.turns crowd.new + length more)
            × ((s : State) → WasKept K.Keeper self.old.keeper self.new.keeper s
            → (after : State) × IsLeft (K.means self.new.keeper) after
            × ServesCrowd C.now_gives R.remaining W.contents came went slots.new clock.old clock.new
            K.Keeper self.old.keeper self.new.keeper (length before) more result s after) }
        ensures over { G.over crowd.new }
        ensures honest { K.is_honest self.new.keeper → K.is_honest self.old.keeper }
        ensures alone { K.is_alone self.old.keeper → K.is_alone self.new.keeper }
        ensures unstaged { StaysUnstaged K.Keeper self.old.keeper self.new.keeper }
        ensures never_less { K.faults self.old.keeper ≤ K.faults self.new.keeper }
    {
        let mut spare = Spare::none();
        let mut faulty = 0;
        'turns: while let Some(due) = crowd.next(slots, spare) {
            let turned = self.turn_at(slots, due, clock);
            faulty += if turned.is_fault { 1 } else { 0 };
            spare = turned.spare;
        }
        faulty
    }
}
