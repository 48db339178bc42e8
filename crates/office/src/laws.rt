//! Laws of the rules over whole runs, for callers to cite.
ghost use Rattle.std.specs.Prelude.{◌≡◌, ◌↔◌, ℕ, List, map};
ghost use Rattle.sigtext.specs.Request.{Request};
ghost use Rattle.boxes.specs.State.{State};
ghost use Rattle.wire.specs.Answers.{Said};
ghost use Rattle.office.specs.Alike.{AreAlike};
ghost use Rattle.office.specs.Answering.{Replies};
ghost use Rattle.office.specs.Interleaved.{Interleaved, Thread, acts_in, thread_of};
ghost use Rattle.office.specs.Repeats.{Act, Acts, AreActs, RepeatsOnce};
ghost use Rattle.office.specs.Sessions.{Connection, Run};
ghost use Rattle.office.specs.WithoutTurns.{InterleavedWithout};

/// At a given moment a request has at most one reply and one state after it.
pub fn law_of_replies()
    ensures one { (s : State) (r : Request) (now : ℕ) (a b : Said) (x y : State)
        → Replies s r now a x
        → Replies s r now b y → (b ≡ a) × (y ≡ x) }
{}

/// Requests that say the same get the same reply: rules 7 to 18 hold for both, their signed text, signature
/// and body are the same, and for a PUT also whether a length was given.
pub fn law_of_alike()
    ensures same { (s after : State) (r other : Request) (now : ℕ) (said : Said) → AreAlike r other
        → Replies s r now said after → Replies s other now said after }
{}

/// Connections are a run exactly if there are acts of theirs that follow the rules. Over any acts that follow
/// the rules an upload acts once.
pub fn law_of_acts()
    ensures are { (s after : State) (cs : List Connection) (moments : List ℕ)
        → Run s cs moments after
        ↔ ((acts : List Act) × AreActs s cs moments acts after × Acts s acts after) }
    ensures once { (s after : State) (acts : List Act) → Acts s acts after → RepeatsOnce acts }
{}

/// Connections that are served one after another are also served in turns: each has one turn with all its
/// messages. Over the turns of any connections an upload acts once. Without the messages that were answered
/// with refusal 40 they were also served in turns, from the same state to the same state, with the same acts
/// for the other messages in the same order.
pub fn law_of_turns()
    ensures runs { (s after : State) (cs : List Connection) (moments : List ℕ) → Run s cs moments after
        → Interleaved s (map thread_of cs) moments after }
    ensures once { (s after : State) (threads : List Thread) (moments : List ℕ)
        (turned : Interleaved s threads moments after) → RepeatsOnce (acts_in turned.turns) }
    ensures without { (s after : State) (threads : List Thread) (moments : List ℕ)
        (turned : Interleaved s threads moments after)
        → InterleavedWithout s threads moments after turned }
{}
