//! What a step responds, and the writing of it.
ghost use Rattle.std.specs.Prelude.{◌≡◌, ◌≢◌};
ghost use Rattle.sigtext.specs.Counts.{Rose};
ghost use Rattle.office.specs.Handling.{end_of};
ghost use Rattle.office.specs.Responding.{IsClosed, IsSent, IsTold, TellsWritten};

use sigtext::Refusal;
use std::io::Write;
use wire::{Answer, Counted, SessionEnd, put_answer};

/// What a step came to that is done. Nothing of it is written yet.
#[derive(Drop)]
pub(crate) enum Response {
    /// The answer to a message that came whole.
    Answer(Answer),
    /// The refusal that closes the connection.
    Close(Refusal),
    /// The stream ended between two messages.
    Ended,
    /// The stream ended within a head.
    Truncated,
    /// A read failed.
    ReadFault,
}

/// How a message ended whose answer was written.
#[derive(Clone, Copy)]
pub(crate) enum Handled {
    /// The answer was written.
    Answered,
    /// Refusal 40 was written.
    GaveUp,
    /// Writing an answer broke off.
    Broken,
}

// Writes the answer.
fn send_answer<W: Write>(answer: &Answer, writer: &mut Counted<W>) -> Handled
    ensures sent { IsSent (W.contents writer.old.inner) (W.contents writer.new.inner) answer.now result }
    ensures fault { result ≡ Handled.Broken → Rose writer.old.faults writer.new.faults }
    ensures clean { (result ≢ Handled.Broken) → writer.new.faults ≡ writer.old.faults }
{
    let gives_up = answer.is_try_again();
    if put_answer(answer, writer).is_err() {
        return Handled::Broken;
    }
    if gives_up {
        Handled::GaveUp
    } else {
        Handled::Answered
    }
}

// Writes the answer of a refusal that closes the connection. Returns how the session ends.
fn close<W: Write>(refusal: Refusal, writer: &mut Counted<W>) -> SessionEnd
    ensures closed { IsClosed (W.contents writer.old.inner) (W.contents writer.new.inner) refusal result }
    ensures fault { result ≡ SessionEnd.WriteFault → Rose writer.old.faults writer.new.faults }
    ensures clean { (result ≢ SessionEnd.WriteFault) → writer.new.faults ≡ writer.old.faults }
    ensures end { result ≢ SessionEnd.ReadFault }
{
    match put_answer(&Answer::refused(refusal, false), writer) {
        Ok(()) => SessionEnd::Refused(refusal.number()),
        Err(_) => SessionEnd::WriteFault,
    }
}

// How the session ends after a message that ended like this, if it ends.
fn end_of(handled: Handled) -> Option<SessionEnd>
    ensures { result ≡ end_of handled }
{
    match handled {
        Handled::Answered => None,
        Handled::GaveUp => Some(SessionEnd::Refused(40)),
        Handled::Broken => Some(SessionEnd::WriteFault),
    }
}

/// Writes the response. Returns how the session ends, if it does.
pub(crate) fn respond<W: Write>(response: &Response, writer: &mut Counted<W>) -> Option<SessionEnd>
    ensures told { IsTold (W.contents writer.old.inner) (W.contents writer.new.inner) response.now result }
    ensures faults { TellsWritten result writer.old writer.new }
{
    match response {
        Response::Answer(answer) => end_of(send_answer(answer, writer)),
        Response::Close(refusal) => Some(close(*refusal, writer)),
        Response::Ended => Some(SessionEnd::Ended),
        Response::Truncated => Some(SessionEnd::Truncated),
        Response::ReadFault => Some(SessionEnd::ReadFault),
    }
}
