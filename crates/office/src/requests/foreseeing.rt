//! What is known of a message before its body comes: what its head and the state decide at any moment.
ghost use Rattle.std.specs.Prelude.{◌↔◌, IsTrue};
ghost use Rattle.office.specs.Foreseeing.{IsPutting, IsUpload};
ghost use Rattle.office.specs.Premise.{IsGivenUp};

use super::announced::Announced;
use super::forms::check_form;
use super::places::{decoded_path, read_place};
use super::reading::read_link;
use crate::office::Office;
use boxes::{BoxRow, Keeper, Role, place};
use links::{LinkParts, Method};
use sigtext::Refusal;

/// What a message asks for, once its link is within its window.
#[derive(Drop)]
pub(crate) enum Errand {
    /// An upload to this path. Its box and name obey rules 27 to 29.
    Put {
        /// The decoded path.
        path: Vec<u8>,
        /// The box, if there is one.
        in_box: Option<BoxRow>,
    },
    /// A fetch.
    Fetch,
    /// A desk command.
    Post,
}

/// A message that obeys rules 7 to 21.
#[derive(Drop)]
pub(crate) struct Prospect<'a> {
    /// Its link.
    pub(crate) link: LinkParts<'a>,
    /// What it asks for, or the refusal of the first of rules 24 to 29 that fails.
    pub(crate) errand: Result<Errand, Refusal>,
}

/// What is known of a body that came.
#[derive(Clone, Copy)]
pub(crate) struct Body {
    /// The length in bytes.
    pub(crate) length: u64,
    /// The SHA-256 digest, if the body was staged.
    pub(crate) digest: [u8; 32],
}

/// Whether this is refusal 40: memory was refused, or the keeper counted a fault.
pub(crate) fn is_given_up<T>(told: &Result<T, Refusal>) -> bool
    ensures { IsTrue result ↔ IsGivenUp told.now }
{
    matches!(told, Err(Refusal::TryAgain))
}

/// Whether this is an upload, whose body is to be staged.
pub(crate) fn is_putting(errand: &Result<Errand, Refusal>) -> bool
    ensures { IsTrue result ↔ IsPutting errand.now }
{
    matches!(errand, Ok(Errand::Put { .. }))
}

/// The same for what was foreseen of a message.
pub(crate) fn is_upload(foreseen: &Result<Prospect<'_>, Refusal>) -> bool
    ensures { IsTrue result ↔ IsUpload foreseen.now }
{
    match foreseen {
        Ok(prospect) => is_putting(&prospect.errand),
        Err(_) => false,
    }
}

impl<K: Keeper> Office<K> {
    ghost use Rattle.std.specs.Prelude.{◌≡◌, ℕ, List, length, Err};
    ghost use Rattle.sigtext.specs.Request.{Request};
    ghost use Rattle.boxes.specs.State.{Key, State};
    ghost use Rattle.links.specs.LinkReadings.{IsLinkOf};
    ghost use Rattle.links.specs.Methods.{method_text};
    ghost use Rattle.links.specs.WellFormed.{LinkValues};
    ghost use Rattle.office.specs.Admitted.{IsAdmitted, ReachesBoxes};
    ghost use Rattle.office.specs.Announcing.{request_with};
    ghost use Rattle.office.specs.Foreseeing.{ComesTo, Foresees, IsReadOf, IsSigned};
    ghost use Rattle.office.specs.Frames.{Looks};
    ghost use Rattle.office.specs.Premise.{IsGivenUp, WasKept};
    ghost use Rattle.office.specs.Rules.{IsPut};

    // What an upload that obeys the rules up to 26 asks for: its box, if rules 27 to 29 hold. Otherwise the
    // refusal of the first rule that fails, or refusal 40 if memory was refused or the keeper counted a
    // fault.
    fn foresee_upload(&mut self, link: &LinkParts<'_>) -> Result<Errand, Refusal>
        ensures comes { (s : State) (r : Request) (p : LinkValues) (k : Key)
            → WasKept K.Keeper self.old.keeper self.new.keeper s
            → IsLinkOf link.now r p → IsPut r
            → ((now : ℕ) → IsAdmitted s r now p k → ReachesBoxes s r now p)
            → ComesTo s r p k result }
        ensures looks { Looks K.Keeper self.old.keeper self.new.keeper (IsGivenUp result) }
    {
        let Ok(path) = decoded_path(self.alloc, link) else {
            return Err(Refusal::TryAgain);
        };
        let at = read_place(&path);
        let Ok(in_box) = self.keeper.box_row(at.in_box) else {
            return Err(Refusal::TryAgain);
        };
        match place(&in_box, at.name) {
            Ok(()) => Ok(Errand::Put { path, in_box }),
            Err(refusal) => Err(refusal),
        }
    }

    // What a message asks for whose link was signed by a key with this role. Otherwise the refusal of the
    // first of rules 24 to 29 that fails, or refusal 40 if memory was refused or the keeper counted a fault.
    fn foresee_errand(
        &mut self,
        link: &LinkParts<'_>,
        method: Method,
        role: Role,
        message: &Announced<'_>,
    ) -> Result<Errand, Refusal>
        requires { message.now.method.now ≡ method_text method }
        ensures comes { (s : State) (body : List ℕ) (p : LinkValues) (k : Key)
            → WasKept K.Keeper self.old.keeper self.new.keeper s
            → length body ≡ message.now.length
            → IsLinkOf link.now (request_with message.now body) p
            → IsSigned s (request_with message.now body) p k → k.role ≡ role
            → ComesTo s (request_with message.now body) p k result }
        ensures looks { Looks K.Keeper self.old.keeper self.new.keeper (IsGivenUp result) }
    {
        match self.check_reach(link, method, role) {
            Ok(()) => {}
            Err(refusal) => return Err(refusal),
        }
        match check_form(method, message) {
            Ok(()) => {}
            Err(refusal) => return Err(refusal),
        }
        match method {
            Method::Put => self.foresee_upload(link),
            Method::Get => Ok(Errand::Fetch),
            Method::Head => Ok(Errand::Fetch),
            Method::Post => Ok(Errand::Post),
        }
    }

    // Looks up who signed the link of a message, and what the message asks for.
    fn foresee_link<'a>(
        &mut self,
        link: LinkParts<'a>,
        method: Method,
        message: &Announced<'_>,
    ) -> Result<Prospect<'a>, Refusal>
        requires { message.now.method.now ≡ method_text method }
        ensures foresees { (s : State) (body : List ℕ) (p : LinkValues)
            → WasKept K.Keeper self.old.keeper self.new.keeper s
            → length body ≡ message.now.length
            → IsLinkOf link.entry (request_with message.now body) p
            → Foresees s (request_with message.now body) result }
        ensures readable { (body : List ℕ) (p : LinkValues)
            → IsLinkOf link.entry (request_with message.now body) p
            → IsReadOf (request_with message.now body) result }
        ensures looks { Looks K.Keeper self.old.keeper self.new.keeper (IsGivenUp result) }
    {
        let role = match self.identify(&link) {
            Ok(role) => role,
            Err(refusal) => return Err(refusal),
        };
        let errand = self.foresee_errand(&link, method, role, message);
        if is_given_up(&errand) {
            drop(errand);
            return Err(Refusal::TryAgain);
        }
        Ok(Prospect { link, errand })
    }

    // What is known of a message before its body: its link, and what it asks for within the window of the
    // link. Otherwise the refusal of the first of rules 7 to 21 that fails, or refusal 40 if memory was
    // refused or the keeper counted a fault.
    pub(crate) fn foresee<'a>(&mut self, message: &Announced<'a>) -> Result<Prospect<'a>, Refusal>
        ensures foresees { (s : State) (body : List ℕ)
            → WasKept K.Keeper self.old.keeper self.new.keeper s
            → length body ≡ message.now.length
            → Foresees s (request_with message.now body) result }
        ensures readable { (body : List ℕ) → IsReadOf (request_with message.now body) result }
        ensures looks { Looks K.Keeper self.old.keeper self.new.keeper (IsGivenUp result) }
    {
        let Some(method) = Method::read(message.method) else {
            return Err(Refusal::Method);
        };
        match read_link(self.alloc, method, message) {
            Ok(link) => self.foresee_link(link, method, message),
            Err(refusal) => Err(refusal),
        }
    }
}
