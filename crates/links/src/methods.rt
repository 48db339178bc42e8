//! The methods that are served.
ghost use Rattle.std.specs.Prelude.{◌≡◌, IsFalse, IfSome, IfNone};
ghost use Rattle.std.specs.List.{list_any};
ghost use Rattle.sigtext.specs.Bytes.{same_bytes};
ghost use Rattle.links.specs.Methods.{method_text};
ghost use Rattle.sigtext.specs.Readable.{methods};

/// A method that is served.
#[derive(Clone, Copy, Debug, PartialEq, Eq)]
pub enum Method {
    /// `PUT`
    Put,
    /// `GET`
    Get,
    /// `HEAD`
    Head,
    /// `POST`
    Post,
}

impl Method {
    /// The method with this text. Case matters. `None` if the text is none of the four.
    pub fn read(text: &[u8]) -> Option<Method>
        ensures some { IfSome result (λ m. text.now ≡ method_text m) }
        ensures none { IfNone result (IsFalse (list_any (same_bytes text.now) methods)) }
    {
        match text {
            b"PUT" => Some(Method::Put),
            b"GET" => Some(Method::Get),
            b"HEAD" => Some(Method::Head),
            b"POST" => Some(Method::Post),
            _ => None,
        }
    }

    /// The text of the method.
    pub fn text(self) -> &'static [u8]
        ensures { result.now ≡ method_text self }
    {
        match self {
            Method::Put => b"PUT",
            Method::Get => b"GET",
            Method::Head => b"HEAD",
            Method::Post => b"POST",
        }
    }
}
