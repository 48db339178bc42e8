//! Fields of a request's head.

/// A field of a request's head (RFC 9110, section 5), or a header to be signed. Both parts are slices.
#[derive(Clone, Copy, Debug)]
pub struct Field<'a> {
    /// The name, in any case.
    pub name: &'a [u8],
    /// The value, without leading and trailing white space.
    pub value: &'a [u8],
}
