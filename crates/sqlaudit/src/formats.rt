//! The versions of office files.

ghost use Rattle.std.specs.Prelude.{◌≡◌};
ghost use Rattle.sqltables.specs.Schema.{Version};
ghost use Rattle.sqlaudit.specs.Formats.{version_of};

/// The version of an office file, which determines its tables.
#[derive(Clone, Copy)]
pub(crate) enum Format {
    /// Version 1, with six tables. No link begins early, and no key is limited.
    First,
    /// Version 2, with nine tables.
    Second,
}

impl Format {
    /// The version number in the row of the office.
    pub(crate) fn number(self) -> i64
        ensures { result ≡ (version_of self).number }
    {
        match self {
            Format::First => 1,
            Format::Second => 2,
        }
    }
}
