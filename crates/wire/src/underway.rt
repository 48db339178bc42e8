//! Messages whose bodies come over several turns.
ghost use Rattle.std.specs.Prelude.{◌≤◌};

use crate::standing::HeadBlock;
use sigv4::Sha;

/// What came of a body that is kept.
#[derive(Drop)]
pub struct Kept {
    /// Its bytes.
    pub bytes: Vec<u8>,
    /// A hasher that was fed with them.
    pub sha: Sha,
}

/// A message whose head was read, and whose body has not come whole.
#[derive(Drop)]
pub struct Underway {
    /// The head, at the front of the block.
    pub text: HeadBlock,
    /// The length of the head in bytes.
    pub len: usize,
    /// The length of the body in bytes.
    pub size: usize,
    /// What came of the body, if it is kept.
    pub kept: Option<Kept>,
    ghost short: { len ≤ 8192 },
}

impl Underway {
    ghost use Rattle.std.specs.Prelude.{◌≡◌};
    ghost use Rattle.wire.specs.Underways.{head_of};

    /// The head, through CR LF CR LF.
    pub fn head(&self) -> &[u8]
        ensures { result.now ≡ head_of self.now }
    {
        &self.text[..self.len]
    }
}
