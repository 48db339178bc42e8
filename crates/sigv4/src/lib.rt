//! Signature Version 4: keyed hash, moments, credential scopes and signatures.
#![tactic(auto)]

pub mod allowance;
pub mod hash;
pub mod last_key;
pub mod moment;
pub mod scope;
pub mod signing;

pub use allowance::Allowance;
pub use hash::{Hmac, Sha};
pub use last_key::LastKey;
pub use moment::Moment;
pub use scope::{Scope, is_key_id, is_region, is_secret};
pub use signing::{derive, sign, signature};
