//! Signing with a key, whose secret is in an office or in a file.
ghost use Rattle.std.specs.Prelude.{IsOk};

use crate::arguments::Argument;
use crate::faults::Fault;
use crate::secrets::read_secret_file;
use crate::work::{Done, OfficeWork};
use boxes::Rolls;
use links::LinkKey;
use sigv4::is_key_id;
use std::alloc::Global;

/// The work with a signing key.
pub trait KeyWork {
    /// The output.
    type Out: Drop;

    /// Does the work.
    fn run(self, alloc: Global, key: &LinkKey<'_>) -> Done<Self::Out>;

    /// What the work gives where there is no key.
    fn refuse(self, fault: Fault) -> Done<Self::Out>
        ensures { IsOk result.result → ⊥ };
}

/// The same with the key of this id from an office.
#[derive(Drop)]
pub struct OfficeKey<'w, W: Drop> {
    /// The id of the key.
    pub id: &'w [u8],
    /// The work.
    pub work: W,
}

impl<W: KeyWork + Drop> OfficeWork for OfficeKey<'_, W> {
    ghost use Rattle.std.specs.Prelude.{IsOk};
    ghost use Rattle.commands.specs.Listing.{Looks};

    type Gain = Done<W::Out>;

    ghost step = { λ work gain. Looks };

    ghost idle = { λ work gain. IsOk gain.result → ⊥ };

    fn run<K: Rolls>(self, rt: &HostRuntime, mut keeper: K) -> (Done<W::Out>, K) {
        let OfficeKey { id, work } = self;
        let done = match keeper.key(id) {
            Ok(Some(row)) => {
                let secret = row.secret.as_slice();
                work.run(rt.alloc(), &LinkKey { id, secret })
            }
            Ok(None) => work.refuse(Fault::UnknownKey),
            Err(fault) => work.refuse(Fault::from(fault)),
        };
        (done, keeper)
    }

    fn refuse(self, fault: Fault) -> Done<W::Out> {
        self.work.refuse(fault)
    }
}

/// Does the work with the key of this id, whose secret is the line of the named file. No office is opened.
pub fn sign_by_file<W: KeyWork + Drop>(
    rt: &HostRuntime,
    name: &str,
    id: &str,
    work: W,
) -> Done<W::Out> {
    let id = id.as_bytes();
    if !is_key_id(id) {
        return work.refuse(Fault::MalformedValue(Argument::Key));
    }
    match read_secret_file(rt, name) {
        Ok(secret) => {
            let secret = secret.as_slice();
            work.run(rt.alloc(), &LinkKey { id, secret })
        }
        Err(fault) => work.refuse(fault),
    }
}
