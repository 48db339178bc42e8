//! A day of an office, over any keeper.
use boxes::{Change, Command, KeepFault, Keeper, Role};
use trials::errands::{ROOMY, begin, set_file};

// Adds a key, a box, a file that is then replaced, and two more files.
fn a_morning<K: Keeper>(keeper: &mut K) -> Result<(), KeepFault> {
    begin(keeper)?;
    set_file(keeper, b"a.txt", b"abc")?;
    set_file(keeper, b"a.txt", &[b'a'; 70_000])?;
    set_file(keeper, b"a2.txt", b"abc")?;
    set_file(keeper, b"b.txt", b"x")?;
    Ok(())
}

// A command of each kind, except for a box. The key `k2` is limited before it is revoked.
const COMMANDS: [Command<'static>; 6] = [
    Command::CloseBox {
        name: b"in",
        moment: 1_369_353_601,
    },
    Command::DropFile {
        in_box: b"in",
        name: b"b.txt",
    },
    Command::LimitKey {
        id: b"k2",
        in_box: b"in",
    },
    Command::RevokeKey { id: b"k2" },
    Command::AddKey {
        id: b"k3",
        role: Role::Clerk,
        secret: b"s3cr3t",
    },
    Command::SetAllowance { seconds: 900 },
];

/// A day in a new office: files, and then a command of each kind.
pub(crate) fn a_day<K: Keeper>(keeper: &mut K) -> Result<(), KeepFault> {
    a_morning(keeper)?;
    for command in COMMANDS {
        keeper.apply(&Change::Desk(command))?;
    }
    keeper.apply(&Change::Desk(Command::AddBox {
        name: b"out",
        row: &ROOMY,
    }))
}
