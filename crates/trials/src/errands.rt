//! One request of each kind and its expected answer, over any keeper.
use crate::boxed::{add_box, bare, order, put, sent};
use crate::owed::{DONE, FIRST_ABC, FOUND_ABC, SECOND_ABD, SECOND_X};
use crate::published::{DATE, ID, TRY_AGAIN};
use crate::telling::{holds, told};
use crate::watched::Watched;
use boxes::{BoxRow, Change, Command, KeepFault, Keeper, Mode, NameRule, NewFile, Role};
use office::Office;
use sigv4::Sha;
use std::alloc::Global;
use std::test::Fail;
use wire::SessionEnd;

/// A box that allows replacing files and is always open, with a quota and a limit of files.
pub const ROOMY: BoxRow = BoxRow {
    opens: 0,
    closes: 253_402_300_799,
    days: [true; 7],
    from_minute: 0,
    to_minute: 1440,
    quota: 1_000_000_000_000,
    max_files: 9,
    mode: Mode::Replace,
    rule: NameRule::Any,
};

// The most bytes staged in one call.
const MOST_PIECE: usize = 65536;

/// Stages these bytes, in pieces.
pub(crate) fn stage_all<K: Keeper>(keeper: &mut K, bytes: &[u8]) -> Result<(), KeepFault> {
    keeper.stage_begin()?;
    for piece in bytes.chunks(MOST_PIECE) {
        keeper.stage(piece)?;
    }
    Ok(())
}

/// Sets a file of the box `in` under the next receipt number. Returns that number.
pub fn set_file<K: Keeper>(keeper: &mut K, name: &[u8], bytes: &[u8]) -> Result<u64, KeepFault> {
    let number = keeper.next_number()?;
    let mut sha = Sha::new();
    sha.update(bytes);
    let file = NewFile {
        number,
        in_box: b"in",
        name,
        size: bytes.len() as u64,
        digest: sha.finish(),
        moment: 1_369_353_600,
        key: ID,
    };
    stage_all(keeper, bytes)?;
    keeper.apply(&Change::SetFile(file))?;
    Ok(number)
}

/// Adds a key `k2` and a box `in`.
pub fn begin<K: Keeper>(keeper: &mut K) -> Result<(), KeepFault> {
    keeper.apply(&Change::Desk(Command::AddKey {
        id: b"k2",
        role: Role::Link,
        secret: b"s3cr3t",
    }))?;
    add_box(keeper, &ROOMY)
}

/// A request by the clerk's key to an office after `begin`, which has a file `a.txt` of the bytes `abc`.
#[derive(Clone, Copy, Debug, PartialEq, Eq)]
pub enum Errand {
    /// The upload of that file. The file is not there yet.
    First,
    /// An upload of a new name.
    Upload,
    /// An upload that replaces the file's bytes.
    Replace,
    /// An upload of the file's own bytes.
    Repeat,
    Fetch,
    AddKey,
    RevokeKey,
    AddBox,
    CloseBox,
    DropFile,
    LimitKey,
    Allow,
}

/// One of each kind.
pub const ERRANDS: [Errand; 12] = [
    Errand::First,
    Errand::Upload,
    Errand::Replace,
    Errand::Repeat,
    Errand::Fetch,
    Errand::AddKey,
    Errand::RevokeKey,
    Errand::AddBox,
    Errand::CloseBox,
    Errand::DropFile,
    Errand::LimitKey,
    Errand::Allow,
];

impl Errand {
    /// Whether the file is there before the request.
    pub fn has_file(self) -> bool {
        self != Errand::First
    }

    // The command line of an errand that is a desk command.
    fn line(self) -> &'static [u8] {
        match self {
            Errand::AddKey => b"key add k3 clerk s3cr3t",
            Errand::RevokeKey => b"key revoke k2",
            Errand::AddBox => {
                b"box add out 20130101T000000Z 20130601T000000Z 1111111 0000 2400 100 2 keep begins a"
            }
            Errand::CloseBox => b"box close in 20130524T000001Z",
            Errand::LimitKey => b"key limit k2 in",
            Errand::Allow => b"office allow 900",
            _ => b"file drop in a.txt",
        }
    }

    fn stream(self, alloc: Global) -> Result<Vec<u8>, Fail> {
        match self {
            Errand::First | Errand::Repeat => put(alloc, b"/in/a.txt", b"abc"),
            Errand::Upload => put(alloc, b"/in/b.txt", b"x"),
            Errand::Replace => put(alloc, b"/in/a.txt", b"abd"),
            Errand::Fetch => bare(alloc, b"GET", b"/in/a.txt"),
            _ => order(alloc, self.line()),
        }
    }

    fn answer(self) -> &'static [u8] {
        match self {
            Errand::First | Errand::Repeat => FIRST_ABC,
            Errand::Upload => SECOND_X,
            Errand::Replace => SECOND_ABD,
            Errand::Fetch => FOUND_ABC,
            _ => DONE,
        }
    }

    /// Whether the errand gets the expected answer. Otherwise the answer must be refusal 40, which ends the session.
    pub fn run<K: Keeper>(self, office: &mut Office<K>) -> Result<bool, Fail> {
        let stream = self.stream(office.alloc)?;
        let (text, end) = sent(office, &stream, DATE)?;
        if text.as_slice() == self.answer() && end == SessionEnd::Ended {
            return Ok(true);
        }
        let gave_up = text.as_slice() == TRY_AGAIN && end == SessionEnd::Refused(40);
        holds(gave_up, "another answer")?;
        Ok(false)
    }

    /// Makes the keeper refuse one call of the errand, counted from 1. `false` if the errand makes fewer calls. When the call
    /// is refused, the answer must be 40, the office must stay unchanged, and a retry must succeed.
    pub fn is_refused_at<K: Keeper + Drop>(
        self,
        alloc: Global,
        keeper: K,
        call: u64,
    ) -> Result<bool, Fail> {
        let mut office = Office::new(alloc, Watched::new(keeper));
        begin(&mut office.keeper)?;
        if self.has_file() {
            set_file(&mut office.keeper, b"a.txt", b"abc")?;
        }
        let before = told(alloc, &mut office.keeper)?;
        office.keeper.refuse(call);
        let done = self.run(&mut office)?;
        if done {
            holds(office.keeper.calls < call, "a refusal was passed over")?;
            holds(office.keeper.faults == 0, "a fault beside an answer")?;
            return Ok(false);
        }
        // Staged bytes are dropped.
        holds(office.keeper.drops <= 1, "let go of twice")?;
        holds(
            office.keeper.calls == call.saturating_add(office.keeper.drops),
            "another call behind a refusal",
        )?;
        holds(office.keeper.faults == 1, "another count of faults")?;
        let stays = told(alloc, &mut office.keeper)? == before;
        holds(stays, "another office behind a refusal")?;
        holds(self.run(&mut office)?, "not done at the second time")?;
        Ok(true)
    }
}
