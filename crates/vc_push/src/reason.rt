//! Why a command is refused.

ghost use Rattle.std.specs.Prelude.{◌≡◌};
ghost use Rattle.vc_push.specs.Reason.{reason_number, reason_of, reason_text, text_number};

/// Why a command is refused. own: the numbers and the texts, 101, and the bound in 100.
///
/// The first that holds is told, in the order 109, 100 to 108, each at its moment: 109 when the push is taken, 100 to 105 at
/// the check, 106 to 108 at the command's update. If none holds of a command of an atomic push, but one does of another command,
/// its reason is 117.
#[derive(Clone, Copy, Debug, PartialEq, Eq)]
pub enum Reason {
    /// 100: the name is not UTF-8, not legal, or a branch's of over 246 bytes, which a clone could not track.
    BadName = 100,
    /// 101: it names neither a branch nor a tag.
    OutsideRefs = 101,
    /// 102: the new id is zero.
    DeletionProhibited = 102,
    /// 103: a name that is reached from the new id is neither stored nor carried.
    MissingObjects = 103,
    /// 104: of a branch, the new value or an object along its parent links is no commit.
    NotACommit = 104,
    /// 105: of a branch, the old id isn't zero and is no ancestor of the new one.
    NonFastForward = 105,
    /// 106: the tag is there.
    AlreadyExists = 106,
    /// 107: one of the name and a ref that is there is a folder of the other.
    NameConflict = 107,
    /// 108: the ref's value is not the old id.
    Stale = 108,
    /// 109: a carried body is out of its kind's grammar. Then every command has it.
    UnpackerError = 109,
    /// 117: the push is atomic, and another of its commands is refused.
    AtomicFailure = 117,
}

/// In the order of their numbers.
const REASONS: [Reason; 11] = [
    Reason::BadName,
    Reason::OutsideRefs,
    Reason::DeletionProhibited,
    Reason::MissingObjects,
    Reason::NotACommit,
    Reason::NonFastForward,
    Reason::AlreadyExists,
    Reason::NameConflict,
    Reason::Stale,
    Reason::UnpackerError,
    Reason::AtomicFailure,
];

impl Reason {
    /// The number, 100 to 109 or 117.
    pub fn number(self) -> u16
        ensures { result ≡ reason_number self }
    {
        self as u16
    }

    /// The text in a report.
    pub fn text(self) -> &'static [u8]
        ensures { result.now ≡ reason_text self }
    {
        match self {
            Reason::BadName => b"bad name",
            Reason::OutsideRefs => b"outside refs/heads and refs/tags",
            Reason::DeletionProhibited => b"deletion prohibited",
            Reason::MissingObjects => b"missing necessary objects",
            Reason::NotACommit => b"not a commit",
            Reason::NonFastForward => b"non-fast-forward",
            Reason::AlreadyExists => b"already exists",
            Reason::NameConflict => b"name conflict",
            Reason::Stale => b"stale",
            Reason::UnpackerError => b"unpacker error",
            Reason::AtomicFailure => b"atomic push failure",
        }
    }

    /// The reason that has this text in a report.
    pub fn from_text(words: &[u8]) -> Option<Reason>
        ensures { result ≡ reason_of words.now }
    {
        REASONS
            .iter()
            .copied()
            .find(|reason| reason.text() == words)
    }

    /// The number of the reason that has this text, or 0 where none has it.
    pub fn number_of_text(words: &[u8]) -> u16
        ensures { result ≡ text_number words.now }
    {
        match Reason::from_text(words) {
            Some(reason) => reason.number(),
            None => 0,
        }
    }
}
