//! Why bytes are no object.
ghost use Rattle.std.specs.Prelude.{◌≡◌, Some};
ghost use Rattle.vc_object.specs.Printed.{object_fault_text};

use std::error::Error;
use std::fmt;

/// Why bytes are no object, or a body is none of its kind. Of several faults the first one from the left is given,
/// in the order header, `TooLarge`, size, body. `fault as u16` is the number of the refusal.
#[derive(Clone, Copy, Debug)]
pub enum ObjectFault {
    /// 1: no header begins like that.
    BadHeader = 1,
    /// 2: the body is longer than the size that the header states.
    BadSize = 2,
    /// 3: the body, or the size that the header states, is over the limit.
    TooLarge = 3,
    /// 4: the mode of a tree's entry is none.
    BadMode = 4,
    /// 5: the name of a tree's entry may not stand there.
    BadName = 5,
    /// 6: a tree's entry does not come behind the one before it.
    NotSorted = 6,
    /// 7: an earlier entry of the tree has the name, with whatever mode.
    DuplicateName = 7,
    /// 8: the body is no commit's.
    BadCommit = 8,
    /// 9: the body is no tag's.
    BadTag = 9,
    /// 10: the bytes are a beginning: of a header, of a body of the stated size, or of a tree's entry.
    Cut = 10,
}

impl ObjectFault {
    // The number and the name, as they are printed.
    fn number_and_name(self) -> &'static str
        ensures { result.now ≡ object_fault_text self }
    {
        match self {
            ObjectFault::BadHeader => "1 BadHeader",
            ObjectFault::BadSize => "2 BadSize",
            ObjectFault::TooLarge => "3 TooLarge",
            ObjectFault::BadMode => "4 BadMode",
            ObjectFault::BadName => "5 BadName",
            ObjectFault::NotSorted => "6 NotSorted",
            ObjectFault::DuplicateName => "7 DuplicateName",
            ObjectFault::BadCommit => "8 BadCommit",
            ObjectFault::BadTag => "9 BadTag",
            ObjectFault::Cut => "10 Cut",
        }
    }
}

impl fmt::Display for ObjectFault {
    ghost output = { λ fault. Some (object_fault_text fault) };

    fn fmt<W: fmt::Write>(&self, f: &mut fmt::Formatter<W>) -> fmt::Result {
        f.write_str(self.number_and_name())
    }
}

impl Error for ObjectFault {}
