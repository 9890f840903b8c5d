//! The modes of the entries of a tree.

ghost use Rattle.std.specs.Prelude.{◌≡◌, Some, IfSome};
ghost use Rattle.vc_object.specs.Tree.{mode_text, tail};
ghost use Rattle.vc_object.specs.Entries.{mode_of};

/// What an entry of a tree is (git-mktree, git-fast-import: the modes of entries). Other modes are refused.
#[derive(Clone, Copy, PartialEq, Eq)]
pub enum Mode {
    /// A folder, `40000`: its id is a tree's.
    Tree,
    /// A file, `100644`.
    File,
    /// own: a file that its group may write, `100664`, as early versions of Git wrote it. It is kept as it is.
    SharedFile,
    /// A file that may be run, `100755`.
    Executable,
    /// A symbolic link, `120000`.
    Link,
    /// A commit of another repository, `160000`. No link is followed there.
    Commit,
}

impl Mode {
    /// The digits of the mode, as a tree has them: a folder's begin with no zero.
    pub fn text(self) -> &'static [u8]
        ensures { result.now ≡ mode_text self }
    {
        match self {
            Mode::Tree => b"40000",
            Mode::File => b"100644",
            Mode::SharedFile => b"100664",
            Mode::Executable => b"100755",
            Mode::Link => b"120000",
            Mode::Commit => b"160000",
        }
    }

    /// The mode that has exactly these digits.
    pub fn from_text(text: &[u8]) -> Option<Mode>
        ensures text { IfSome result (λ mode. text.now ≡ mode_text mode) }
        ensures found { (mode : Mode) → text.now ≡ mode_text mode → result ≡ Some mode }
        ensures value { result ≡ mode_of text.now }
    {
        mode_of(text)
    }

    /// What stands behind a name where names are compared.
    pub(crate) fn tail(self) -> &'static [u8]
        ensures { result.now ≡ tail self }
    {
        match self {
            Mode::Tree => b"/",
            _ => b"",
        }
    }
}

fn mode_of(text: &[u8]) -> Option<Mode>
    ensures { result ≡ mode_of text.now }
{
    match text {
        b"40000" => Some(Mode::Tree),
        b"100644" => Some(Mode::File),
        b"100664" => Some(Mode::SharedFile),
        b"100755" => Some(Mode::Executable),
        b"120000" => Some(Mode::Link),
        b"160000" => Some(Mode::Commit),
        _ => None,
    }
}
