//! The four kinds of objects.

ghost use Rattle.std.specs.Prelude.{◌≡◌, Some, IfSome};
ghost use Rattle.vc_object.specs.Kind.{front, word};
ghost use Rattle.vc_object.specs.CommitReading.{kind_of};

/// What an object is. Its word begins the object's header (gitformat-loose: `<type> <size>`, NUL).
#[derive(Clone, Copy, PartialEq, Eq)]
pub enum Kind {
    Blob,
    Tree,
    Commit,
    Tag,
}

impl Kind {
    /// The word of the kind, in lower case.
    pub fn word(self) -> &'static [u8]
        ensures { result.now ≡ word self }
    {
        match self {
            Kind::Blob => b"blob",
            Kind::Tree => b"tree",
            Kind::Commit => b"commit",
            Kind::Tag => b"tag",
        }
    }

    /// The kind that has exactly this word.
    pub fn from_word(text: &[u8]) -> Option<Kind>
        ensures word { IfSome result (λ kind. text.now ≡ word kind) }
        ensures found { (kind : Kind) → text.now ≡ word kind → result ≡ Some kind }
        ensures value { result ≡ kind_of text.now }
    {
        kind_of(text)
    }

    /// The word and a space.
    pub(crate) fn front(self) -> &'static [u8]
        ensures { result.now ≡ front self }
    {
        match self {
            Kind::Blob => b"blob ",
            Kind::Tree => b"tree ",
            Kind::Commit => b"commit ",
            Kind::Tag => b"tag ",
        }
    }
}

fn kind_of(text: &[u8]) -> Option<Kind>
    ensures { result ≡ kind_of text.now }
{
    match text {
        b"blob" => Some(Kind::Blob),
        b"tree" => Some(Kind::Tree),
        b"commit" => Some(Kind::Commit),
        b"tag" => Some(Kind::Tag),
        _ => None,
    }
}
