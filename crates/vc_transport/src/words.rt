//! What a word of a push asks for.
ghost use Rattle.vc_transport.specs.Words.{IsOfWord};

/// What a word of a push asks for.
#[derive(Clone, Copy)]
pub enum ItemWords<'a> {
    /// A branch by its short name is to have the value that it has here.
    Branch(&'a str),
    /// A ref by its full name is to have what a revision names.
    Set { revision: &'a str, name: &'a str },
    /// A ref by its full name is to go.
    Delete { name: &'a str },
}

/// What a word of a push asks for: `rev:ref`, cut at the last colon, `:ref`, or a branch alone.
pub fn item_words(word: &str) -> ItemWords<'_>
    ensures { IsOfWord word.now result }
{
    match word.rsplit_once(':') {
        None => ItemWords::Branch(word),
        Some(("", name)) => ItemWords::Delete { name },
        Some((revision, name)) => ItemWords::Set { revision, name },
    }
}
