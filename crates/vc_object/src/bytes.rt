//! Texts cut at a byte, and what they begin with.

ghost use Rattle.std.specs.Prelude.{◌≡◌, ◌++◌, ◌∷◌, MatchOption};
ghost use Rattle.std.specs.Option.{option_map};
ghost use Rattle.vc_object.specs.Bytes.{Without, cut};
ghost use Rattle.vc_object.specs.Start.{Starts};

/// What a text is to the front that it should have.
pub(crate) enum Start<'a> {
    /// It has the front, and this rest.
    Whole(&'a [u8]),
    /// It is a beginning of the front, and shorter.
    Begun,
    /// It goes another way.
    Other,
}

/// What comes before the first such byte, and what comes after it.
pub fn cut_at(text: &[u8], byte: u8) -> Option<(&[u8], &[u8])>
    ensures parts { MatchOption result (Without byte text.now) (λ parts. Without byte parts.0.now × (text.now ≡ parts.0.now ++ byte ∷ parts.1.now)) }
    ensures value { option_map (λ parts. (parts.0.now, parts.1.now)) result ≡ cut byte text.now }
{
    for (i, x) in text.iter().enumerate() {
        if *x == byte {
            return Some((&text[..i], &text[i + 1..]));
        }
    }
    None
}

/// Looks for the front.
pub(crate) fn start_of<'a>(text: &'a [u8], front: &[u8]) -> Start<'a>
    ensures { Starts text.now front.now result }
{
    if let Some(rest) = text.strip_prefix(front) {
        return Start::Whole(rest);
    }
    if front.starts_with(text) {
        return Start::Begun;
    }
    Start::Other
}
