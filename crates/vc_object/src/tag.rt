//! What a tag holds.

ghost use Rattle.std.specs.Prelude.{◌≡◌, IfSome};
ghost use Rattle.std.specs.Option.{option_map};
ghost use Rattle.vc_object.specs.CommitReading.{tag_of};
ghost use Rattle.vc_object.specs.Tag.{TagText, IsTag, tag_bytes};
ghost use Rattle.vc_object.specs.CommitView.{tag_view};

use crate::id::ObjectId;
use crate::kind::Kind;
use crate::lines::{id_line_at, line_at};

/// An annotated tag. Its texts are slices of its body, and live as long as that.
#[derive(Clone, Copy)]
pub struct Tag<'a> {
    pub object: ObjectId,
    /// The kind that the tag states, which may not be that of the object.
    pub kind: Kind,
    pub name: &'a [u8],
    /// What follows the line of the name: usually the tagger, a blank line and the message. It may be any bytes.
    pub rest: &'a [u8],
}

/// Reads a tag from the front.
#[tactic(auto, unfolding(crate::specs::CommitReading::tag_of))]
fn tag_at(body: &[u8]) -> Option<Tag<'_>>
    ensures { option_map tag_view result ≡ tag_of body.now }
{
    let (object, rest) = id_line_at(body, b"object ")?;
    let (word, rest) = line_at(rest, b"type ")?;
    let kind = Kind::from_word(word)?;
    let (name, rest) = line_at(rest, b"tag ")?;
    if name.is_empty() {
        return None;
    }
    Some(Tag {
        object,
        kind,
        name,
        rest,
    })
}

/// Reads a tag's body.
pub(crate) fn read_tag(body: &[u8]) -> Option<Tag<'_>>
    ensures value { option_map tag_view result ≡ tag_of body.now }
    ensures only { (t : TagText) → IsTag t → body.now ≡ tag_bytes t → option_map tag_view result ≡ Some t }
    ensures read { IfSome result (λ t. IsTag (tag_view t) × (body.now ≡ tag_bytes (tag_view t))) }
{
    tag_at(body)
}
