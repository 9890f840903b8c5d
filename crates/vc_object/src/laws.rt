//! What holds of the formats themselves, whatever reads them. These functions do nothing: their contracts are the laws.

ghost use Rattle.vc_object.specs.Laws.{ObjectsAreUnique, ObjectsArePrefixFree, TreesAreSets, SetsAreUnique, TreesAreUnique, CommitsAreUnique, TagsAreUnique};

/// An object's bytes are those of no other object, nor do they begin another's.
pub fn objects()
    ensures unique { ObjectsAreUnique }
    ensures prefix_free { ObjectsArePrefixFree }
{}

/// A tree's body and its set of entries determine each other.
pub fn trees()
    ensures sets { TreesAreSets }
    ensures one_set { SetsAreUnique }
    ensures unique { TreesAreUnique }
{}

/// A commit's body is that of no other commit.
pub fn commits()
    ensures unique { CommitsAreUnique }
{}

/// A tag's body is that of no other tag.
pub fn tags()
    ensures unique { TagsAreUnique }
{}
