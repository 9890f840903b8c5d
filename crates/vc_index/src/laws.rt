//! What holds of the trees of an index, whatever writes them. The function does nothing: its contract is the law.

ghost use Rattle.vc_index.specs.FolderTrees.{TreesAreThere, TreesAreOneList};

/// An index has one list of trees, and no other: also where the names of two of them are the same.
pub fn trees_of_an_index()
    ensures there { TreesAreThere }
    ensures one { TreesAreOneList }
{}
