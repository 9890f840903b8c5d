// Paths of files: names with a `/` between them.
ghost use Rattle.std.specs.Prelude.{◌↔◌, IsTrue};
ghost use Rattle.vc_object.specs.Tree.{IsName};
ghost use Rattle.vc_index.specs.Path.{IsPath};

/// How many bytes a path has at most.
pub const MAX_PATH: usize = 4096;

// Whether a text may be a name in a tree.
fn is_name(text: &[u8]) -> bool
    ensures { IsTrue result ↔ IsName text.now }
{
    if text.is_empty() || text.contains(&b'/') || text.contains(&0) {
        return false;
    }
    match text {
        b"." | b".." => false,
        _ => !text.eq_ignore_ascii_case(b".git"),
    }
}

/// Whether a text may be the path of a file.
pub(crate) fn is_path(path: &[u8]) -> bool
    ensures { IsTrue result ↔ IsPath path.now }
{
    if path.len() > MAX_PATH {
        return false;
    }
    path.split(|b| *b == b'/').all(|name| is_name(name))
}
