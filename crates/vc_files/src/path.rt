// Paths, of which one may lie in the folder of another.
ghost use Rattle.std.specs.Prelude.{◌≡◌};
ghost use Rattle.vc_files.specs.Path.{is_above};

/// Whether the path lies in the folder, as `a/b` in `a`.
pub fn is_above(folder: &[u8], path: &[u8]) -> bool
    ensures { result ≡ is_above folder.now path.now }
{
    match path.strip_prefix(folder) {
        Some(rest) => rest.starts_with(b"/"),
        None => false,
    }
}
