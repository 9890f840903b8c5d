// The paths that the system takes below a folder.
ghost use Rattle.std.specs.Prelude.{◌≡◌};
ghost use Rattle.vc_work_folder.specs.Holding.{has_names, is_held, is_part};

// The most bytes that a name may have, and that a place may have with the byte that ends it.
const MAX_PART: usize = 255;

const MAX_PLACE: usize = 4096;

// Whether it can be the name of a file.
fn is_part(part: &[u8]) -> bool
    ensures { result ≡ is_part part.now }
{
    part.len() <= MAX_PART && !part.contains(&0)
}

// Whether each part of the path can be.
fn has_names(path: &[u8]) -> bool
    ensures { result ≡ has_names path.now }
{
    path.split(|byte| *byte == b'/').all(|part| is_part(part))
}

/// Whether a file can have the path below a folder whose own path has so many bytes: each part of it has at most 255 bytes
/// and no byte 0, and the whole, with the folder's path before it, at most 4,095.
pub fn is_held(above: usize, path: &[u8]) -> bool
    ensures { result ≡ is_held above path.now }
{
    above.saturating_add(path.len().saturating_add(2)) <= MAX_PLACE && has_names(path)
}
