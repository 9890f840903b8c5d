// The folder of a store that lies inside a work tree.
ghost use Rattle.std.specs.Prelude.{◌≡◌};
ghost use Rattle.std.specs.Str.{str_eq_ignore_ascii_case};
ghost use Rattle.vc_work_folder.specs.Own.{ends_name, is_own, meets_own};

/// Whether the path is that of the store's folder, or lies in it, in any ASCII case. None does where `own`, the path of that
/// folder in the work tree, is empty.
pub fn is_own(own: &[u8], path: &[u8]) -> bool
    ensures { result ≡ is_own own.now path.now }
{
    if own.is_empty() || path.len() < own.len() {
        return false;
    }
    let (front, rest) = path.split_at(own.len());
    if !same_folded(front, own) {
        return false;
    }
    ends_name(rest)
}

/// Whether the path is own, or that of a folder above the store's.
pub fn meets_own(own: &[u8], path: &[u8]) -> bool
    ensures { result ≡ meets_own own.now path.now }
{
    if is_own(own, path) {
        return true;
    }
    is_own(path, own)
}

// Whether the texts are the same but for the case of ASCII letters.
fn same_folded(x: &[u8], y: &[u8]) -> bool
    ensures { result ≡ str_eq_ignore_ascii_case x.now y.now }
{
    x.eq_ignore_ascii_case(y)
}

// Whether nothing follows a name here, or a slash.
fn ends_name(rest: &[u8]) -> bool
    ensures { result ≡ ends_name rest.now }
{
    match rest.first() {
        None => true,
        Some(byte) => *byte == b'/',
    }
}
