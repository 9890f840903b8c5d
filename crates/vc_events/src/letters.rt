// The messages ever sent, as they were written.
ghost use Rattle.std.specs.Prelude.{◌≡◌, ◌<◌, ◌∷◌, ◌++◌, [], vec_len, vec_capacity};

/// A message on its way, with the clone at its other end.
#[derive(Drop)]
pub enum Letter {
    /// To the shared node, from this clone.
    ToShared(usize, Vec<u8>),
    /// To this clone, from the shared node.
    ToClone(usize, Vec<u8>),
}

/// Puts a message after the others, where there is room for it, and gives its number.
pub(crate) fn post(letters: &mut Vec<Letter>, letter: Letter) -> usize
    requires { vec_len letters.old < vec_capacity letters.old }
    ensures items { letters.new.items ≡ letters.old.items ++ letter ∷ [] }
    ensures number { result ≡ vec_len letters.old }
{
    let number = letters.len();
    match letters.push(letter) {
        Ok(()) => number,
        Err(_) => number,
    }
}
