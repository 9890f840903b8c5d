//! Numbers in decimal, written into a place on the stack.

ghost use Rattle.std.specs.Prelude.{◌≡◌, ◌≤◌, drop, decimal};

/// Writes the decimal digits of a number at the end of the place, and answers where they begin.
pub(crate) fn write_decimal(number: usize, place: &mut [u8; 20]) -> usize
    ensures within { result ≤ 20 }
    ensures written { drop result place.new ≡ decimal number }
{
    let mut left = number;
    let mut at = 20;
    while left >= 10 {
        at -= 1;
        place[at] = b'0' + (left % 10) as u8;
        left /= 10;
    }
    at -= 1;
    place[at] = b'0' + left as u8;
    at
}
