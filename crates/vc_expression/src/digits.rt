//! Numbers of an expression.

ghost use Rattle.std.specs.Prelude.{◌≡◌, ◌≤◌, length};
ghost use Rattle.std.specs.List.{AllByRecursion};
ghost use Rattle.vc_expression.specs.Digits.{IsDigit, after_digits, digits_of, is_digit, number};

/// Whether the byte is a digit.
fn is_decimal(byte: u8) -> bool
    ensures { result ≡ is_digit byte }
{
    b'0' <= byte && byte <= b'9'
}

/// The digits at the front, and what follows them.
pub(crate) fn split_digits(text: &[u8]) -> (&[u8], &[u8])
    ensures digits { result.0.now ≡ digits_of text.now }
    ensures rest { result.1.now ≡ after_digits text.now }
{
    for (i, byte) in text.iter().enumerate() {
        if !is_decimal(*byte) {
            return (&text[..i], &text[i..]);
        }
    }
    (text, b"")
}

/// The number that at most nine digits write.
pub(crate) fn number_of(digits: &[u8]) -> u32
    requires short { length digits.now ≤ 9 }
    requires digits { AllByRecursion IsDigit digits.now }
    ensures { result ≡ number digits.now }
{
    let mut number = 0;
    for digit in digits {
        number = number * 10 + (*digit - b'0') as u32;
    }
    number
}
