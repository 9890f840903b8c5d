//! Writing lines.

ghost use Rattle.std.specs.Prelude.{◌≡◌, ◌≤◌, ◌<◌, ◌++◌, ◌∷◌, [], length, take, OnOk, OnErr};
ghost use Rattle.std.specs.Int.{w16, to_be_bytes};
ghost use Rattle.hex.specs.Hex.{encode_lower};
ghost use Rattle.vc_pkt.specs.Line.{flush, text, spelling, max_data};

use std::alloc::AllocError;

/// Writes a line of 1 to 65,516 bytes of data, behind four lower-case digits. If memory is short,
/// nothing is written.
pub fn write_line(out: &mut Vec<u8>, body: &[u8]) -> Result<(), AllocError>
    requires some { 0 < length body.now }
    requires short { length body.now ≤ max_data }
    ensures ok { OnOk result (out.new.items ≡ out.old.items ++ spelling (text body.now)) }
    ensures err { OnErr result (out.new.items ≡ out.old.items) }
{
    write_parts(out, body, b"")
}

/// Writes a line of text of at most 65,515 bytes, and its LF. If memory is short, nothing is written.
pub fn write_text(out: &mut Vec<u8>, words: &[u8]) -> Result<(), AllocError>
    requires short { length words.now ≤ 65515 }
    ensures ok { OnOk result (out.new.items ≡ out.old.items ++ spelling (text (words.now ++ 10 ∷ []))) }
    ensures err { OnErr result (out.new.items ≡ out.old.items) }
{
    write_parts(out, words, b"\n")
}

/// Writes a flush. If memory is short, nothing is written.
pub fn write_flush(out: &mut Vec<u8>) -> Result<(), AllocError>
    ensures ok { OnOk result (out.new.items ≡ out.old.items ++ spelling flush) }
    ensures err { OnErr result (out.new.items ≡ out.old.items) }
{
    out.extend_from_slice(b"0000")
}

/// The digits of a line's length.
fn length_digits(length: u16) -> [u8; 4]
    ensures { result ≡ encode_lower (to_be_bytes w16 length) }
{
    let mut digits = [0; 4];
    let _ = hex::encode_to_slice(length.to_be_bytes(), &mut digits);
    digits
}

/// Appends the length and both parts, or some of them.
fn push_parts(out: &mut Vec<u8>, front: &[u8], back: &[u8]) -> Result<(), AllocError>
    requires short { length (front.now ++ back.now) ≤ max_data }
    ensures ok { OnOk result (out.new.items ≡ out.old.items ++ spelling (text (front.now ++ back.now))) }
    ensures kept { take (length out.old.items) out.new.items ≡ out.old.items }
{
    let length = front.len() + back.len() + 4;
    out.extend_from_slice(&length_digits(length as u16))?;
    out.extend_from_slice(front)?;
    out.extend_from_slice(back)?;
    Ok(())
}

/// Writes a data line in two parts.
fn write_parts(out: &mut Vec<u8>, front: &[u8], back: &[u8]) -> Result<(), AllocError>
    requires short { length (front.now ++ back.now) ≤ max_data }
    ensures ok { OnOk result (out.new.items ≡ out.old.items ++ spelling (text (front.now ++ back.now))) }
    ensures err { OnErr result (out.new.items ≡ out.old.items) }
{
    let before = out.len();
    match push_parts(out, front, back) {
        Ok(()) => Ok(()),
        Err(fault) => {
            out.truncate(before);
            Err(fault)
        }
    }
}
