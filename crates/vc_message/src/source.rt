//! Bytes that come some at a time, from what may fail and from what can't.
ghost use Rattle.std.specs.Prelude.{◌≡◌, ℕ, IsErr, List, Option};
ghost use Rattle.std.specs.Io.{ReadsAtMost};
ghost use Rattle.std.specs.Io.KnownBytes.{ReadConsumes};
ghost use Rattle.vc_message.specs.Source.{TellsFailures};

use std::io::{self, ErrorKind, Read};
use std::marker::Model;

/// 115: the source of the bytes failed.
#[derive(Clone, Copy, Debug, PartialEq, Eq)]
pub struct ReadFailed;

/// Bytes that come some at a time.
pub trait Source {
    /// The bytes that are still to come, where they are known.
    ghost remaining: { Self → Option (List ℕ) };

    /// How often it has failed.
    ghost failed: { Self → ℕ };

    /// Whether it can fail.
    ghost can_fail: { Self → Type 0 };

    /// Puts the next bytes at the front of the buffer, and says how many: none only at the end, or where the buffer has no room.
    fn read(&mut self, buffer: &mut [u8]) -> Result<usize, ReadFailed>
        ensures bound { ReadsAtMost result buffer.new }
        ensures bytes { ReadConsumes (remaining self.old) (remaining self.new) result buffer.new }
        ensures failures { TellsFailures failed can_fail self.old self.new (IsErr result) };
}

/// A reader that can fail, and how often it has: each of its errors is a failure, but for an interruption, after which it is asked
/// again.
#[derive(Drop)]
pub struct Fallible<R> {
    reader: R,
    failed: u64,
}

impl<R> Model for Fallible<R> {
    ghost use Rattle.vc_message.specs.Source.{Counted};

    ghost Value = { Counted R };

    ghost view = { λ s. record { reader = s.reader; failed = s.failed } };
}

impl<R: Read> Fallible<R> {
    /// The reader, which hasn't failed yet.
    pub fn new(reader: R) -> Fallible<R>
        ensures reader { result.reader ≡ reader }
        ensures failed { result.failed ≡ 0 }
    {
        Fallible { reader, failed: 0 }
    }

    /// The reader alone.
    pub fn into_inner(self) -> R
        ensures { result ≡ self.reader }
    {
        let Fallible { reader, failed: _ } = self;
        reader
    }
}

// Whether the read may be tried again.
fn is_interrupted(error: &io::Error) -> bool {
    matches!(error.kind(), ErrorKind::Interrupted)
}

// Reads once, however often that is interrupted.
fn read_uninterrupted<R: Read>(reader: &mut R, buffer: &mut [u8]) -> Result<usize, ReadFailed>
    ensures bound { ReadsAtMost result buffer.new }
    ensures bytes { ReadConsumes (R.remaining reader.old) (R.remaining reader.new) result buffer.new }
{
    'tries: for _ in 0..u64::MAX {
        match reader.read(buffer) {
            Ok(read) => return Ok(read),
            Err(error) => {
                if !is_interrupted(&error) {
                    return Err(ReadFailed);
                }
            }
        }
    }
    Err(ReadFailed)
}

impl<R: Read> Source for Fallible<R> {
    ghost use Rattle.std.specs.Prelude.{⊤};

    ghost remaining = { λ s. R.remaining s.reader };

    ghost failed = { λ s. s.failed };

    ghost can_fail = { λ _. ⊤ };

    fn read(&mut self, buffer: &mut [u8]) -> Result<usize, ReadFailed> {
        match read_uninterrupted(&mut self.reader, buffer) {
            Ok(read) => Ok(read),
            Err(failed) => {
                self.failed = self.failed.saturating_add(1);
                Err(failed)
            }
        }
    }
}

impl Source for &[u8] {
    ghost use Rattle.std.specs.Prelude.{Some};

    ghost remaining = { λ s. Some s.now };

    ghost failed = { λ _. 0 };

    ghost can_fail = { λ _. ⊥ };

    fn read(&mut self, buffer: &mut [u8]) -> Result<usize, ReadFailed> {
        let bytes: &[u8] = *self;
        let count = bytes.len().min(buffer.len());
        buffer[..count].copy_from_slice(&bytes[..count]);
        *self = &bytes[count..];
        Ok(count)
    }
}
