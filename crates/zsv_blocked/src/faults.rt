//! The calls of a reader: its fault and its end are recorded.
//!
//! std's `Read` has nothing by which a contract can tell that a call failed, or that one gave no octets. So the one call
//! is here, and records both as they are answered; the contracts of who reads speak of the record.
ghost use Rattle.std.specs.Prelude.{◌≡◌, ◌<◌, ◌≤◌, ◌==◌, ◌||◌, not, true, MatchOption, length, take};
ghost use Rattle.std.specs.Io.KnownBytes.{Consumes, IsAtEnd, Keeps};

use std::io::Read;

/// Whether a reader answered a fault, whether its last call gave no octets, and whether one gave some. Only the call below
/// changes it. A new record has no octets given, so it can't replace one that has.
#[derive(Debug, Drop)]
pub struct ReadFaults {
    failed: bool,
    ended: bool,
    given: bool,
}

impl ReadFaults {
    ghost use Rattle.std.specs.Prelude.{false};

    /// Nothing has failed, and nothing was read.
    pub fn none() -> ReadFaults
        ensures failed { result.failed ≡ false }
        ensures ended { result.ended ≡ false }
        ensures given { result.given ≡ false }
    {
        ReadFaults {
            failed: false,
            ended: false,
            given: false,
        }
    }

    /// Whether the reader answered a fault.
    pub fn failed(&self) -> bool
        ensures { result ≡ self.now.failed }
    {
        self.failed
    }

    /// Whether the reader's last call gave no octets: it is at its end.
    pub fn ended(&self) -> bool
        ensures { result ≡ self.now.ended }
    {
        self.ended
    }

    // Reads once; None where the reader answered a fault.
    pub(crate) fn read<R: Read>(&mut self, reader: &mut R, buffer: &mut [u8]) -> Option<usize>
        ensures bytes { MatchOption result (Keeps (R.remaining reader.old) (R.remaining reader.new))
            (λ count. (count ≤ length buffer.new) × Consumes (R.remaining reader.old) (R.remaining reader.new) (take count buffer.new)
            × (count ≡ 0 → 0 < length buffer.new → IsAtEnd (R.remaining reader.new))) }
        ensures fault { MatchOption result (self.new.failed ≡ true)
            (λ count. (self.new.failed ≡ self.old.failed) × (self.new.ended ≡ (count == 0))
            × (self.new.given ≡ (self.old.given || not (count == 0)))) }
    {
        match reader.read(buffer) {
            Ok(count) => {
                *self = ReadFaults {
                    ended: count == 0,
                    given: self.given || count != 0,
                    ..*self
                };
                Some(count)
            }
            Err(_) => {
                *self = ReadFaults {
                    failed: true,
                    ..*self
                };
                None
            }
        }
    }
}
