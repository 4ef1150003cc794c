//! The calls of a reader and of a writer, each of which records its fault.
//!
//! std's `Read` and `Write` have nothing by which a contract can tell that a call of theirs failed. So each such call stands
//! here, and here alone, and records a failure as it is answered; the contracts of the stream speak of the record.

ghost use Rattle.std.specs.Prelude.{◌≡◌, ◌<◌, ◌≤◌, true, false, MatchOption, length, take};
ghost use Rattle.std.specs.Io.KnownBytes.{Consumes, Appends, Keeps, IsAtEnd};

use std::io::{Read, Write};

/// Which side of a stream failed, and whether octets were written and not yet flushed. Only the calls below change it.
#[derive(Debug, Drop)]
pub struct Faults {
    read: bool,
    write: bool,
    pending: bool,
}

impl Faults {
    ghost use Rattle.authority_server.specs.Faults.{no_faults};

    /// Nothing has failed, nothing waits for a flush.
    pub fn none() -> Faults
        ensures { result ≡ no_faults }
    {
        Faults {
            read: false,
            write: false,
            pending: false,
        }
    }

    /// Whether the reader answered a fault.
    pub fn reader_failed(&self) -> bool
        ensures { result ≡ self.now.read }
    {
        self.read
    }

    /// Whether the writer answered a fault, took no octets, or failed to flush.
    pub fn writer_failed(&self) -> bool
        ensures { result ≡ self.now.write }
    {
        self.write
    }

    // Reads once; None where the reader answered a fault.
    pub(crate) fn read<R: Read>(&mut self, reader: &mut R, buffer: &mut [u8]) -> Option<usize>
        ensures bytes { MatchOption result (Keeps (R.remaining reader.old) (R.remaining reader.new))
            (λ count. (count ≤ length buffer.new) × Consumes (R.remaining reader.old) (R.remaining reader.new) (take count buffer.new)
            × (count ≡ 0 → 0 < length buffer.new → IsAtEnd (R.remaining reader.new))) }
        ensures fault { MatchOption result (self.new ≡ record self.old { read = true }) (λ count. self.new ≡ self.old) }
    {
        match reader.read(buffer) {
            Ok(count) => Some(count),
            Err(_) => {
                self.read = true;
                None
            }
        }
    }

    // Writes once; None where the writer answered a fault or took no octets.
    pub(crate) fn write<W: Write>(&mut self, writer: &mut W, octets: &[u8]) -> Option<usize>
        requires { 0 < length octets.now }
        ensures bytes { MatchOption result (Keeps (W.contents writer.old) (W.contents writer.new))
            (λ count. (0 < count) × (count ≤ length octets.now) × Appends (W.contents writer.old) (W.contents writer.new) (take count octets.now)) }
        ensures fault { MatchOption result (self.new ≡ record self.old { write = true }) (λ count. self.new ≡ record self.old { pending = true }) }
    {
        match writer.write(octets) {
            Ok(0) => {
                self.write = true;
                None
            }
            Ok(count) => {
                self.pending = true;
                Some(count)
            }
            Err(_) => {
                self.write = true;
                None
            }
        }
    }

    // Flushes; whether that was done.
    pub(crate) fn flush<W: Write>(&mut self, writer: &mut W) -> bool
        ensures kept { Keeps (W.contents writer.old) (W.contents writer.new) }
        ensures done { result ≡ true → self.new ≡ record self.old { pending = false } }
        ensures fault { result ≡ false → self.new ≡ record self.old { write = true } }
    {
        match writer.flush() {
            Ok(()) => {
                self.pending = false;
                true
            }
            Err(_) => {
                self.write = true;
                false
            }
        }
    }
}
