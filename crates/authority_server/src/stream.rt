//! Framed messages over a stream: two octets of length before each (RFC 1035 section 4.2.2).

ghost use Rattle.std.specs.Prelude.{vec_capacity, ◌≡◌, ◌<◌, ◌≤◌, ◌^◌, ℕ, true, false, length, take, [], Ok, Err, IfOk, IfErr, IfSome, OnOk, None};
ghost use Rattle.std.specs.Int.{w16, to_be_bytes};
ghost use Rattle.std.specs.Io.KnownBytes.{Consumes, Appends, IsAtEnd};
ghost use Rattle.authority_server.specs.Faults.{IsFaultOf, NoneFailed, WriterFailed, no_faults, reader_failed};
ghost use Rattle.authority_server.specs.Servers.{AreUnguarded, world_of};
ghost use Rattle.authority_server.specs.Serving.{WorldReadsBack};
ghost use Rattle.authority_server.specs.Frames.{frame_of, stream_message, ReadsLess, IsMessageFault, IsReadFault, WritesFront, IsServeFault, ServesFrame, ServesFrames, ServesUntil};

use crate::faults::Faults;
use crate::server::{Authority, ServeError};
use std::io::{Read, Write};
use std::net::SocketAddr;
use thiserror::Error;
use zsv_catalog::{Protocol, TsigSuite, ZoneHandler};

/// Why a stream was left. The frames that were whole before are answered.
#[derive(Clone, Copy, Debug, Error)]
pub enum StreamError {
    /// The reader answered a fault.
    #[error("Read")]
    Read,
    /// The writer answered a fault, took no octets, or failed to flush. A front of the reply's frame may
    /// stand.
    #[error("Write")]
    Write,
    /// The input ended inside a frame.
    #[error("CutFrame")]
    CutFrame,
    /// Out of memory.
    #[error("OutOfMemory")]
    OutOfMemory {
        /// Whether a change that the last message asked for stands.
        applied: bool,
    },
    /// So many frames were read that no number of 64 bits counts one more.
    #[error("TooLong")]
    TooLong,
}

// Reads until the buffer is full or the input ends; how many octets came.
#[inline(always)]
fn fill<R: Read>(
    reader: &mut R,
    faults: &mut Faults,
    buffer: &mut [u8],
) -> Result<usize, StreamError>
    requires { faults.old ≡ no_faults }
    ensures within { IfOk result (λ count. count ≤ length buffer.new) }
    ensures consumed { IfOk result (λ count. Consumes (R.remaining reader.old) (R.remaining reader.new) (take count buffer.new)) }
    ensures at_end { IfOk result (λ count. count < length buffer.new → IsAtEnd (R.remaining reader.new)) }
    ensures well { OnOk result (faults.new ≡ no_faults) }
    ensures cause { IfErr result (λ e. (e ≡ StreamError.Read) × (faults.new ≡ reader_failed)) }
    ensures fault { IfErr result (λ e. ReadsLess (R.remaining reader.old) (R.remaining reader.new) (length buffer.new)) }
{
    let mut at = 0;
    'filling: while at < buffer.len() {
        match faults.read(reader, &mut buffer[at..]) {
            Some(0) => return Ok(at),
            Some(count) => at += count,
            None => return Err(StreamError::Read),
        }
    }
    Ok(at)
}

// The length that two octets tell.
fn length_in(octets: &[u8]) -> u16
    requires { length octets.now ≡ 2 }
    ensures { to_be_bytes w16 result ≡ octets.now }
{
    u16::from_be_bytes([octets[0], octets[1]])
}

// Reads the length of the next message, or None where the input ended before it.
fn read_length<R: Read>(reader: &mut R, faults: &mut Faults) -> Result<Option<u16>, StreamError>
    requires { faults.old ≡ no_faults }
    ensures whole { IfOk result (λ found. IfSome found (λ size. Consumes (R.remaining reader.old) (R.remaining reader.new) (to_be_bytes w16 size))) }
    ensures end { result ≡ Ok None → Consumes (R.remaining reader.old) (R.remaining reader.new) [] × IsAtEnd (R.remaining reader.new) }
    ensures well { OnOk result (faults.new ≡ no_faults) }
    ensures cause { IfErr result (IsFaultOf faults.new) }
    ensures fault { IfErr result (IsReadFault (R.remaining reader.old) (R.remaining reader.new)) }
{
    let mut octets = [0u8; 2];
    let count = fill(reader, faults, &mut octets)?;
    if count == 0 {
        return Ok(None);
    }
    if count < 2 {
        return Err(StreamError::CutFrame);
    }
    Ok(Some(length_in(&octets)))
}

// Reads a message of this length into a frame.
fn read_message<R: Read>(
    reader: &mut R,
    faults: &mut Faults,
    frame: &mut Vec<u8>,
    size: u16,
) -> Result<(), StreamError>
    requires { faults.old ≡ no_faults }
    ensures whole { OnOk result (Consumes (R.remaining reader.old) (R.remaining reader.new) frame.new.items) }
    ensures long { OnOk result (length frame.new.items ≡ size) }
    ensures well { OnOk result (faults.new ≡ no_faults) }
    ensures cause { IfErr result (IsFaultOf faults.new) }
    ensures fault { IfErr result (IsMessageFault (R.remaining reader.old) (R.remaining reader.new) size) }
    ensures memory { result ≡ Err (StreamError.OutOfMemory false) → vec_capacity frame.old < size }
{
    frame.clear();
    if frame.resize(size as usize, 0).is_err() {
        return Err(StreamError::OutOfMemory { applied: false });
    }
    let count = fill(reader, faults, frame.as_mut_slice())?;
    if count < frame.len() {
        return Err(StreamError::CutFrame);
    }
    Ok(())
}

// Reads one frame: whether one came before the input ended.
fn read_frame<R: Read>(
    reader: &mut R,
    faults: &mut Faults,
    frame: &mut Vec<u8>,
) -> Result<bool, StreamError>
    requires { faults.old ≡ no_faults }
    ensures whole { result ≡ Ok true → Consumes (R.remaining reader.old) (R.remaining reader.new) (frame_of frame.new.items) }
    ensures short { result ≡ Ok true → length frame.new.items < 2 ^ 16 }
    ensures end { result ≡ Ok false → Consumes (R.remaining reader.old) (R.remaining reader.new) [] × IsAtEnd (R.remaining reader.new) }
    ensures well { OnOk result (faults.new ≡ no_faults) }
    ensures cause { IfErr result (IsFaultOf faults.new) }
    ensures fault { IfErr result (IsReadFault (R.remaining reader.old) (R.remaining reader.new)) }
{
    match read_length(reader, faults)? {
        None => Ok(false),
        Some(size) => {
            read_message(reader, faults, frame, size)?;
            Ok(true)
        }
    }
}

// Writes octets.
#[inline(always)]
fn put<W: Write>(writer: &mut W, faults: &mut Faults, octets: &[u8]) -> Result<(), StreamError>
    requires { NoneFailed faults.old }
    ensures written { OnOk result (Appends (W.contents writer.old) (W.contents writer.new) octets.now) }
    ensures well { OnOk result (NoneFailed faults.new) }
    ensures cause { IfErr result (λ e. WriterFailed faults.new) }
    ensures fault { IfErr result
        (λ e. (e ≡ StreamError.Write) × (count : ℕ) × (count ≤ length octets.now)
        × Appends (W.contents writer.old) (W.contents writer.new) (take count octets.now)) }
{
    let mut at = 0;
    'writing: while at < octets.len() {
        match faults.write(writer, &octets[at..]) {
            Some(count) => at += count,
            None => return Err(StreamError::Write),
        }
    }
    Ok(())
}

// Writes one frame, and flushes it.
fn write_frame<W: Write>(
    writer: &mut W,
    faults: &mut Faults,
    message: &[u8],
) -> Result<(), StreamError>
    requires short { length message.now < 2 ^ 16 }
    requires none { faults.old ≡ no_faults }
    ensures written { OnOk result (Appends (W.contents writer.old) (W.contents writer.new) (frame_of message.now)) }
    ensures flushed { OnOk result (faults.new ≡ no_faults) }
    ensures cause { IfErr result (λ e. WriterFailed faults.new) }
    ensures fault { IfErr result (λ e. (e ≡ StreamError.Write) × WritesFront (W.contents writer.old) (W.contents writer.new) (frame_of message.now)) }
{
    put(writer, faults, &(message.len() as u16).to_be_bytes())?;
    put(writer, faults, message)?;
    if faults.flush(writer) {
        Ok(())
    } else {
        Err(StreamError::Write)
    }
}

impl<S: TsigSuite, H: ZoneHandler> Authority<S, H> {
    // Serves one message, and writes its reply, if there is one.
    fn serve_frame<W: Write>(
        &mut self,
        message: &[u8],
        writer: &mut W,
        faults: &mut Faults,
        src: SocketAddr,
        now: u64,
    ) -> Result<(), StreamError>
        requires { faults.old ≡ no_faults }
        ensures flushed { OnOk result (faults.new ≡ no_faults) }
        ensures cause { IfErr result (IsFaultOf faults.new) }
        ensures served { OnOk result
            (ServesFrame (world_of S.keys H.view self.old) (stream_message src now message.now) (W.contents writer.old)
            (W.contents writer.new) (world_of S.keys H.view self.new)) }
        ensures fault { IfErr result
            (IsServeFault (world_of S.keys H.view self.old) (stream_message src now message.now) (W.contents writer.old)
            (W.contents writer.new) (world_of S.keys H.view self.new)) }
        ensures back { WorldReadsBack (world_of S.keys H.view self.old) → WorldReadsBack (world_of S.keys H.view self.new) }
        ensures fixed { AreUnguarded (world_of S.keys H.view self.old).chains → world_of S.keys H.view self.new ≡ world_of S.keys H.view self.old }
    {
        match self.serve(message, src, Protocol::Tcp, now) {
            Ok(Some(reply)) => write_frame(writer, faults, &reply),
            Ok(None) => Ok(()),
            Err(ServeError::OutOfMemory { applied }) => Err(StreamError::OutOfMemory { applied }),
        }
    }

    /// Serves framed messages until the input ends, each as over TCP, and writes and flushes each reply before the
    /// next message is read.
    pub fn serve_stream<R: Read, W: Write>(
        &mut self,
        reader: &mut R,
        writer: &mut W,
        src: SocketAddr,
        now: u64,
    ) -> Result<(), StreamError>
        ensures back { WorldReadsBack (world_of S.keys H.view self.old) → WorldReadsBack (world_of S.keys H.view self.new) }
        ensures fixed { AreUnguarded (world_of S.keys H.view self.old).chains → world_of S.keys H.view self.new ≡ world_of S.keys H.view self.old }
        ensures served { OnOk result
            (ServesFrames (world_of S.keys H.view self.old) src now (R.remaining reader.old) (R.remaining reader.new)
            (W.contents writer.old) (W.contents writer.new) (world_of S.keys H.view self.new)) }
        ensures ended { OnOk result (IsAtEnd (R.remaining reader.new)) }
        ensures left { IfErr result
            (ServesUntil (world_of S.keys H.view self.old) src now (R.remaining reader.old) (R.remaining reader.new)
            (W.contents writer.old) (W.contents writer.new) (world_of S.keys H.view self.new)) }
        ensures cut { result ≡ Err StreamError.CutFrame → IsAtEnd (R.remaining reader.new) }
    {
        self.serve_stream_with(reader, writer, &mut Faults::none(), src, now)
    }

    /// Serves as `serve_stream` does, and records beside the stream which side failed: `Read` comes only where the reader
    /// answered a fault, `Write` only where the writer did, took no octets or failed to flush, and any other answer only
    /// where all that was written is flushed.
    pub fn serve_stream_with<R: Read, W: Write>(
        &mut self,
        reader: &mut R,
        writer: &mut W,
        faults: &mut Faults,
        src: SocketAddr,
        now: u64,
    ) -> Result<(), StreamError>
        requires { faults.old ≡ no_faults }
        ensures flushed { OnOk result (faults.new ≡ no_faults) }
        ensures cause { IfErr result (IsFaultOf faults.new) }
        ensures back { WorldReadsBack (world_of S.keys H.view self.old) → WorldReadsBack (world_of S.keys H.view self.new) }
        ensures fixed { AreUnguarded (world_of S.keys H.view self.old).chains → world_of S.keys H.view self.new ≡ world_of S.keys H.view self.old }
        ensures served { OnOk result
            (ServesFrames (world_of S.keys H.view self.old) src now (R.remaining reader.old) (R.remaining reader.new)
            (W.contents writer.old) (W.contents writer.new) (world_of S.keys H.view self.new)) }
        ensures ended { OnOk result (IsAtEnd (R.remaining reader.new)) }
        ensures left { IfErr result
            (ServesUntil (world_of S.keys H.view self.old) src now (R.remaining reader.old) (R.remaining reader.new)
            (W.contents writer.old) (W.contents writer.new) (world_of S.keys H.view self.new)) }
        ensures cut { result ≡ Err StreamError.CutFrame → IsAtEnd (R.remaining reader.new) }
    {
        let mut frame = Vec::new(self.alloc());
        'frames: for _ in 0..u64::MAX {
            if !read_frame(reader, faults, &mut frame)? {
                return Ok(());
            }
            self.serve_frame(&frame, writer, faults, src, now)?;
        }
        Err(StreamError::TooLong)
    }
}
