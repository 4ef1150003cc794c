//! The body of the program: a zone's text in, framed questions in, framed replies out.

ghost use Rattle.std.specs.Prelude.{◌≡◌, IfErr, IfOk, None, map, option_copied};
ghost use Rattle.std.specs.String.{string_bytes};
ghost use Rattle.authority_transfer.specs.authority_load.zst_zone.zst_handler.Zones.{AreStored, ZoneReadsBack};
ghost use Rattle.authority_server.specs.Servers.{world_of};
ghost use Rattle.authority_server.specs.zsv_catalog.zsv_answer.zst_request.Views.{Stored};
ghost use Rattle.authority_server.specs.zsv_catalog.zsv_update.Keys.{no_keys};
ghost use Rattle.authority.specs.Programs.{Answers, IsLoopback, StatusIs, TextGives, WordsGive, one_zone, out_of_memory, read_or_usage, status_of};

use authority_server::{Authority, Name, NoSuite, RecordSet, StreamError};
use authority_transfer::{
    AxfrPolicy, InMemoryZoneHandler, LoadError, SignerFault, TextError, ZoneSettings,
    ZoneSignature, ZoneSigner, ZoneType, load_zone, parse_owner, parse_u64,
};
use std::alloc::{AllocError, AllocFailed, Global};
use std::io::{Read, Write};
use std::net::{Ipv4Addr, SocketAddr, SocketAddrV4};
use thiserror::Error;

/// The program's zone is signed by nobody.
#[derive(Clone, Copy, Debug)]
pub struct NoSigner;

impl ZoneSigner for NoSigner {
    ghost use Rattle.std.specs.Prelude.{true};

    ghost gives = { λ _ _ _ _. ⊥ };

    ghost fails = { λ _ _ _. true };

    /// It fails for every set.
    fn sign(
        &self,
        _alloc: Global,
        _set: &RecordSet,
        _now: u64,
    ) -> Result<ZoneSignature, SignerFault> {
        Err(SignerFault::Failed)
    }
}

/// Why the program ends before its input does.
#[derive(Clone, Copy, Debug, Error)]
pub enum Fault {
    /// The words are not an origin, a file and a moment.
    #[error("usage: authority ORIGIN ZONEFILE NOW")]
    Words,
    /// The zone's file could not be read as text.
    #[error("zone file unreadable")]
    ZoneFile,
    /// The zone's text is refused.
    #[error("{0}")]
    Zone(LoadError),
    /// The stream was left, or memory was refused before it.
    #[error("stream: {0}")]
    Stream(StreamError),
}

impl From<AllocError> for Fault {
    ghost use Rattle.std.specs.Prelude.{◌≡◌};
    ghost use Rattle.authority.specs.Programs.{out_of_memory};

    ghost from_gives = { λ _ fault. fault ≡ out_of_memory };

    fn from(_refused: AllocError) -> Fault {
        Fault::Stream(StreamError::OutOfMemory { applied: false })
    }
}

impl<T: Drop> From<AllocFailed<T>> for Fault {
    ghost use Rattle.std.specs.Prelude.{◌≡◌};
    ghost use Rattle.authority.specs.Programs.{out_of_memory};

    ghost from_gives = { λ _ fault. fault ≡ out_of_memory };

    fn from(refused: AllocFailed<T>) -> Fault {
        Fault::from(AllocError::from(refused))
    }
}

/// What the words say.
#[derive(Drop)]
struct Command {
    /// Where the zone begins; it ends at the root.
    origin: Name,
    /// The moment at which each message is served, in seconds.
    now: u64,
}

/// Loads a zone and serves framed messages from the reader to the writer until the input ends.
///
/// The words are those behind the program's name; the zone is the text of the file that the second one names, or None
/// where it could not be read. The status: 0 at the end of the input, 2 for wrong words, 3 for the zone, 4 for the
/// stream. A status other than 0 comes with one line to `faults`.
pub fn run<R: Read, W: Write, F: Write>(
    alloc: Global,
    words: &[String],
    zone: Option<&str>,
    reader: &mut R,
    writer: &mut W,
    faults: &mut F,
) -> u8
    ensures status { StatusIs (map string_bytes words.now) (option_copied zone.entry) (R.remaining reader.old)
        (R.remaining reader.new) (W.contents writer.old) (W.contents writer.new) result }
    ensures quiet { result ≡ 0 → F.contents faults.new ≡ F.contents faults.old }
{
    match serve(alloc, words, zone, reader, writer) {
        Ok(()) => 0,
        Err(fault) => {
            let _ = writeln!(faults, "{fault}");
            status(&fault)
        }
    }
}

/// The status of a fault.
fn status(fault: &Fault) -> u8
    ensures { result ≡ status_of fault.now }
{
    match fault {
        Fault::Words => 2,
        Fault::ZoneFile | Fault::Zone(_) => 3,
        Fault::Stream(_) => 4,
    }
}

/// Does all that the program does, but for its line about a fault.
fn serve<R: Read, W: Write>(
    alloc: Global,
    words: &[String],
    zone: Option<&str>,
    reader: &mut R,
    writer: &mut W,
) -> Result<(), Fault>
    ensures { Answers (map string_bytes words.now) (option_copied zone.entry) (R.remaining reader.old)
        (R.remaining reader.new) (W.contents writer.old) (W.contents writer.new) result }
{
    let command = read_words(alloc, words)?;
    let Some(text) = zone else {
        return Err(Fault::ZoneFile);
    };
    let zone = load(alloc, command.origin, text)?;
    let mut server = server_of(alloc, zone)?;
    match server.serve_stream(reader, writer, loopback(), command.now) {
        Ok(()) => Ok(()),
        Err(fault) => Err(Fault::Stream(fault)),
    }
}

/// The server of a zone, which stands alone under its own name.
fn server_of(
    alloc: Global,
    zone: InMemoryZoneHandler<NoSigner>,
) -> Result<Authority<NoSuite, InMemoryZoneHandler<NoSigner>>, Fault>
    requires { ZoneReadsBack zone.zone }
    ensures server { IfOk result (λ server. world_of (λ suite. no_keys) (λ handler. Stored handler.zone) server ≡ one_zone zone.zone) }
    ensures stored { AreStored zone.zone.sets }
    ensures memory { IfErr result (λ fault. fault ≡ out_of_memory) }
{
    let origin = zone.origin().clone()?;
    let mut chain = Vec::new(alloc);
    chain.push(zone)?;
    let mut server = Authority::new(alloc, NoSuite);
    server.upsert(&origin, chain)?;
    Ok(server)
}

/// Where each message counts as sent from: 127.0.0.1, port 53.
fn loopback() -> SocketAddr
    ensures { IsLoopback result }
{
    SocketAddr::V4(SocketAddrV4::new(Ipv4Addr::new(127, 0, 0, 1), 53))
}

/// The zone of the text: kept here, to be transferred by everybody, without proofs of absence.
fn load(alloc: Global, origin: Name, text: &str) -> Result<InMemoryZoneHandler<NoSigner>, Fault>
    ensures text { TextGives origin text.now (λ handler. handler.zone) result }
    ensures reads_back { IfOk result (λ handler. ZoneReadsBack handler.zone) }
    ensures unguarded { IfOk result (λ handler. handler.zone.guard ≡ None) }
{
    let settings = ZoneSettings {
        zone_type: ZoneType::Primary,
        axfr_policy: AxfrPolicy::AllowAll,
        nx_proof_kind: None,
    };
    match load_zone(alloc, origin, settings, text) {
        Ok(zone) => Ok(zone),
        Err(error) => Err(Fault::Zone(error)),
    }
}

/// What the words say.
fn read_words(alloc: Global, words: &[String]) -> Result<Command, Fault>
    ensures { WordsGive (map string_bytes words.now) (λ command. command.origin) (λ command. command.now) result }
{
    match words {
        [origin, _, now] => {
            let now = or_usage(parse_u64(now.as_bytes()))?;
            let origin = or_usage(parse_owner(alloc, origin.as_bytes()))?;
            Ok(Command { origin, now })
        }
        _ => Err(Fault::Words),
    }
}

/// What was read, or the fault.
fn or_usage<X>(read: Result<X, TextError>) -> Result<X, Fault>
    ensures { result ≡ read_or_usage read }
{
    match read {
        Ok(value) => Ok(value),
        Err(TextError::Malformed) => Err(Fault::Words),
        Err(TextError::OutOfMemory) => Err(Fault::from(AllocError)),
    }
}
