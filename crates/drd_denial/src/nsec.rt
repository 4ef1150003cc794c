//! RDATA of NSEC records (RFC 4034 section 4.1).
ghost use Rattle.std.specs.Prelude.{◌≡◌, true, ℕ, List, IfOk, IsNone, OnErr, OnOk, MatchOption};
ghost use Rattle.drd_plain.specs.dnw_decoder.Reading.{IsWantOfMemory};
ghost use Rattle.drd_plain.specs.dnw_name.DomainName.{DomainName, domain_name};
ghost use Rattle.dnw_wire.specs.BitMaps.{AreTightMaps};
ghost use Rattle.drd_denial.specs.Nsec.{IsNsecData};

use dnw_wire::{BinDecodable, BinDecoder, BinEncodable, DecodeError, Name, RecordTypeSet};
use std::alloc::{AllocError, Global};

/// RDATA of an NSEC record: the next owner's name, and the types of the owner's sets.
#[derive(Drop)]
pub struct NsecData {
    /// The next owner's name.
    pub next: Name,
    /// The types of the owner's sets.
    pub types: RecordTypeSet,
}

impl NsecData {
    /// The RDATA that octets are: an uncompressed name, and bit maps to the end. None where they are no such RDATA.
    pub fn read(alloc: Global, octets: &[u8]) -> Result<Option<NsecData>, AllocError>
        ensures { IfOk result (λ found. MatchOption found ((next : DomainName) (types : List ℕ) → IsNsecData octets.now next types → ⊥)
            (λ nsec. IsNsecData octets.now nsec.next nsec.types)) }
    {
        let mut decoder = BinDecoder::new(octets);
        let next = match Name::read(alloc, &mut decoder) {
            Ok(next) => next,
            Err(refused) => return nothing(refused),
        };
        let len = octets.len() - decoder.index();
        // Bit maps have at most 8,704 octets.
        if len > 65_535 {
            return Ok(None);
        }
        match RecordTypeSet::read_data(alloc, &mut decoder, len as u16) {
            Ok(types) => Ok(Some(NsecData { next, types })),
            Err(refused) => nothing(refused),
        }
    }
}

// No value, unless memory was refused.
fn nothing<T>(refused: DecodeError) -> Result<Option<T>, AllocError>
    ensures memory { OnOk result (IsWantOfMemory refused → ⊥) }
    ensures none { IfOk result (λ found. IsNone found) }
    ensures err { OnErr result (IsWantOfMemory refused) }
{
    match refused {
        DecodeError::Memory => Err(AllocError),
        _ => Ok(None),
    }
}

/// RDATA of an NSEC record: the next owner's name, uncompressed as RFC 4034 section 4.1.1 asks, and the types of the owner's
/// sets.
pub fn nsec_data(alloc: Global, next: &Name, types: &RecordTypeSet) -> Result<Vec<u8>, AllocError>
    ensures { IfOk result (λ octets. IsNsecData octets.items (domain_name true next.now.labels) types.now) }
{
    let maps = bit_maps(alloc, types)?;
    let mut octets = Vec::from_slice(alloc, next.as_octets())?;
    octets.push(0)?;
    octets.extend_from_slice(&maps)?;
    Ok(octets)
}

/// The types as bit maps (RFC 4034 section 4.1.2).
pub(crate) fn bit_maps(alloc: Global, types: &RecordTypeSet) -> Result<Vec<u8>, AllocError>
    ensures { IfOk result (λ octets. AreTightMaps octets.items types.now) }
{
    match types.to_bytes(alloc) {
        Ok(octets) => Ok(octets),
        Err(_) => Err(AllocError),
    }
}
