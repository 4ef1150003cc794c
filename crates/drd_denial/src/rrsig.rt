//! RDATA of RRSIG records (RFC 4034 section 3.1).
ghost use Rattle.std.specs.Prelude.{◌≡◌, false, ◌&&◌, nat_le, length, IfOk, MatchOption};
ghost use Rattle.dnw_wire.specs.dnw_codes.RecordType.{record_type_number};
ghost use Rattle.drd_plain.specs.dnw_decoder.Octets.{octets_16};
ghost use Rattle.drd_denial.specs.Rrsig.{IsSigning, front_octets, rrsig_octets, signing};

use dnw_wire::{BinEncodable, Name, RecordType};
use std::alloc::{AllocError, Global};
use std::marker::Model;

/// What a signer gives for a set (RFC 4034 section 3.1). A contract sees it as a `Signing`.
#[derive(Drop)]
pub struct ZoneSignature {
    algorithm: u8,
    expiration: u32,
    inception: u32,
    key_tag: u16,
    signer: Name,
    octets: Vec<u8>,
}

impl Model for ZoneSignature {
    ghost use Rattle.drd_plain.specs.dnw_decoder.Octets.{octets_16};
    ghost use Rattle.drd_denial.specs.Rrsig.{IsSigning, Signing};

    ghost Value = { Signing };

    ghost view = { λ s. record {
      algorithm = s.algorithm;
      expiration = s.expiration;
      inception = s.inception;
      key_tag = s.key_tag;
      signer = s.signer;
      octets = s.octets.items;
    } };

    ghost invariant = { λ s. IsSigning record {
      algorithm = s.algorithm;
      expiration = s.expiration;
      inception = s.inception;
      key_tag = s.key_tag;
      signer = s.signer;
      octets = s.octets.items;
    } };
}

impl ZoneSignature {
    /// The most octets that a signature has.
    pub const MAX_LENGTH: usize = 4_096;

    /// A signature by the key of an algorithm and a tag, valid between two moments in seconds since 1970. None where the
    /// signer's name isn't fully qualified, or the signature has more than 4,096 octets.
    pub fn new(
        algorithm: u8,
        key_tag: u16,
        signer: Name,
        inception: u32,
        expiration: u32,
        octets: Vec<u8>,
    ) -> Option<ZoneSignature>
        ensures { MatchOption result ((signer.fqdn && nat_le (length octets.items) 4096) ≡ false)
            (λ s. s ≡ signing algorithm key_tag signer inception expiration octets.items) }
    {
        if !signer.is_fqdn() || octets.len() > ZoneSignature::MAX_LENGTH {
            return None;
        }
        Some(ZoneSignature {
            algorithm,
            expiration,
            inception,
            key_tag,
            signer,
            octets,
        })
    }

    // The octets of the algorithm, the labels and the four numbers.
    fn front(&self, labels: u8, original_ttl: u32) -> [u8; 16]
        ensures octets { result ≡ front_octets labels original_ttl self.now }
        ensures signing { IsSigning self.now }
    {
        let [ttl_0, ttl_1, ttl_2, ttl_3] = original_ttl.to_be_bytes();
        let [end_0, end_1, end_2, end_3] = self.expiration.to_be_bytes();
        let [start_0, start_1, start_2, start_3] = self.inception.to_be_bytes();
        let [tag_high, tag_low] = self.key_tag.to_be_bytes();
        [
            self.algorithm,
            labels,
            ttl_0,
            ttl_1,
            ttl_2,
            ttl_3,
            end_0,
            end_1,
            end_2,
            end_3,
            start_0,
            start_1,
            start_2,
            start_3,
            tag_high,
            tag_low,
        ]
    }
}

// The number of a type in two octets.
fn type_octets(alloc: Global, record_type: RecordType) -> Result<Vec<u8>, AllocError>
    ensures { IfOk result (λ octets. octets.items ≡ octets_16 (record_type_number record_type)) }
{
    match record_type.to_bytes(alloc) {
        Ok(octets) => Ok(octets),
        Err(_) => Err(AllocError),
    }
}

/// RDATA of the RRSIG record of a set: the set's type, the labels of its owner, its TTL, and what the signer gave, the
/// signer's name uncompressed (RFC 4034 section 3.1).
pub fn rrsig_data(
    alloc: Global,
    covered: RecordType,
    labels: u8,
    original_ttl: u32,
    signature: &ZoneSignature,
) -> Result<Vec<u8>, AllocError>
    ensures octets { IfOk result (λ octets. octets.items ≡ rrsig_octets (record_type_number covered) labels original_ttl signature.now) }
    ensures signing { IsSigning signature.now }
{
    let front = signature.front(labels, original_ttl);
    let mut octets = type_octets(alloc, covered)?;
    octets.extend_from_slice(&front)?;
    octets.extend_from_slice(signature.signer.as_octets())?;
    octets.push(0)?;
    octets.extend_from_slice(&signature.octets)?;
    Ok(octets)
}
