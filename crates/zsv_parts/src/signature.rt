//! Signatures as records that are written (RFC 8945 section 4.2).

ghost use Rattle.std.specs.Prelude.{◌≡◌, ◌+◌, ◌<◌, ◌≤◌, ◌^◌, length, IfErr, MatchOption, OnOk};
ghost use Rattle.dnw_encoder.specs.dnw_name.DomainName.{IsDomainName, name_octets};
ghost use Rattle.dnw_encoder.specs.Effects.{Writes, WritesOctets, IsRefusal};
ghost use Rattle.dnw_encoder.specs.Encoders.{state};
ghost use Rattle.zsv_parts.specs.Signatures.{tsig_octets};
ghost use Rattle.zsv_parts.specs.SignatureRecords.{EmitsTsigRecord, RefusesTsigRecord, tsig_numbers};

use crate::tsig::{Tsig, TsigRecord, count_of, emit_two};
use dnw_encoder::{BinEncodable, BinEncoder, ProtoError};

impl Tsig {
    // How many octets the data take, whose lengths these are, if 16 bits count them.
    fn data_len(&self, mac_size: u16, other_len: u16) -> Option<u16>
        requires mac { mac_size ≡ length self.now.mac.items }
        requires other { other_len ≡ length self.now.other.items }
        ensures { MatchOption result (2 ^ 16 ≤ length (tsig_octets self.now)) (λ len. len ≡ length (tsig_octets self.now)) }
    {
        let name = self.algorithm.as_octets().len();
        let len = name + 17 + usize::from(mac_size) + usize::from(other_len);
        match u16::try_from(len) {
            Ok(len) => Some(len),
            Err(_) => None,
        }
    }
}

impl TsigRecord {
    // What stands between the owner and the data: the type, the class, the time to live, and how many octets the data take.
    fn numbers(&self, len: u16) -> [u8; 10]
        ensures octets { result ≡ tsig_numbers self.now len }
        ensures small { self.now.ttl < 2 ^ 32 }
    {
        let ttl = self.ttl;
        let [class, class_low] = u16::from(self.dns_class).to_be_bytes();
        let [highest, high, low, lowest] = ttl.to_be_bytes();
        let [len, len_low] = len.to_be_bytes();
        [
            0, 250, class, class_low, highest, high, low, lowest, len, len_low,
        ]
    }

    // Writes the owner in full.
    fn emit_owner(&self, encoder: &mut BinEncoder<'_>) -> Result<(), ProtoError>
        ensures same_reference { encoder.new.buffer.ghost_name ≡ encoder.old.buffer.ghost_name }
        ensures writes { Writes (state encoder.old) (state encoder.new) }
        ensures name { IsDomainName self.now.name }
        ensures ok { OnOk result (WritesOctets (name_octets self.now.name) (state encoder.old) (state encoder.new)) }
        ensures cause { IfErr result (IsRefusal (state encoder.old) (length (name_octets self.now.name))) }
    {
        emit_two(encoder, self.name.as_octets(), &[0])
    }
}

impl BinEncodable for TsigRecord {
    ghost emits = { EmitsTsigRecord };

    ghost refuses = { λ signature old e new. RefusesTsigRecord signature old e };

    /// Writes the record: the owner in full, the type, the class, the time to live, and the data behind the number of their
    /// octets. Refused are data of more than 65,535 octets, and a MAC or other data of more.
    fn emit(&self, encoder: &mut BinEncoder<'_>) -> Result<(), ProtoError> {
        let mac_size = count_of(&self.rdata.mac)?;
        let other_len = count_of(&self.rdata.other)?;
        let Some(len) = self.rdata.data_len(mac_size, other_len) else {
            return Err(ProtoError::Message("a signature of more than 65,535 octets"));
        };
        self.emit_owner(encoder)?;
        encoder.emit_vec(&self.numbers(len))?;
        self.rdata.emit_data(encoder, mac_size, other_len)
    }
}
