//! The header of a message (RFC 1035 section 4.1.1).

ghost use Rattle.std.specs.Prelude.{◌≡◌, ◌+◌, ◌<◌, ◌≤◌, ◌%◌, ◌/◌, ◌++◌, ℕ, List, IfOk, IfErr, OnOk, OnErr};
ghost use Rattle.std.specs.Cmp.Rules.{comparing};
ghost use Rattle.std.proofs.Common.{rules};
ghost use Rattle.dnw_encoder.specs.dnw_decoder.Reading.{IsCut};
ghost use Rattle.dnw_encoder.specs.Effects.{Writes, WritesOctets, IsRefusal};
ghost use Rattle.dnw_encoder.specs.Encoders.{state};
ghost use Rattle.zsv_parts.specs.Headers.{op_code_of, op_code_number, bit, metadata_of, counts_of, header_of, high_octet, low_octet, header_octets, plain_metadata, response_metadata, HeaderAt, FitsHeader};

use dnw_encoder::{BinDecoder, BinEncodable, BinEncoder, DecodeError, EncodedSize, ProtoError};
use zst_codes::ResponseCode;

/// Whether a message asks or answers.
#[derive(Clone, Copy, Debug, PartialEq, Eq)]
pub enum MessageType {
    /// A request.
    Query,
    /// A reply.
    Response,
}

/// What a request asks for. Two operations are equal where their numbers are.
#[derive(Clone, Copy, Debug)]
pub enum OpCode {
    /// A question.
    Query,
    /// A server's status.
    Status,
    /// A zone has changed (RFC 1996).
    Notify,
    /// A change of a zone (RFC 2136).
    Update,
    /// Any other operation, by its number.
    Unknown(u8),
}

impl OpCode {
    /// The operation of a number.
    pub fn from_u8(number: u8) -> OpCode
        ensures { result ≡ op_code_of number }
    {
        match number {
            0 => OpCode::Query,
            2 => OpCode::Status,
            4 => OpCode::Notify,
            5 => OpCode::Update,
            _ => OpCode::Unknown(number),
        }
    }

    /// The number of the operation.
    pub fn code(self) -> u8
        ensures { result ≡ op_code_number self }
    {
        match self {
            OpCode::Query => 0,
            OpCode::Status => 2,
            OpCode::Notify => 4,
            OpCode::Update => 5,
            OpCode::Unknown(number) => number,
        }
    }
}

impl PartialEq for OpCode {
    ghost use Rattle.zsv_parts.specs.Headers.{same_op_code};

    ghost eq = { same_op_code };

    ghost laws = { Prim.search (comparing, rules) };

    fn eq(&self, other: &OpCode) -> bool {
        self.code() == other.code()
    }
}

impl Eq for OpCode {
    ghost laws = { Prim.search (comparing, rules) };
}

/// What a header says beside the counts.
#[derive(Clone, Copy, Debug, PartialEq, Eq)]
pub struct Metadata {
    /// The identifier, which a reply repeats.
    pub id: u16,
    /// Whether the message asks or answers: QR.
    pub message_type: MessageType,
    /// What is asked for.
    pub op_code: OpCode,
    /// AA: the answer is an authority's.
    pub authoritative: bool,
    /// TC: something was left out.
    pub truncation: bool,
    /// RD: recursion is asked for.
    pub recursion_desired: bool,
    /// RA: recursion is to be had.
    pub recursion_available: bool,
    /// AD: the data were validated (RFC 4035 section 3.2.3).
    pub authentic_data: bool,
    /// CD: data that fail validation are welcome (RFC 4035 section 3.2.2).
    pub checking_disabled: bool,
    /// How the request was answered.
    pub response_code: ResponseCode,
}

/// How many entries each section of a message has.
#[derive(Clone, Copy, Debug, PartialEq, Eq, Default)]
pub struct HeaderCounts {
    /// Questions.
    pub queries: u16,
    /// Records that answer.
    pub answers: u16,
    /// Records of authority.
    pub authorities: u16,
    /// Additional records.
    pub additionals: u16,
}

/// A message's first twelve octets.
#[derive(Clone, Copy, Debug, PartialEq, Eq)]
pub struct Header {
    /// The identifier, the flags and the codes.
    pub metadata: Metadata,
    /// The counts.
    pub counts: HeaderCounts,
}

// Whether a bit of an octet is set.
fn is_set(octet: u8, place: u8) -> bool
    requires { place < 8 }
    ensures { result ≡ bit octet place }
{
    octet >> place & 1 == 1
}

impl Metadata {
    /// What the header of a message says that has this identifier, type and operation: no flag is set, and the code is
    /// NoError.
    pub fn new(id: u16, message_type: MessageType, op_code: OpCode) -> Metadata
        ensures { result ≡ plain_metadata id message_type op_code }
    {
        Metadata {
            id,
            message_type,
            op_code,
            authoritative: false,
            truncation: false,
            recursion_desired: false,
            recursion_available: false,
            authentic_data: false,
            checking_disabled: false,
            response_code: ResponseCode::NoError,
        }
    }

    /// What the header of a reply says: it repeats the request's identifier, its operation, RD and CD (RFC 1035 section
    /// 4.1.1, RFC 4035 section 3.2.2). No other flag is set, and the code is NoError.
    pub fn response_from_request(request: &Metadata) -> Metadata
        ensures { result ≡ response_metadata request.now }
    {
        let mut response = Metadata::new(request.id, MessageType::Response, request.op_code);
        response.recursion_desired = request.recursion_desired;
        response.checking_disabled = request.checking_disabled;
        response
    }

    // QR, the operation, AA, TC and RD.
    fn high_octet(&self) -> u8
        ensures { result ≡ high_octet self.now }
    {
        let is_response = self.message_type == MessageType::Response;
        128 * u8::from(is_response)
            + 8 * (self.op_code.code() % 16)
            + 4 * u8::from(self.authoritative)
            + 2 * u8::from(self.truncation)
            + u8::from(self.recursion_desired)
    }

    // RA, AD, CD and the response code.
    fn low_octet(&self) -> u8
        ensures { result ≡ low_octet self.now }
    {
        128 * u8::from(self.recursion_available)
            + 32 * u8::from(self.authentic_data)
            + 16 * u8::from(self.checking_disabled)
            + self.response_code.low()
    }

    // What the identifier and the two octets of flags say.
    fn from_flags(id: u16, high: u8, low: u8) -> Metadata
        ensures { result ≡ metadata_of id high low }
    {
        Metadata {
            id,
            message_type: if is_set(high, 7) {
                MessageType::Response
            } else {
                MessageType::Query
            },
            op_code: OpCode::from_u8(high / 8 % 16),
            authoritative: is_set(high, 2),
            truncation: is_set(high, 1),
            recursion_desired: is_set(high, 0),
            recursion_available: is_set(low, 7),
            authentic_data: is_set(low, 5),
            checking_disabled: is_set(low, 4),
            response_code: u16::from(low % 16).into(),
        }
    }
}

impl Header {
    /// The header at the decoder's index, which moves behind it. Where the message is cut, the decoder stays.
    #[inline(always)]
    pub fn read(decoder: &mut BinDecoder<'_>) -> Result<Header, DecodeError>
        ensures header { IfOk result (λ header. HeaderAt decoder.old.octets decoder.old.index header decoder.new.index) }
        ensures same { decoder.new.octets ≡ decoder.old.octets }
        ensures err { OnErr result (decoder.new ≡ decoder.old) }
        ensures cut { IfErr result (IsCut 12 decoder.old.octets decoder.old.index) }
    {
        let octets = decoder.read_slice(12)?.unverified();
        let id = u16::from_be_bytes([octets[0], octets[1]]);
        let (high, low) = (octets[2], octets[3]);
        let queries = u16::from_be_bytes([octets[4], octets[5]]);
        let answers = u16::from_be_bytes([octets[6], octets[7]]);
        let authorities = u16::from_be_bytes([octets[8], octets[9]]);
        let additionals = u16::from_be_bytes([octets[10], octets[11]]);
        Ok(Header {
            metadata: Metadata::from_flags(id, high, low),
            counts: HeaderCounts {
                queries,
                answers,
                authorities,
                additionals,
            },
        })
    }

    /// The twelve octets of the header. Of the operation and of the response four bits are written.
    pub fn octets(self) -> [u8; 12]
        ensures octets { result ≡ header_octets self }
        ensures value { FitsHeader self.metadata → (rest : List ℕ) → header_of (result ++ rest) ≡ self }
    {
        let metadata = self.metadata;
        let counts = self.counts;
        let [id, id_low] = metadata.id.to_be_bytes();
        let [questions, questions_low] = counts.queries.to_be_bytes();
        let [answers, answers_low] = counts.answers.to_be_bytes();
        let [authorities, authorities_low] = counts.authorities.to_be_bytes();
        let [additionals, additionals_low] = counts.additionals.to_be_bytes();
        [
            id,
            id_low,
            metadata.high_octet(),
            metadata.low_octet(),
            questions,
            questions_low,
            answers,
            answers_low,
            authorities,
            authorities_low,
            additionals,
            additionals_low,
        ]
    }
}

impl BinEncodable for Header {
    ghost emits = { λ header old new. WritesOctets (header_octets header) old new };

    ghost refuses = { λ header old e new. (new ≡ old) × IsRefusal old 12 e };

    /// Writes the twelve octets of the header.
    fn emit(&self, encoder: &mut BinEncoder<'_>) -> Result<(), ProtoError>
        ensures same_reference { encoder.new.buffer.ghost_name ≡ encoder.old.buffer.ghost_name }
        ensures writes { Writes (state encoder.old) (state encoder.new) }
        ensures ok { OnOk result (WritesOctets (header_octets self.now) (state encoder.old) (state encoder.new)) }
        ensures fits { OnOk result ((state encoder.old).offset + 12 ≤ (state encoder.old).maximum) }
        ensures err { OnErr result (state encoder.new ≡ state encoder.old) }
        ensures cause { IfErr result (IsRefusal (state encoder.old) 12) }
    {
        encoder.emit_vec(&self.octets())
    }
}

impl EncodedSize for Header {
    ghost use Rattle.std.proofs.Common.{refl, arith};

    ghost LEN = { 12 };

    const LEN: usize = 12;

    ghost octets = { λ header. header_octets header };

    ghost laws = { λ header. (Prim.omega arith, refl, λ old new puts. puts, λ old new e refused. refused.0) };
}
