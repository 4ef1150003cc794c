//! The additional section: the options and the signature of a message stand among its records (RFC 6891 section 6.1.1,
//! RFC 8945 section 5.1).

ghost use Rattle.std.specs.Prelude.{◌≡◌, ◌+◌, ◌-◌, ◌<◌, ◌≤◌, ◌^◌, ◌⊎◌, ℕ, List, [], Option, Some, None, true, false, length, slice_get, IfOk, IfErr, IfNone, IfSome, OnOk};
ghost use Rattle.zst_edns.specs.declared.edns.Edns.{Edns as Options};
ghost use Rattle.zsv_sections.specs.zst_record.dnw_decoder.Reading.{IsWantOfMemory};
ghost use Rattle.zsv_sections.specs.zst_record.declared.records.Record.{Record as Entry};
ghost use Rattle.zsv_sections.specs.zsv_parts.declared.header.OpCode.{OpCode};
ghost use Rattle.zsv_sections.specs.zsv_parts.declared.tsig.TsigRecord.{TsigRecord as Signature};
ghost use Rattle.zsv_sections.specs.zsv_parts.Signatures.{RefusesTsig, TsigAt};
ghost use Rattle.zsv_message.specs.Gathering.{Gathers, IsBareOpt, holds_options};
ghost use Rattle.zsv_message.specs.Messages.{AdditionalsAt, IsEdnsRecord, IsSigned, OptAt, RefusesAdditionals, data_octets, is_update as updates};

use drd_types::OPT;
use std::alloc::Global;
use std::mem;
use zst_edns::Edns;
use zsv_sections::{
    BinDecoder, DNSClass, DecodeError, Placing, RData, Record, Tsig, TsigRecord, is_opt, is_tsig,
    push, read_placed,
};

/// What is kept of an additional section.
#[derive(Drop)]
pub(crate) struct Additionals {
    /// The records that are neither options nor a signature by a shared key.
    pub(crate) records: Vec<Record>,
    /// The options.
    pub(crate) edns: Option<Edns>,
    /// The signature by a shared key, in a list of at most one: it is large, and few messages have one.
    pub(crate) signature: Vec<TsigRecord>,
    /// Where the next record stands.
    next: Placing,
}

// The options of a message that a record holds.
fn options_of(standing: Record) -> Edns
    requires { holds_options standing.rdata ≡ true }
    ensures { IsEdnsRecord standing result }
{
    let Record {
        dns_class,
        ttl,
        rdata,
        ..
    } = standing;
    match rdata {
        RData::OPT(options) => Edns::from_fields(dns_class, ttl, options),
        _ => unreachable!(),
    }
}

// The class and the TTL of a record of options at the decoder's index, where the root owns it, and there are none in it. The
// decoder moves behind it.
#[inline(always)]
fn read_bare(decoder: &mut BinDecoder<'_>) -> Option<(u16, u32)>
    ensures there { IfSome result (λ fields. IsBareOpt decoder.old.octets decoder.old.index fields.0 fields.1 decoder.new.index) }
    ensures same { decoder.new.octets ≡ decoder.old.octets }
{
    let owner = decoder.read_u8().ok()?.unverified();
    let record_type = decoder.read_u16().ok()?.unverified();
    if owner != 0 || record_type != 41 {
        return None;
    }
    let class = decoder.read_u16().ok()?.unverified();
    let ttl = decoder.read_u32().ok()?.unverified();
    let len = decoder.read_u16().ok()?.unverified();
    if len != 0 {
        return None;
    }
    Some((class, ttl))
}

// What a record of options at the decoder's index says, where the root owns it, and there are none in it: then the decoder
// moves behind it.
#[inline(always)]
fn read_options(alloc: Global, decoder: &mut BinDecoder<'_>) -> Option<Edns>
    ensures there { IfSome result (λ edns. OptAt decoder.old.octets decoder.old.index edns decoder.new.index) }
    ensures none { IfNone result (decoder.new ≡ decoder.old) }
    ensures same { decoder.new.octets ≡ decoder.old.octets }
{
    let start = decoder.index();
    match read_bare(decoder) {
        Some((class, ttl)) => {
            let options = OPT::new(Vec::new(alloc));
            Some(Edns::from_fields(DNSClass::from(class), ttl, options))
        }
        None => {
            decoder.set_index(start);
            None
        }
    }
}

// How many octets data have that are kept as octets.
fn data_len(rdata: &RData) -> u16
    ensures { (octets : List ℕ) → data_octets rdata.now ≡ Some octets → length octets < 2 ^ 16 → result ≡ length octets }
{
    match rdata {
        RData::Unknown { rdata, .. } => match u16::try_from(rdata.anything.len()) {
            Ok(len) => len,
            Err(_) => 0,
        },
        _ => 0,
    }
}

// The signature whose record ends at the decoder's index; its data are so many octets. They are read where they stand,
// since the name in them may have pointers.
fn signature_of(
    alloc: Global,
    decoder: &mut BinDecoder<'_>,
    standing: Record,
    len: u16,
) -> Result<TsigRecord, DecodeError>
    requires { len ≤ decoder.old.index }
    ensures ok { IfOk result (IsSigned decoder.old.octets (decoder.old.index - len) len standing) }
    ensures stays { OnOk result (decoder.new ≡ decoder.old) }
    ensures same { decoder.new.octets ≡ decoder.old.octets }
    ensures refused { IfErr result (RefusesTsig decoder.old.octets (decoder.old.index - len) len) }
    ensures none { IfErr result (λ e. IsWantOfMemory e
        ⊎ ((r : Entry) (t : Signature) → IsSigned decoder.old.octets (decoder.old.index - len) len r t → ⊥)) }
{
    let Record {
        name,
        dns_class,
        ttl,
        rdata,
    } = standing;
    mem::drop(rdata);
    decoder.set_index(decoder.index() - usize::from(len));
    let rdata = Tsig::read_data(alloc, decoder, len)?;
    Ok(TsigRecord {
        name,
        dns_class,
        ttl,
        rdata,
    })
}

impl Additionals {
    // Nothing yet.
    #[inline(always)]
    fn new(alloc: Global, is_update: bool) -> Additionals
        ensures records { result.records.items ≡ [] }
        ensures edns { result.edns ≡ None }
        ensures signature { result.signature.items ≡ [] }
        ensures next { result.next ≡ record { is_update = is_update; is_additional = true; is_signed = false; has_options = false } }
    {
        Additionals {
            records: Vec::new(alloc),
            edns: None,
            signature: Vec::new(alloc),
            next: Placing {
                is_update,
                is_additional: true,
                is_signed: false,
                has_options: false,
            },
        }
    }

    // Keeps the options that stand at the decoder's index, where they may, and there are none in them: so most messages have
    // them. Of any other record nothing is read.
    #[inline(always)]
    fn take_options(&mut self, alloc: Global, decoder: &mut BinDecoder<'_>) -> bool
        ensures taken { result ≡ true → (op : OpCode) (place n : ℕ) → Gathers op decoder.old.octets place n self.old decoder.old.index
            → Gathers op decoder.old.octets place (n + 1) self.new decoder.new.index }
        ensures left { result ≡ false → (decoder.new ≡ decoder.old) × (self.new ≡ self.old) }
        ensures same { decoder.new.octets ≡ decoder.old.octets }
    {
        if !self.next.is_additional || self.next.is_signed || self.next.has_options {
            return false;
        }
        match read_options(alloc, decoder) {
            Some(edns) => {
                self.next.has_options = true;
                self.edns = Some(edns);
                true
            }
            None => false,
        }
    }

    // The next record, at the decoder's index, and what is kept of it.
    #[inline(always)]
    fn read_next(&mut self, alloc: Global, decoder: &mut BinDecoder<'_>) -> Result<(), DecodeError>
        ensures ok { (op : OpCode) (place n : ℕ) → Gathers op decoder.old.octets place n self.old decoder.old.index
            → OnOk result (Gathers op decoder.old.octets place (n + 1) self.new decoder.new.index) }
        ensures same { decoder.new.octets ≡ decoder.old.octets }
        ensures refused { (op : OpCode) (place n count : ℕ) → n < count → Gathers op decoder.old.octets place n self.old decoder.old.index
            → IfErr result (λ e. IsWantOfMemory e ⊎ RefusesAdditionals op decoder.old.octets place count e) }
        ensures none { (op : OpCode) (place n count : ℕ) → n < count → Gathers op decoder.old.octets place n self.old decoder.old.index
            → IfErr result (λ e. IsWantOfMemory e
            ⊎ ((rs : List Entry) (o : Option Options) (t : Option Signature) (end : ℕ)
            → AdditionalsAt decoder.old.octets op place count rs o t end → ⊥)) }
    {
        if self.take_options(alloc, decoder) {
            return Ok(());
        }
        self.read_any(alloc, decoder)
    }

    // The same, whatever record it is.
    fn read_any(&mut self, alloc: Global, decoder: &mut BinDecoder<'_>) -> Result<(), DecodeError>
        ensures ok { (op : OpCode) (place n : ℕ) → Gathers op decoder.old.octets place n self.old decoder.old.index
            → OnOk result (Gathers op decoder.old.octets place (n + 1) self.new decoder.new.index) }
        ensures same { decoder.new.octets ≡ decoder.old.octets }
        ensures refused { (op : OpCode) (place n count : ℕ) → n < count → Gathers op decoder.old.octets place n self.old decoder.old.index
            → IfErr result (λ e. IsWantOfMemory e ⊎ RefusesAdditionals op decoder.old.octets place count e) }
        ensures none { (op : OpCode) (place n count : ℕ) → n < count → Gathers op decoder.old.octets place n self.old decoder.old.index
            → IfErr result (λ e. IsWantOfMemory e
            ⊎ ((rs : List Entry) (o : Option Options) (t : Option Signature) (end : ℕ)
            → AdditionalsAt decoder.old.octets op place count rs o t end → ⊥)) }
    {
        let standing = read_placed(alloc, decoder, self.next)?;
        self.next = self.next.past(&standing);
        if is_opt(&standing) {
            self.edns = Some(options_of(standing));
            return Ok(());
        }
        if is_tsig(&standing) {
            let len = data_len(&standing.rdata);
            let signature = signature_of(alloc, decoder, standing, len)?;
            let Ok(()) = push(&mut self.signature, signature) else {
                return Err(DecodeError::Memory);
            };
            return Ok(());
        }
        let Ok(()) = push(&mut self.records, standing) else {
            return Err(DecodeError::Memory);
        };
        Ok(())
    }

    /// What is kept of so many records from the decoder's index on, which moves behind them.
    #[inline(always)]
    pub(crate) fn read(
        alloc: Global,
        decoder: &mut BinDecoder<'_>,
        count: u16,
        is_update: bool,
    ) -> Result<Additionals, DecodeError>
        ensures ok { (op : OpCode) → is_update ≡ updates op → IfOk result
            (λ a. AdditionalsAt decoder.old.octets op decoder.old.index count a.records.items a.edns (slice_get a.signature.items 0) decoder.new.index) }
        ensures same { decoder.new.octets ≡ decoder.old.octets }
        ensures refused { (op : OpCode) → is_update ≡ updates op → IfErr result
            (λ e. IsWantOfMemory e ⊎ RefusesAdditionals op decoder.old.octets decoder.old.index count e) }
        ensures none { (op : OpCode) → is_update ≡ updates op → IfErr result (λ e. IsWantOfMemory e
            ⊎ ((rs : List Entry) (o : Option Options) (t : Option Signature) (end : ℕ)
            → AdditionalsAt decoder.old.octets op decoder.old.index count rs o t end → ⊥)) }
    {
        let mut found = Additionals::new(alloc, is_update);
        'records: for _ in 0..count {
            found.read_next(alloc, decoder)?;
        }
        Ok(found)
    }
}
