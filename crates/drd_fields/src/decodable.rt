//! Record data whose length the record tells.
use dnw_encoder::{BinDecoder, DecodeError, Restrict};
use std::alloc::Global;

/// Record data that go to the end of so many octets, as the length of their record has it (RFC 1035 3.2.1).
pub trait RecordDataDecodable: Sized {
    ghost use Rattle.std.specs.Prelude.{◌≡◌, ◌+◌, ◌≤◌, ◌⊎◌, ℕ, List, length as size, IfOk, IfErr, OnOk};
    ghost use Rattle.dnw_encoder.specs.dnw_codes.declared.error.DecodeError.{DecodeError as Error};
    ghost use Rattle.dnw_encoder.specs.dnw_decoder.Reading.{IsWantOfMemory};

    // The value stands in a message from a place to an end.
    ghost reads: { List ℕ → ℕ → Self → ℕ → Type 0 };

    // Why none stands in a message from a place to an end, and where reading stopped.
    ghost refuses: { List ℕ → ℕ → ℕ → Error → ℕ → Type 0 };

    /// The value in so many octets at the decoder's index, which moves behind them. On an error the decoder is where
    /// reading stopped.
    fn read_data(
        alloc: Global,
        decoder: &mut BinDecoder<'_>,
        length: Restrict<u16>,
    ) -> Result<Self, DecodeError>
        ensures ok { IfOk result (λ value. reads decoder.old.octets decoder.old.index value (decoder.old.index + length)) }
        ensures end { OnOk result (decoder.new.index ≡ decoder.old.index + length) }
        ensures same { decoder.new.octets ≡ decoder.old.octets }
        ensures forward { decoder.old.index ≤ decoder.new.index }
        ensures within { decoder.new.index ≤ size decoder.new.octets }
        ensures refused { IfErr result (λ e. refuses decoder.old.octets decoder.old.index (decoder.old.index + length) e decoder.new.index) }
        ensures none { IfErr result (λ e. IsWantOfMemory e
            ⊎ ((value : Self) → reads decoder.old.octets decoder.old.index value (decoder.old.index + length) → ⊥)) };
}
