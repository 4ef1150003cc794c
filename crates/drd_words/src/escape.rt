//! Octets as texts with escapes (RFC 1035 5.1, with octal digits).
ghost use Rattle.std.specs.Prelude.{◌⊎◌, IfOk, IfErr};
ghost use Rattle.drd_words.specs.Word.{IsOutOfMemory};
ghost use Rattle.drd_words.specs.Escapes.{EscapedText, RefusesEscapes};

use dnw_lexer::ParseError;
use dnw_name::octet_at;
use std::alloc::{AllocError, Global};

/// The octets that a text with escapes stands for. Refused is a `\` at its end, or before digits that aren't three octal
/// ones of an octet.
pub fn unescaped(alloc: Global, text: &[u8]) -> Result<Vec<u8>, ParseError>
    ensures ok { IfOk result (λ octets. EscapedText text.now octets.items) }
    ensures refused { IfErr result (λ e. IsOutOfMemory e ⊎ RefusesEscapes text.now e) }
{
    let mut octets = match Vec::with_capacity(alloc, text.len()) {
        Ok(octets) => octets,
        Err(_) => return Err(ParseError::Memory(AllocError)),
    };
    let mut rest = text;
    'octets: while !rest.is_empty() {
        let Some((octet, behind)) = octet_at(rest) else {
            return Err(ParseError::Message("a backslash that begins no octet"));
        };
        match octets.push(octet) {
            Ok(()) => rest = behind,
            Err(_) => return Err(ParseError::Memory(AllocError)),
        }
    }
    Ok(octets)
}
