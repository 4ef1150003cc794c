//! The words of a line.

ghost use Rattle.std.specs.Prelude.{◌≡◌, ◌<◌, not, [], ◌∷◌, length, position, MatchOption, IfSome};
ghost use Rattle.std.specs.List.{list_all};
ghost use Rattle.dnw_lexer.specs.dnw_codes.Ascii.{is_blank};
ghost use Rattle.authority_load.specs.ZoneText.{behind_word, is_skipped_line, words_of};

/// The first word, and the text after it.
pub fn first_word(text: &str) -> Option<(&str, &str)>
    ensures { MatchOption result (words_of text.now ≡ []) (λ p. (words_of text.now ≡ p.0.now ∷ words_of p.1.now) × (p.1.now ≡ behind_word text.now)) }
{
    let (_, from_word) = text.split_at(first_plain(text.as_bytes())?);
    let len = first_blank(from_word.as_bytes()).unwrap_or(from_word.len());
    Some(from_word.split_at(len))
}

/// The offset of the first octet that isn't a space or a tab.
fn first_plain(text: &[u8]) -> Option<usize>
    ensures place { result ≡ position (λ octet. not (is_blank octet)) text.now }
    ensures bound { IfSome result (λ place. place < length text.now) }
{
    text.iter().position(|octet| !is_blank_octet(*octet))
}

/// The offset of the first space or tab.
fn first_blank(text: &[u8]) -> Option<usize>
    ensures place { result ≡ position is_blank text.now }
    ensures bound { IfSome result (λ place. place < length text.now) }
{
    text.iter().position(|octet| is_blank_octet(*octet))
}

/// Whether an octet is a space or a tab.
fn is_blank_octet(octet: u8) -> bool
    ensures { result ≡ is_blank octet }
{
    octet == b' ' || octet == b'\t'
}

/// Whether a line has no record: it is blank, or begins with `;`.
pub fn is_skipped(line: &[u8]) -> bool
    ensures { result ≡ is_skipped_line line.now }
{
    match line.first() {
        Some(b';') => true,
        _ => is_blank_text(line),
    }
}

/// Whether a text has only spaces and tabs.
fn is_blank_text(line: &[u8]) -> bool
    ensures { result ≡ list_all is_blank line.now }
{
    line.iter().all(|octet| is_blank_octet(*octet))
}
