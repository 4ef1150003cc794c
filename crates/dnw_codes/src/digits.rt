//! Decimal digits.
ghost use Rattle.std.specs.Prelude.{◌≡◌};
ghost use Rattle.dnw_codes.specs.Digits.{number_of_digits, number_behind as number_behind_of};

/// The number that a text of decimal digits alone writes, if 16 bits hold it.
pub fn number_of_digits(digits: &str) -> Option<u16>
    ensures { result ≡ number_of_digits digits.now }
{
    if digits.starts_with('+') {
        return None;
    }
    digits.parse().ok()
}

/// The number of the decimal digits behind a word, if the text begins with it and 16 bits hold the number.
pub fn number_behind(word: &str, text: &str) -> Option<u16>
    ensures { result ≡ number_behind_of word.now text.now }
{
    number_of_digits(text.strip_prefix(word)?)
}
