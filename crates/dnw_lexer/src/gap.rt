//! What stands between words.
ghost use Rattle.std.specs.Prelude.{◌≡◌, ◌∷◌, ◌||◌, ◌==◌, not, false, if◌then◌else◌, chars};
ghost use Rattle.dnw_codes.specs.Ascii.{is_blank, line_feed, semicolon};
ghost use Rattle.dnw_lexer.specs.Lexer.{at_line_end, behind_line_end, without_blanks, line_end, without_comment, after_gap, begins_blank};

use crate::character::split_char;

/// Whether a character is a blank.
pub fn is_blank(c: char) -> bool
    ensures { result ≡ is_blank c }
{
    c == ' ' || c == '\t'
}

/// Whether a text begins with a blank.
pub fn begins_blank(text: &str) -> bool
    ensures { result ≡ begins_blank (chars text.now) }
{
    match split_char(text) {
        Some((c, _)) => is_blank(c),
        None => false,
    }
}

/// Whether a line's end stands here: LF, or CR and LF.
pub fn at_line_end(c: char, behind: &str) -> bool
    ensures { result ≡ at_line_end (c ∷ chars behind.now) }
{
    match split_char(behind) {
        Some((d, _)) => c == '\n' || (c == '\r' && d == '\n'),
        None => c == '\n',
    }
}

/// What stands behind a line's end that begins with this character.
pub fn behind_line_end<'a>(c: char, behind: &'a str) -> &'a str
    ensures { chars result.now ≡ behind_line_end (c ∷ chars behind.now) }
{
    match split_char(behind) {
        Some((_, later)) if c != '\n' => later,
        _ => behind,
    }
}

/// The text without the blanks at its front.
pub fn without_blanks(text: &str) -> &str
    ensures { chars result.now ≡ without_blanks (chars text.now) }
{
    let mut rest = text;
    'blanks: while let Some((c, behind)) = split_char(rest) {
        if !is_blank(c) {
            return rest;
        }
        rest = behind;
    }
    rest
}

/// The text from its first line's end on.
pub fn line_end(text: &str) -> &str
    ensures { chars result.now ≡ line_end (chars text.now) }
{
    let mut rest = text;
    'characters: while let Some((c, behind)) = split_char(rest) {
        if at_line_end(c, behind) {
            return rest;
        }
        rest = behind;
    }
    rest
}

/// The text without the comment at its front.
pub fn without_comment(text: &str) -> &str
    ensures { chars result.now ≡ without_comment (chars text.now) }
{
    match split_char(text) {
        Some((';', behind)) => line_end(behind),
        _ => text,
    }
}

/// The text without the blanks, comments and line ends at its front.
pub fn behind_gap(text: &str) -> &str
    ensures { chars result.now ≡ after_gap false (chars text.now) }
{
    let mut rest = text;
    let mut comment = false;
    'characters: while let Some((c, behind)) = split_char(rest) {
        if !passes(comment, c, behind) {
            return rest;
        }
        comment = in_comment(comment, c);
        rest = behind;
    }
    rest
}

// Whether a character stands in a gap.
fn passes(comment: bool, c: char, behind: &str) -> bool
    ensures { result ≡ (comment || is_blank c || at_line_end (c ∷ chars behind.now) || c == semicolon) }
{
    comment || is_blank(c) || at_line_end(c, behind) || c == ';'
}

// Whether a comment goes on behind a character of a gap.
fn in_comment(comment: bool, c: char) -> bool
    ensures { result ≡ (if comment then not (c == line_feed) else c == semicolon) }
{
    if comment { c != '\n' } else { c == ';' }
}
