//! The names that the lines of a list write.
ghost use Rattle.std.specs.Prelude.{◌≡◌};
ghost use Rattle.std.specs.Option.{option_copied};
ghost use Rattle.zsv_blocked.specs.ListText.{entry_of, is_all_blank, name_text, name_text_of_line};

/// The text of the name on a line of a list, if the line has one.
pub(crate) fn name_text_of_line(line: &str) -> Option<&str>
    ensures { option_copied result ≡ name_text_of_line line.now }
{
    name_text(entry_of(line))
}

// A line without the comment behind a `#` and the blanks around what is left; a line without a comment as it is.
fn entry_of(line: &str) -> &str
    ensures { result.now ≡ entry_of line.now }
{
    match line.split_once('#') {
        Some((entry, _)) => entry.trim(),
        None => line,
    }
}

// The text of an entry's name: the entry, or what stands in it behind the address 0.0.0.0 and a space.
fn name_text(entry: &str) -> Option<&str>
    ensures { option_copied result ≡ name_text entry.now }
{
    match entry.split_once(' ') {
        Some((address, name)) => {
            if address.trim() == "0.0.0.0" && !is_all_blank(name) {
                return Some(name);
            }
            None
        }
        None => {
            if entry.is_empty() {
                return None;
            }
            Some(entry)
        }
    }
}

// Whether a text holds nothing but blanks.
fn is_all_blank(text: &str) -> bool
    ensures { result ≡ is_all_blank text.now }
{
    text.trim().is_empty()
}
