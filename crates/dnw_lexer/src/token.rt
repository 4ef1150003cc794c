//! Tokens.

/// What a text of a zone file is made of.
#[derive(Debug, Drop)]
pub enum Token {
    /// Blanks at a line's front.
    Blank,
    /// The words between `(` and `)`.
    List(Vec<String>),
    /// A word, or a string in quotes.
    CharData(String),
    /// `@` alone.
    At,
    /// `$INCLUDE`.
    Include,
    /// `$ORIGIN`.
    Origin,
    /// `$TTL`.
    Ttl,
    /// A line's end.
    EOL,
}
