//! What a shell takes a character for.
ghost use Rattle.std.specs.Prelude.{◌≡◌};
ghost use Rattle.duct_words.specs.Split.{is_plain, kind_of};

/// What an unquoted character is to a shell.
#[derive(Clone, Copy)]
pub(crate) enum Kind {
    /// A part of a word.
    Ordinary,
    /// `%`, which makes a job of a command's first word that begins with it.
    Percent,
    /// A space or a tab.
    Blank,
    Newline,
    SingleQuote,
    DoubleQuote,
    Backslash,
    Pipe,
    Less,
    Greater,
    /// `=`, which makes an assignment of a command's first word.
    Equals,
    /// `$` or a backtick, which begins an expansion between double quotes too.
    Expansion,
    /// Any other character that a shell may expand or obey.
    Special,
}

/// Whether a character is written without quotes: a letter or a digit of ASCII, or one of
/// `@%+:,./-_`.
pub(crate) fn is_plain(c: char) -> bool
    ensures { result ≡ is_plain c }
{
    c.is_ascii_alphanumeric() || ['@', '%', '+', ':', ',', '.', '/', '-', '_'].contains(&c)
}

/// What a character is, where no quote is open.
#[tactic(auto, unfolding(crate::specs::Split::kind_of))]
pub(crate) fn kind_of(c: char) -> Kind
    ensures { result ≡ kind_of c }
{
    match c {
        '%' => Kind::Percent,
        _ if is_plain(c) => Kind::Ordinary,
        ' ' | '\t' => Kind::Blank,
        '\n' => Kind::Newline,
        '\'' => Kind::SingleQuote,
        '"' => Kind::DoubleQuote,
        '\\' => Kind::Backslash,
        '|' => Kind::Pipe,
        '<' => Kind::Less,
        '>' => Kind::Greater,
        '=' => Kind::Equals,
        '$' | '`' => Kind::Expansion,
        '*' | '?' | '[' | '~' | '#' | ';' | '&' | '(' | ')' | '{' | '}' | '!' => Kind::Special,
        _ => Kind::Ordinary,
    }
}
