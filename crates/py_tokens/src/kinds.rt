//! What a piece of a text can be.

/// What a token is.
#[derive(Clone, Copy, Debug, PartialEq, Eq)]
pub enum TokenKind {
    /// An identifier that is no keyword.
    Name,
    /// One of the 35 keywords.
    Keyword,
    /// An integer literal.
    Int,
    /// A floating point literal.
    Float,
    /// An imaginary literal.
    Imag,
    /// A string or bytes literal that is no f-string.
    Str,
    /// The prefix and the opening quote of an f-string.
    FStart,
    /// A run of text in an f-string, or in the format of one of its fields.
    FText,
    /// `!r`, `!s` or `!a` in a field of an f-string.
    FConversion,
    /// The closing quote of an f-string.
    FEnd,
    /// An operator or delimiter; in an f-string also the braces, `=` and `:` of a field.
    Operator,
}

/// Why the tokens of a line are not as they should be.
#[derive(Clone, Copy, Debug, PartialEq, Eq)]
pub enum TokenFault {
    /// No token begins there.
    BadCharacter,
    /// A string is not closed.
    UnclosedString,
    /// The text ends at a depth of brackets and fields above 0.
    UnclosedBracket,
    /// A line stands at a column to the left of its block, and no open block has this column.
    BadDedent,
    /// Brackets and fields, or blocks, are more than 64 deep.
    NestingLimit,
    /// An integer literal is above 2^127 - 1.
    WideLiteral,
}

/// What stands between tokens.
#[derive(Clone, Copy)]
pub enum Gap {
    Blanks,
    Comment,
    /// A backslash and the line end behind it.
    Join,
    /// A line end at a depth above 0 or inside a field.
    InnerEnd,
    /// A line end that ends a logical line.
    LineEnd,
}

/// What a piece of the text is.
#[derive(Clone, Copy)]
pub enum Kind {
    Token(TokenKind),
    Gap(Gap),
    Fault(TokenFault),
}

/// A piece of the text, and how many characters it has.
#[derive(Clone, Copy)]
pub struct Piece {
    pub kind: Kind,
    pub len: usize,
}
