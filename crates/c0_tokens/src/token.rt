// A token.

/// A reserved word, or a mark.
#[derive(Clone, Copy, PartialEq, Eq, Debug)]
pub enum Mark {
    /// `int`
    Int,
    /// `bool`
    Bool,
    /// `struct`
    Struct,
    /// `if`
    If,
    /// `else`
    Else,
    /// `while`
    While,
    /// `return`
    Return,
    /// `new`
    New,
    /// `true`
    True,
    /// `false`
    False,
    /// `null`
    Null,
    /// `asm`
    Asm,
    /// `{`
    OpenBrace,
    /// `}`
    CloseBrace,
    /// `(`
    OpenParen,
    /// `)`
    CloseParen,
    /// `[`
    OpenBracket,
    /// `]`
    CloseBracket,
    /// `;`
    Semicolon,
    /// `,`
    Comma,
    /// `.`
    Dot,
    /// `->`
    Arrow,
    /// `=`
    Assign,
    /// `==`
    Equal,
    /// `!=`
    NotEqual,
    /// `<`
    Less,
    /// `<=`
    AtMost,
    /// `>`
    Greater,
    /// `>=`
    AtLeast,
    /// `+`
    Plus,
    /// `-`
    Minus,
    /// `*`
    Star,
    /// `/`
    Slash,
    /// `%`
    Percent,
    /// `!`
    Not,
    /// `&`
    Ampersand,
    /// `&&`
    And,
    /// `||`
    Or,
}

/// Why a token is a token of no source.
#[derive(Clone, Copy, PartialEq, Eq, Debug)]
pub enum TokenFault {
    /// A byte that begins no token.
    BadByte,
    /// A number with a leading 0 before a further digit, or above 2147483647.
    BadNumber,
    /// The 65th bracket that is open at once, or the 513th token after the last `;`, `{`, `}` or the start.
    TooNested,
}

/// What a token is.
#[derive(Clone, Copy, PartialEq, Eq, Debug)]
pub enum Lexeme<'a> {
    /// Letters, digits and `_`, with no digit first, and no reserved word.
    Name(&'a [u8]),
    /// At most 2147483647.
    Number(u32),
    /// The bytes between the braces after the word `asm`.
    AsmText(&'a [u8]),
    /// A reserved word, or a mark.
    Fixed(Mark),
    /// A token of no source.
    Faulty(TokenFault),
    /// The end of the source.
    End,
}

/// A token: what it is, its first byte, and the byte after its last one, from 0. The end of the source stands at its length.
#[derive(Clone, Copy, PartialEq, Eq, Debug)]
pub struct Token<'a> {
    pub lexeme: Lexeme<'a>,
    pub start: u32,
    pub end: u32,
}
