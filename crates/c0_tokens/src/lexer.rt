// The tokens of a source.
ghost use Rattle.std.specs.Prelude.{◌≡◌, ◌<◌, ◌≤◌, ◌+◌, true, false, not, ◌==◌, ◌&&◌, length, drop, map, IfOk, SomeIff};
ghost use Rattle.std.specs.List.{AllPass, prefix_len, position_or_len};
ghost use Rattle.c0_tokens.specs.Lexis.{is_digit as is_digit_of, is_letter as is_letter_of, is_word_byte as is_word_byte_of, is_blank as is_blank_of};
ghost use Rattle.c0_tokens.specs.Lexis.{is_close_brace, gap, digits_value as digits_value_of, number_lexeme as number_lexeme_of, word_lexeme as word_lexeme_of};
ghost use Rattle.c0_tokens.specs.Lexis.{mark_cut as mark_cut_of, asm_cut as asm_cut_of, word_cut as word_cut_of, number_cut as number_cut_of, longest_token};
ghost use Rattle.c0_tokens.specs.Lexis.{is_unclosed as is_unclosed_of, text_from_token as next_text_of, is_asm_word as is_asm_of, is_last as is_last_of};
ghost use Rattle.c0_tokens.specs.Nesting.{tokens_of};
ghost use Rattle.c0_tokens.specs.Tokens.{lexeme_view, token_view};
ghost use Rattle.c0_tokens.specs.View.{cut_view};

use crate::nesting::Depth;
use crate::spelling::{front_mark, reserved};
use crate::token::{Lexeme, Mark, Token, TokenFault};
use std::alloc::{AllocError, Global};

/// The most bytes of a source: 1,048,576.
pub const MAX_SOURCE: usize = 1048576;

// The largest number of C0.
const MAX_NUMBER: u64 = 2147483647;

/// A token and the bytes after it.
#[derive(Clone, Copy)]
pub struct Cut<'a> {
    pub lexeme: Lexeme<'a>,
    pub rest: &'a [u8],
}

// Whether it is a letter of ASCII or `_`.
fn is_letter(byte: u8) -> bool
    ensures { result ≡ is_letter_of byte }
{
    byte.is_ascii_alphabetic() || byte == b'_'
}

// Whether it is a digit.
fn is_digit(byte: u8) -> bool
    ensures { result ≡ is_digit_of byte }
{
    byte.is_ascii_digit()
}

// Whether a name or a number may have it.
fn is_word_byte(byte: u8) -> bool
    ensures { result ≡ is_word_byte_of byte }
{
    is_letter(byte) || is_digit(byte)
}

// Whether it is a space, a tab, a CR or an LF.
fn is_blank(byte: u8) -> bool
    ensures { result ≡ is_blank_of byte }
{
    matches!(byte, b' ' | b'\t' | b'\r' | b'\n')
}

// How many bytes at the front are letters, digits and `_`.
fn word_len(text: &[u8]) -> usize
    ensures { result ≡ prefix_len is_word_byte_of text.now }
{
    text.iter().take_while(|byte| is_word_byte(**byte)).count()
}

// How many bytes at the front are digits.
fn digits_len(text: &[u8]) -> usize
    ensures { result ≡ prefix_len is_digit_of text.now }
{
    text.iter().take_while(|byte| is_digit(**byte)).count()
}

// How many bytes the line at the front has, without its LF.
fn line_len(text: &[u8]) -> usize
    ensures { result ≡ prefix_len (λ b. not (b == 10)) text.now }
{
    text.iter().take_while(|byte| **byte != b'\n').count()
}

// How many bytes stand before the first closing brace.
fn body_len(text: &[u8]) -> usize
    ensures { result ≡ position_or_len is_close_brace text.now }
{
    text.iter().take_while(|byte| **byte != b'}').count()
}

// The reserved word or the name that these bytes are.
fn word_lexeme(text: &[u8]) -> Lexeme<'_>
    ensures { lexeme_view result ≡ word_lexeme_of text.now }
{
    match reserved(text) {
        Some(spelling) => Lexeme::Fixed(spelling.mark),
        None => Lexeme::Name(text),
    }
}

// The number that these digits spell, where it is at most MAX_NUMBER.
fn digits_value(digits: &[u8]) -> Option<u32>
    requires { AllPass is_digit_of digits.now }
    ensures { SomeIff result (digits_value_of digits.now ≤ 2147483647) (digits_value_of digits.now) }
{
    let mut value = 0u64;
    for digit in digits {
        value = 10 * value + u64::from(*digit - b'0');
        if value > MAX_NUMBER {
            return None;
        }
    }
    Some(value as u32)
}

// The token that a run of digits is.
fn number_lexeme<'a>(digits: &[u8]) -> Lexeme<'a>
    requires digits { AllPass is_digit_of digits.now }
    requires some { 0 < length digits.now }
    ensures { lexeme_view result ≡ number_lexeme_of digits.now }
{
    if digits[0] == b'0' && digits.len() > 1 {
        return Lexeme::Faulty(TokenFault::BadNumber);
    }
    match digits_value(digits) {
        Some(value) => Lexeme::Number(value),
        None => Lexeme::Faulty(TokenFault::BadNumber),
    }
}

// The bytes after so many.
fn after(text: &[u8], len: usize) -> &[u8]
    requires { len ≤ length text.now }
    ensures { result.now ≡ drop len text.now }
{
    &text[len..]
}

// The longest mark at the front of a text that isn't empty, or the byte that begins none.
fn mark_cut(text: &[u8]) -> Cut<'_>
    requires { 0 < length text.now }
    ensures { cut_view result ≡ mark_cut_of text.now }
{
    match front_mark(text) {
        Some(spelling) => Cut {
            lexeme: Lexeme::Fixed(spelling.mark),
            rest: after(text, spelling.text.len()),
        },
        None => Cut {
            lexeme: Lexeme::Faulty(TokenFault::BadByte),
            rest: after(text, 1),
        },
    }
}

// Whether an opening brace stands at the front and no closing one after it.
fn is_unclosed(text: &[u8]) -> bool
    ensures { result ≡ is_unclosed_of text.now }
{
    !text.is_empty() && text[0] == b'{' && body_len(&text[1..]) == text.len() - 1
}

// The asm text that follows an opening brace.
fn asm_cut(text: &[u8]) -> Cut<'_>
    requires { position_or_len is_close_brace text.now < length text.now }
    ensures { cut_view result ≡ asm_cut_of text.now }
{
    let len = body_len(text);
    Cut {
        lexeme: Lexeme::AsmText(&text[..len]),
        rest: &text[len + 1..],
    }
}

// The reserved word or the name at the front of a text.
fn word_cut(text: &[u8]) -> Cut<'_>
    ensures { cut_view result ≡ word_cut_of text.now }
{
    let (word, rest) = text.split_at(word_len(text));
    Cut {
        lexeme: word_lexeme(word),
        rest,
    }
}

// The number at the front of a text that begins with a digit.
fn number_cut(text: &[u8]) -> Cut<'_>
    requires { 0 < prefix_len is_digit_of text.now }
    ensures { cut_view result ≡ number_cut_of text.now }
{
    let (digits, rest) = text.split_at(digits_len(text));
    Cut {
        lexeme: number_lexeme(digits),
        rest,
    }
}

// The longest token at the front of a text where no gap stands, and whether the word `asm` came before it.
fn first_token(text: &[u8], after_asm: bool) -> Cut<'_>
    requires { after_asm && is_unclosed_of text.now ≡ false }
    ensures { cut_view result ≡ longest_token after_asm text.now }
{
    if text.is_empty() {
        Cut {
            lexeme: Lexeme::End,
            rest: text,
        }
    } else if after_asm && text[0] == b'{' {
        asm_cut(after(text, 1))
    } else if is_letter(text[0]) {
        word_cut(text)
    } else if is_digit(text[0]) {
        number_cut(text)
    } else {
        mark_cut(text)
    }
}

// How many bytes the blank or the comment at the front has, or 0 where neither stands there.
fn blank_len(text: &[u8]) -> usize
    ensures within { result ≤ length text.now }
    ensures more { gap text.now ≡ result + gap (drop result text.now) }
    ensures none { result ≡ 0 → gap text.now ≡ 0 }
{
    if text.is_empty() {
        0
    } else if is_blank(text[0]) {
        1
    } else if text.starts_with(b"//") {
        line_len(text)
    } else {
        0
    }
}

// The text after the blanks and comments at its front.
fn after_gap(text: &[u8]) -> &[u8]
    ensures { result.now ≡ drop (gap text.now) text.now }
{
    let mut rest = text;
    loop {
        let len = blank_len(rest);
        if len == 0 {
            return rest;
        }
        rest = &rest[len..];
    }
}

// The text from its next token on; nothing where an asm text isn't closed.
fn next_text(text: &[u8], after_asm: bool) -> &[u8]
    ensures next { result.now ≡ next_text_of after_asm text.now }
    ensures closed { after_asm && is_unclosed_of result.now ≡ false }
{
    let rest = after_gap(text);
    if after_asm && is_unclosed(rest) {
        &rest[rest.len()..]
    } else {
        rest
    }
}

// Whether it is the word `asm`.
fn is_asm(lexeme: &Lexeme<'_>) -> bool
    ensures { result ≡ is_asm_of (lexeme_view lexeme.now) }
{
    matches!(lexeme, Lexeme::Fixed(Mark::Asm))
}

// Nothing is read after the end, nor after a token of no source.
fn is_last(lexeme: &Lexeme<'_>) -> bool
    ensures { result ≡ is_last_of (lexeme_view lexeme.now) }
{
    matches!(lexeme, Lexeme::Faulty(_) | Lexeme::End)
}

/// The tokens of a source of at most 1,048,576 bytes, up to its end or the first token of no source, in time linear in its length.
/// The one error is want of memory.
pub fn tokens<'a>(alloc: Global, source: &'a [u8]) -> Result<Vec<Token<'a>>, AllocError>
    requires { length source.now ≤ 1048576 }
    ensures { IfOk result (λ ts. map token_view ts.items ≡ tokens_of source.now) }
{
    let mut tokens = Vec::new(alloc);
    let mut rest = source;
    let mut after_asm = false;
    let mut depth = Depth::outside();
    loop {
        let text = next_text(rest, after_asm);
        let cut = first_token(text, after_asm);
        let lexeme = depth.read(cut.lexeme);
        tokens.push(Token {
            lexeme,
            start: (source.len() - text.len()) as u32,
            end: (source.len() - cut.rest.len()) as u32,
        })?;
        if is_last(&lexeme) {
            return Ok(tokens);
        }
        after_asm = is_asm(&cut.lexeme);
        depth = depth.after(&cut.lexeme);
        rest = cut.rest;
    }
}
