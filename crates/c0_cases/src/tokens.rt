// The tokens of a source.

use crate::tree_text::put_bytes;
use c0_tokens::{Lexeme, MAX_SOURCE, Token, tokens};
use std::alloc::{AllocError, Global};
use std::fmt::Write;

// A token: its first byte, the byte after its last one, and what it is.
fn put_token(out: &mut String, token: &Token<'_>) -> Result<(), AllocError> {
    let start = token.start;
    let end = token.end;
    write!(out, "{start}-{end} ")?;
    match token.lexeme {
        Lexeme::Name(text) => {
            out.push_str("name ")?;
            put_bytes(out, text)?;
        }
        Lexeme::Number(value) => write!(out, "number {value}")?,
        Lexeme::AsmText(text) => {
            out.push_str("asm text ")?;
            put_bytes(out, text)?;
        }
        Lexeme::Fixed(mark) => write!(out, "{mark:?}")?,
        Lexeme::Faulty(fault) => write!(out, "{fault:?}")?,
        Lexeme::End => out.push_str("end")?,
    }
    out.push('\n')
}

/// The tokens of a source, each on a line.
pub fn put_tokens(alloc: Global, out: &mut String, source: &[u8]) -> Result<(), AllocError> {
    if source.len() > MAX_SOURCE {
        return out.push_str("too long\n");
    }
    for token in &tokens(alloc, source)? {
        put_token(out, token)?;
    }
    Ok(())
}

/// The last token of a source, of which there may be many.
pub fn put_last(alloc: Global, out: &mut String, source: &[u8]) -> Result<(), AllocError> {
    if source.len() > MAX_SOURCE {
        return out.push_str("too long\n");
    }
    match tokens(alloc, source)?.last() {
        Some(token) => put_token(out, token),
        None => Ok(()),
    }
}
