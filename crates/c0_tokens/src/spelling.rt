// How the reserved words and the marks are written.
ghost use Rattle.std.specs.Prelude.{◌≡◌, ◌==◌, find, map, bytes_eq, option_map};
ghost use Rattle.std.specs.List.{starts_with};
ghost use Rattle.c0_tokens.specs.Spelling.{reserved_words as all_words, marks as all_marks};
ghost use Rattle.c0_tokens.specs.View.{spelling_view};

use crate::token::Mark;

/// How a reserved word or a mark is written.
#[derive(Clone, Copy)]
pub struct Spelling {
    pub text: &'static [u8],
    pub mark: Mark,
}

macro_rules! spellings {
    ($($text:literal, $mark:ident;)*) => {
        [$(Spelling {
            text: $text,
            mark: Mark::$mark,
        }),*]
    };
}

// The reserved words.
#[tactic(auto, unfolding(crate::specs::Spelling::reserved_words))]
fn words() -> [Spelling; 12]
    ensures { map spelling_view result ≡ all_words }
{
    spellings! {
        b"int", Int;
        b"bool", Bool;
        b"struct", Struct;
        b"if", If;
        b"else", Else;
        b"while", While;
        b"return", Return;
        b"new", New;
        b"true", True;
        b"false", False;
        b"null", Null;
        b"asm", Asm;
    }
}

// The marks; those of two bytes stand first.
#[tactic(auto, unfolding(crate::specs::Spelling::marks))]
fn marks() -> [Spelling; 26]
    ensures { map spelling_view result ≡ all_marks }
{
    spellings! {
        b"->", Arrow;
        b"==", Equal;
        b"!=", NotEqual;
        b"<=", AtMost;
        b">=", AtLeast;
        b"&&", And;
        b"||", Or;
        b"{", OpenBrace;
        b"}", CloseBrace;
        b"(", OpenParen;
        b")", CloseParen;
        b"[", OpenBracket;
        b"]", CloseBracket;
        b";", Semicolon;
        b",", Comma;
        b".", Dot;
        b"=", Assign;
        b"<", Less;
        b">", Greater;
        b"+", Plus;
        b"-", Minus;
        b"*", Star;
        b"/", Slash;
        b"%", Percent;
        b"!", Not;
        b"&", Ampersand;
    }
}

// Whether a spelling is this word.
fn is_word(spelling: &Spelling, word: &[u8]) -> bool
    ensures { result ≡ bytes_eq spelling.now.text.now word.now }
{
    spelling.text == word
}

// Whether a spelling stands at the front of a text.
fn is_front(spelling: &Spelling, text: &[u8]) -> bool
    ensures { result ≡ starts_with (λ a b. a == b) text.now spelling.now.text.now }
{
    text.starts_with(spelling.text)
}

// The first of these spellings that is this word.
fn first_word(spellings: &[Spelling], word: &[u8]) -> Option<Spelling>
    ensures { result ≡ find (λ s. bytes_eq s.text.now word.now) spellings.now }
{
    for spelling in spellings {
        if is_word(spelling, word) {
            return Some(*spelling);
        }
    }
    None
}

// The first of these spellings that stands at the front of a text.
fn first_front(spellings: &[Spelling], text: &[u8]) -> Option<Spelling>
    ensures { result ≡ find (λ s. starts_with (λ a b. a == b) text.now s.text.now) spellings.now }
{
    for spelling in spellings {
        if is_front(spelling, text) {
            return Some(*spelling);
        }
    }
    None
}

/// The spelling of a reserved word.
pub fn reserved(word: &[u8]) -> Option<Spelling>
    ensures { option_map spelling_view result ≡ find (λ s. bytes_eq s.0 word.now) all_words }
{
    first_word(&words(), word)
}

/// The spelling of the longest mark at the front of a text.
pub fn front_mark(text: &[u8]) -> Option<Spelling>
    ensures { option_map spelling_view result ≡ find (λ s. starts_with (λ a b. a == b) text.now s.0) all_marks }
{
    first_front(&marks(), text)
}
