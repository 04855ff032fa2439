// Laws of the tokens of a source.
ghost use Rattle.std.specs.Prelude.{ℕ, ◌+◌, ◌≤◌, List, length};
ghost use Rattle.c0_tokens.specs.Nesting.{tokens_of};
ghost use Rattle.c0_tokens.specs.Spelling.{Spelling};
ghost use Rattle.c0_tokens.specs.Order.{EndsOnce, TokensInOrder, NumbersFit, CutsLongest};

/// A law: a source has a token, its last token and no other is the end or a token of no source, and the tokens stand one after
/// another within the source, each with a first byte but the end and tokens of no source.
pub fn tokens_stand_in_order()
    ensures ends { (source : List ℕ) → EndsOnce (tokens_of source) }
    ensures order { (source : List ℕ) → TokensInOrder 0 (length source) (tokens_of source) }
{}

/// A law: a source has at most one token more than it has bytes, and its numbers are at most 2147483647.
pub fn tokens_are_few_and_small()
    ensures count { (source : List ℕ) → length (tokens_of source) ≤ length source + 1 }
    ensures numbers { (source : List ℕ) → NumbersFit (tokens_of source) }
{}

/// A law: of the marks that stand at the front of a text, the longest is its token.
pub fn longest_mark_is_cut()
    ensures { (text : List ℕ) (mark : Spelling) → CutsLongest text mark }
{}
