// What holds of the tree of every source.

ghost use Rattle.std.specs.Prelude.{ℕ, ◌≡◌, ◌≤◌, ◌+◌, true, List, length, Result};
ghost use Rattle.c0_tree.specs.Plain.{is_plain};
ghost use Rattle.c0_tree.specs.Tree.{CUnit};
ghost use Rattle.c0_parser.specs.Answer.{IsTreeAnswer};
ghost use Rattle.c0_parser.specs.Faults.{ReadsAs};
ghost use Rattle.c0_parser.specs.Walk.{ReadByWalks};
ghost use Rattle.c0_parser.specs.declared.fault.ReadFault.{ReadFault};
ghost use Rattle.c0_parser.specs.Items.{CItem, IsMadeOf, structs_among, globals_among, functions_among, unit_with};

use c0_tokens::tokens_are_few_and_small;

/// A law: a source that has a tree is a row of items and its end, and its unit is made of these: its structs, globals and functions are those
/// of the source, each in the order of the source. So no item vanishes, and none is added. The other way round, each row of items with the
/// end behind it has the tree that is made of these items.
pub fn unit_has_all_items()
    ensures made { (source : List ℕ) (u : CUnit) → ReadsAs source u → (items : List CItem) × IsMadeOf source items × (u ≡ unit_with (length source) items) }
    ensures reads { (source : List ℕ) (items : List CItem) → IsMadeOf source items → ReadsAs source (unit_with (length source) items) }
    ensures count { (items : List CItem) → length (structs_among items) + length (globals_among items) + length (functions_among items) ≡ length items }
{}

/// A law: of a source there is one answer. It has no second tree, none beside a first token that cannot be, and no second such token.
pub fn sources_have_one_answer()
    ensures { (source : List ℕ) (a b : Result CUnit ReadFault) → IsTreeAnswer source a → IsTreeAnswer source b → a ≡ b }
{}

/// A law: a source that the reading machine reads has the tree that it makes, so the tree of a given text can be computed.
pub fn sources_read_by_walks()
    ensures { ReadByWalks }
{}

/// A law: what a source reads as holds small numbers and short lists.
pub fn readings_are_plain()
    ensures { (source : List ℕ) (u : CUnit) → length source ≤ 1048576 → ReadsAs source u → is_plain u ≡ true }
{
    tokens_are_few_and_small();
}
