// Cutting a text at a byte, and the blanks around one.

ghost use Rattle.std.specs.Prelude.{◌≡◌, ◌==◌, ◌+◌, ◌∷◌, [], length, IfSome, IfNone};
ghost use Rattle.std.specs.List.{slice_split};
ghost use Rattle.std.specs.Option.{option_map_or};
ghost use Rattle.cvm_text.specs.Blanks.{trim as trim_of, trim_start as trim_start_of};

/// What stands before the first byte `at`, and what stands after it if there
/// is one. A text is read line by line by cutting it at LF again and again.
pub fn cut(text: &[u8], at: u8) -> (&[u8], Option<&[u8]>)
    ensures split { slice_split (λ x. x == at) text.now
        ≡ result.0.now ∷ option_map_or (λ rest. slice_split (λ x. x == at) rest.now) result.1 [] }
    ensures parts { IfSome result.1 (λ rest. length result.0.now + 1 + length rest.now ≡ length text.now) }
    ensures last { IfNone result.1 (result.0.now ≡ text.now) }
{
    for (index, c) in text.iter().enumerate() {
        if *c == at {
            return (&text[..index], Some(&text[index + 1..]));
        }
    }
    (text, None)
}

/// A text without the blanks before it: ASCII spaces, tabs, line feeds, form
/// feeds and carriage returns.
pub fn trim_start(text: &[u8]) -> &[u8]
    ensures { result.now ≡ trim_start_of text.now }
{
    text.trim_ascii_start()
}

/// A text without the blanks before and after it.
pub fn trim(text: &[u8]) -> &[u8]
    ensures { result.now ≡ trim_of text.now }
{
    text.trim_ascii()
}
