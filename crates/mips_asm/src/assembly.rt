// Texts to words.

ghost use Rattle.std.specs.Prelude.{◌≡◌, ◌≢◌, IfOk, IfErr, MatchResult, Ok, Err};
ghost use Rattle.mips_asm.specs.Assembled.{assembled};

use crate::fault::AsmFault;
use crate::pass::{first_fault, positions, words};
use std::alloc::{AllocError, Global};

// The answer for a text, up to want of memory.
fn answer(alloc: Global, text: &[u8]) -> Result<Result<Vec<u32>, AsmFault>, AllocError>
    ensures { IfOk result (λ r. MatchResult r (λ ws. assembled text.now ≡ Ok ws.items) (λ f. assembled text.now ≡ Err f)) }
{
    let positions = positions(alloc, text)?;
    match first_fault(alloc, &positions, text)? {
        Some(fault) => Ok(Err(fault)),
        None => Ok(Ok(words(alloc, &positions, text)?)),
    }
}

/// The words of a text of instructions, directives and labels, or its first fault.
///
/// A line has any number of labels `name:`, then an instruction, `.word value` or `.zero count`, then a comment after
/// `#`, each of which may be missing. The mnemonics are those of the instruction table. The first line that has a fault
/// answers, in a line the fault that stands first in `AsmFault`, and `TooLong` after all lines.
pub fn assemble(alloc: Global, text: &[u8]) -> Result<Vec<u32>, AsmFault>
    ensures ok { IfOk result (λ ws. assembled text.now ≡ Ok ws.items) }
    ensures err { IfErr result (λ f. f ≢ AsmFault.Memory → assembled text.now ≡ Err f) }
{
    match answer(alloc, text) {
        Ok(answer) => answer,
        Err(_) => Err(AsmFault::Memory),
    }
}
