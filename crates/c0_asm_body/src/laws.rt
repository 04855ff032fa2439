//! What the code of asm functions does. Each law is the contract of a function that does nothing; it holds in each world that holds the
//! code, on the physical machine and on the flat one.

ghost use Rattle.std.specs.Prelude.{ℕ, List, IsTrue};
ghost use Rattle.mips_table.specs.Code.{World, Sound};
ghost use Rattle.c0_meaning.specs.Asm.{are_allowed_words};
ghost use Rattle.c0_asm_body.specs.Laws.{AsmRuns, AreEncoded};

use c0_meaning::run_laws::asm_bodies_look_at_their_registers;
use masm::laws::{runs_compose, straight_code_runs};
use mips_table::decoding::encoding_of_decoding;
use mips_table::runs::{a_processor_keeps_words, code_runs_join};

/// The words of asm bodies are those of instructions.
pub fn bodies_are_encoded()
    ensures { (words : List ℕ) → IsTrue (are_allowed_words words) → AreEncoded words }
{
    encoding_of_decoding();
}

/// The code of an asm function gives its result.
pub fn asm_bodies_run()
    ensures { (w : World) → Sound w → AsmRuns w }
{
    encoding_of_decoding();
    a_processor_keeps_words();
    code_runs_join();
    runs_compose();
    straight_code_runs();
    asm_bodies_look_at_their_registers();
}
