// The image of a user program: its source, read, checked and compiled.
ghost use Rattle.std.specs.Prelude.{◌≡◌, ◌≢◌, IfErr, IfSome, IfNone, IsErrOf, Some, option_map};
ghost use Rattle.real_layer.specs.Image.{layer_image};
ghost use Rattle.run_scripts.specs.Command as command;
ghost use Rattle.run_scripts.specs.Command.{compile_program as of_program};
ghost use Rattle.run_scripts.specs.CompileProgram as compiling;
ghost use Rattle.cvm_shell.specs.Does.{Gets, CommandDoes};
ghost use Rattle.run_scripts.specs.Served.{files_of};
ghost use Rattle.run_scripts.specs.Plan.{AfterProgram};
ghost use Rattle.cvm_shell.specs.Stages.{program_stop, puts_made, PutsAs, FilesPlan};
ghost use Rattle.cvm_shell.specs.Views.{program_view, IfPlan};

use crate::assembly::little_endian;
use crate::boot::Stop;
use crate::getting::get_file;
use crate::putting::put_made;
use crate::refusal::Refusal;
use c0_meaning::laws::least_fault_is_there;
use c0_types::read_program;
use cvm_outside::{Shelf, Sink};
use run_scripts::Status;
use std::alloc::Global;
use user_c0::{UserFault, compile_user};

/// The command `compile program SRC IMG`.
#[derive(Clone, Copy, Drop)]
pub struct CompileProgram<'a> {
    /// The name of the source's file.
    pub source: &'a str,
    /// The name of the image's file.
    pub image: &'a str,
}

impl From<UserFault> for Stop {
    ghost from_gives = { λ f e. e ≡ program_stop f };

    fn from(fault: UserFault) -> Self {
        match fault {
            UserFault::Memory => Stop::Memory,
            fault => Stop::Refused(Refusal::BadProgram(fault)),
        }
    }
}

/// Reads the words of a compilation of a user program, None where they aren't those of one.
pub fn read_compile_program(words: &Vec<String>) -> Option<CompileProgram<'_>>
    ensures found { IfSome result (λ c. compiling.IsCompileProgram (command.word_texts words.now.items) (program_view c)) }
    ensures only { (c : compiling.CompileProgram) → compiling.IsCompileProgram (command.word_texts words.now.items) c
        → option_map program_view result ≡ Some c }
    ensures none { IfNone result ((c : compiling.CompileProgram) → compiling.IsCompileProgram (command.word_texts words.now.items) c → ⊥) }
{
    let [word, kind, source, image] = words.as_slice() else {
        return None;
    };
    if word.as_str() != "compile" {
        return None;
    }
    if kind.as_str() != "program" {
        return None;
    }
    Some(CompileProgram {
        source: source.as_str(),
        image: image.as_str(),
    })
}

/// Gets the source of a user program, reads, checks and compiles it: the bytes of the program's image, which is its words, each
/// little-endian, and nothing else.
pub fn program_image<S: Shelf>(
    alloc: Global,
    names: &CompileProgram,
    shelf: &mut S,
) -> Result<Vec<u8>, Stop>
    ensures comes { IfPlan (puts_made names.now.image.now) (FilesPlan layer_image (S.file shelf.old) (of_program (program_view names.now))) result }
    ensures gets { Gets S.Shelf (files_of (of_program (program_view names.now))) shelf.old shelf.new result }
{
    let source = get_file(alloc, names.source, shelf)?;
    compiled_program(alloc, &source)
}

// The bytes of the image that a source comes to.
fn compiled_program(alloc: Global, source: &[u8]) -> Result<Vec<u8>, Stop>
    ensures comes { PutsAs (λ name. AfterProgram name source.now) result }
    ensures inside { IfErr result (λ s. s ≢ Stop.Shelf) }
    ensures short { IsErrOf result (Stop.Refused Refusal.TooLong) → ⊥ }
{
    least_fault_is_there();
    let unit = read_program(alloc, source)?;
    let words = compile_user(alloc, &unit)?;
    match little_endian(alloc, &words) {
        Ok(image) => Ok(image),
        Err(_) => Err(Stop::Memory),
    }
}

/// Puts the image of a user program, whose source is got, read, checked and compiled.
pub fn compile_program<S: Shelf, O: Sink>(
    alloc: Global,
    names: &CompileProgram,
    shelf: &mut S,
    out: &mut O,
) -> Status
    ensures { CommandDoes S.Shelf O.Sink (of_program (program_view names.now)) result (shelf.old, out.old) (shelf.new, out.new) }
{
    let image = program_image(alloc, names, shelf);
    put_made(image, names.image, shelf, out)
}
