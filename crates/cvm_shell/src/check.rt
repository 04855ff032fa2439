// A check: how much stack the kernel of an object needs, read off the object's source.
ghost use Rattle.std.specs.Prelude.{◌≡◌, ◌≢◌, ⊤, IfSome, IfNone, IfOk, IfErr, IsErrOf, Some, option_map};
ghost use Rattle.c0_tree.specs.View.{unit_view};
ghost use Rattle.real_layer.specs.Image.{layer_image};
ghost use Rattle.run_scripts.specs.Check as checking;
ghost use Rattle.run_scripts.specs.Check.{IsCheck, TellsUnit};
ghost use Rattle.run_scripts.specs.Command as command;
ghost use Rattle.cvm_shell.specs.Does.{Gets, CommandDoes};
ghost use Rattle.run_scripts.specs.Served.{files_of};
ghost use Rattle.run_scripts.specs.Plan.{AfterChecked, IsPlan};
ghost use Rattle.cvm_shell.specs.Stages.{told_text, FilesPlan};
ghost use Rattle.cvm_shell.specs.Views.{check_view, IfPlan, IsStackNumber};

use crate::boot::Stop;
use crate::command::read_number;
use crate::getting::get_file;
use crate::refusal::Refusal;
use crate::saying::{say, say_stop};
use bound_check::{answer_text, answers_are_one, bound};
use c0_meaning::Checked;
use c0_types::laws::sources_have_one_answer;
use cvm_outside::{Shelf, Sink};
use kernel_linker::open_object;
use object_file::{bytes_have_one_answer, read};
use run_scripts::Status;
use std::alloc::{AllocError, Global};

/// The fewest words of stack that a check names, as many as the least of a system.
const LEAST_STACK: u64 = 64;

/// The most words of stack that a check names, as many as the most of a system.
const MOST_STACK: u64 = 262_144;

/// The command `check OBJ STACK`.
#[derive(Clone, Copy, Drop)]
pub struct Check<'a> {
    /// The name of the object's file.
    pub object: &'a str,
    /// The words of stack beside which the answer is given, 64 to 262,144.
    pub stack: u32,
}

/// Reads the words of a check, None where they aren't those of one.
pub fn read_check(words: &Vec<String>) -> Option<Check<'_>>
    ensures found { IfSome result (λ c. IsCheck (command.word_texts words.now.items) (check_view c)) }
    ensures only { (c : checking.Check) → IsCheck (command.word_texts words.now.items) c → option_map check_view result ≡ Some c }
    ensures none { IfNone result ((c : checking.Check) → IsCheck (command.word_texts words.now.items) c → ⊥) }
{
    let [word, object, stack] = words.as_slice() else {
        return None;
    };
    if word.as_str() != "check" {
        return None;
    }
    let stack = read_stack(stack.as_str())?;
    Some(Check {
        object: object.as_str(),
        stack,
    })
}

// The words of stack, 64 to 262,144, that a text is the decimal spelling of.
fn read_stack(text: &str) -> Option<u32>
    ensures { IsStackNumber text.now result }
{
    let number = read_number(text)?;
    if number < LEAST_STACK {
        return None;
    }
    if number > MOST_STACK {
        return None;
    }
    Some(number as u32)
}

/// Prints how much stack the kernel of an object needs, beside the words that the check names.
///
/// The object is got, read and opened; its kernel's longest chain of calls from `dispatch` is printed with its words, or the loop of calls
/// that it has. No file and no sector changes. The status is that of `run`.
pub fn check_object<S: Shelf, O: Sink>(
    alloc: Global,
    check: &Check,
    shelf: &mut S,
    out: &mut O,
) -> Status
    ensures { CommandDoes S.Shelf O.Sink (command.check (check_view check.now)) result (shelf.old, out.old) (shelf.new, out.new) }
{
    match stack_text(alloc, check, shelf) {
        Ok(text) => say(out, &text, Status::Done),
        Err(stop) => say_stop(stop, out),
    }
}

/// Gets an object, reads and opens it: the text of how much stack its kernel needs.
pub fn stack_text<S: Shelf>(alloc: Global, check: &Check, shelf: &mut S) -> Result<Vec<u8>, Stop>
    ensures comes { IfPlan told_text (FilesPlan layer_image (S.file shelf.old) (command.check (check_view check.now))) result }
    ensures gets { Gets S.Shelf (files_of (command.check (check_view check.now))) shelf.old shelf.new result }
{
    let object = get_file(alloc, check.object, shelf)?;
    object_text(alloc, &object, check.stack)
}

// What is told of the object that bytes are.
fn object_text(alloc: Global, bytes: &[u8], stack: u32) -> Result<Vec<u8>, Stop>
    ensures comes { IfPlan told_text (IsPlan ⊤ (AfterChecked stack bytes.now)) result }
    ensures inside { IfErr result (λ s. s ≢ Stop.Shelf) }
    ensures short { IsErrOf result (Stop.Refused Refusal.TooLong) → ⊥ }
{
    bytes_have_one_answer();
    sources_have_one_answer();
    answers_are_one();
    let object = read(alloc, bytes)?;
    let unit = open_object(alloc, &object)?;
    match unit_text(alloc, &unit, stack) {
        Ok(text) => Ok(text),
        Err(_) => Err(Stop::Memory),
    }
}

// What is told of a checked unit.
fn unit_text(alloc: Global, unit: &Checked, stack: u32) -> Result<Vec<u8>, AllocError>
    ensures { IfOk result (λ text. TellsUnit stack (unit_view unit.now) text.items) }
{
    let answer = bound(alloc, unit)?;
    answer_text(alloc, unit.unit(), &answer, stack)
}
