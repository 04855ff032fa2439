// The rows of the globals.
ghost use Rattle.std.specs.Prelude.{◌≡◌, length};
ghost use Rattle.c0_meaning.specs.Form.{form_view};
ghost use Rattle.layer_map.specs.Map.{globals_at};
ghost use Rattle.boot_report.specs.Globals.{value_end as end_of_value, named_row, global_word_row, globals_rows, GlobalsStand};
ghost use Rattle.cvm_outside.specs.Script.{Prints};

use arrayvec::ArrayString;
use c0_meaning::form::{Form, form_of};
use c0_tree::Decl;
use cvm_outside::single_calls::put;
use cvm_outside::{Sink, SinkFault};
use cvm_text::decimal;
use layer_map::Map;
use mips_machine::Machine;

// The end of the row of a value of a type of this form, by its word; none of a value that isn't scalar.
fn value_end(form: Form<'_>, word: u32) -> ArrayString<24>
    ensures { result.bytes ≡ end_of_value (form_view form.entry) word }
{
    let mut text = ArrayString::new();
    match form {
        Form::Int => {
            text.push_str(" ");
            text.push_str(decimal(i64::from(word.cast_signed())).as_str());
            text.push('\n');
            return text;
        }
        Form::Bool => {
            text.push_str(if word == 0 { " false\n" } else { " true\n" });
            return text;
        }
        Form::Pointer(_) => {
            text.push_str(if word == 0 { " null\n" } else { " set\n" });
            return text;
        }
        _ => return text,
    }
}

// Prints the row of a global with this name, if it has an end.
fn put_named<O: Sink>(name: &[u8], end: &[u8], out: &mut O) -> Result<(), SinkFault>
    ensures { Prints O.Sink out.old out.new (named_row name.now end.now) result }
{
    if end.is_empty() {
        return Ok(());
    }
    put(b"global ", out)?;
    put(name, out)?;
    put(end, out)?;
    Ok(())
}

/// Prints the row of a global, by the word that stands for it.
///
/// # Errors
///
/// A fault of the sink.
pub fn put_global<O: Sink>(decl: &Decl, word: u32, out: &mut O) -> Result<(), SinkFault>
    ensures { Prints O.Sink out.old out.new (global_word_row decl.now word) result }
{
    let end = value_end(form_of(&decl.ty), word);
    put_named(decl.name.bytes.as_slice(), end.as_str().as_bytes(), out)
}

/// Prints the rows of the globals, each of which begins so many words behind the first.
///
/// # Errors
///
/// A fault of the sink.
pub fn put_globals<O: Sink>(
    machine: &Machine,
    map: &Map,
    offsets: &[u64],
    decls: &[Decl],
    out: &mut O,
) -> Result<(), SinkFault>
    requires { GlobalsStand map.now (length machine.now.hardware.memory) offsets.now (length decls.now) }
    ensures { Prints O.Sink out.old out.new (globals_rows decls.now machine.now.hardware.memory (globals_at map.now) offsets.now) result }
{
    let first = map.globals() / 4;
    for i in 0..decls.len() {
        let word = machine.word(4 * (first + offsets[i] as u32));
        put_global(&decls[i], word, out)?;
    }
    Ok(())
}
