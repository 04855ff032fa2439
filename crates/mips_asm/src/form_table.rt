// The form of each instruction in a text.

ghost use Rattle.std.specs.Prelude.{◌≡◌, option_map, find, map, bytes_eq, IfSome};
ghost use Rattle.mips_table.specs.Encoding.{InRange};
ghost use Rattle.mips_table.specs.Rows.{mnemonic_of as mnemonic_in};
ghost use Rattle.mips_asm.specs.Form.{forms, form_of};
ghost use Rattle.mips_asm.specs.View.{code_form_view};

use crate::form::{Field, Form, Operand};
use crate::instruction_rows::rows;
use mips_table::Inst;

// The lists of operands.
const RD_RT_SA: [Operand; 3] = [
    Operand::Register(Field::Rd),
    Operand::Register(Field::Rt),
    Operand::Amount,
];

const RD_RT_RS: [Operand; 3] = [
    Operand::Register(Field::Rd),
    Operand::Register(Field::Rt),
    Operand::Register(Field::Rs),
];

const RS: [Operand; 1] = [Operand::Register(Field::Rs)];

const RD_RS: [Operand; 2] = [Operand::Register(Field::Rd), Operand::Register(Field::Rs)];

const RS_RT: [Operand; 2] = [Operand::Register(Field::Rs), Operand::Register(Field::Rt)];

const RD: [Operand; 1] = [Operand::Register(Field::Rd)];

const CODE: [Operand; 1] = [Operand::Code];

const RD_RS_RT: [Operand; 3] = [
    Operand::Register(Field::Rd),
    Operand::Register(Field::Rs),
    Operand::Register(Field::Rt),
];

const RS_BRANCH: [Operand; 2] = [Operand::Register(Field::Rs), Operand::Branch];

const JUMP: [Operand; 1] = [Operand::Jump];

const RS_RT_BRANCH: [Operand; 3] = [
    Operand::Register(Field::Rs),
    Operand::Register(Field::Rt),
    Operand::Branch,
];

const RT_RS_SIGNED: [Operand; 3] = [
    Operand::Register(Field::Rt),
    Operand::Register(Field::Rs),
    Operand::Signed,
];

const RT_RS_UNSIGNED: [Operand; 3] = [
    Operand::Register(Field::Rt),
    Operand::Register(Field::Rs),
    Operand::Unsigned,
];

const RT_UNSIGNED: [Operand; 2] = [Operand::Register(Field::Rt), Operand::Unsigned];

const RT_SPECIAL: [Operand; 2] = [Operand::Register(Field::Rt), Operand::Special];

const NONE: [Operand; 0] = [];

const RT_MEMORY: [Operand; 2] = [Operand::Register(Field::Rt), Operand::Memory];

macro_rules! form_array {
    ($($inst:ident $({ $($field:ident),* })?, $operands:ident, [$($written:expr),*] $(unless $absent:expr)?;)*) => {
        [$(Form {
            inst: Inst::$inst $({ $($field: 0),* })?,
            operands: &$operands,
        }),*]
    };
}

// The forms of all instructions, in the order of the instruction table.
#[tactic(auto, unfolding(crate::specs::Form::forms))]
fn all_forms() -> [Form; 48]
    ensures { map code_form_view result ≡ forms }
{
    rows!(form_array)
}

// The first of these forms with this mnemonic.
fn first_named(forms: &[Form], name: &[u8]) -> Option<Form>
    ensures { result ≡ find (λ f. bytes_eq (mnemonic_in f.inst) name.now) forms.now }
{
    for form in forms {
        if form.is_named(name) {
            return Some(*form);
        }
    }
    None
}

/// The form with this mnemonic.
pub fn form_named(name: &[u8]) -> Option<Form>
    ensures form { option_map code_form_view result ≡ form_of name.now }
    ensures in_range { IfSome result (λ f. InRange f.inst) }
{
    first_named(&all_forms(), name)
}
