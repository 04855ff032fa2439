// The row of a dispatch, as it is printed.

ghost use Rattle.std.specs.Prelude.{◌≡◌};
ghost use Rattle.cvm_model.specs.Text.{next_text, row_text};
ghost use Rattle.boot_report.specs.Texts.{fault_row};

use arrayvec::ArrayString;
use cvm_model::{KernelFault, Next, Row};
use cvm_text::{decimal_u64, hex8};

// Who is next, as the end of a row says it.
fn next_text(next: Next) -> ArrayString<40>
    ensures { result.bytes ≡ next_text next }
{
    let mut text = ArrayString::new();
    match next {
        Next::User(user) => {
            text.push_str("next ");
            text.push_str(decimal_u64(user as u64).as_str());
            return text;
        }
        Next::Halt => {
            text.push_str("next 0");
            return text;
        }
        Next::Fault(fault) => {
            text.push_str("fault ");
            text.push_str(fault.name());
            return text;
        }
    }
}

/// The row of a dispatch, which takes no memory.
pub fn row_text(row: &Row) -> ArrayString<160>
    ensures { result.bytes ≡ row_text row.now }
{
    let mut text = ArrayString::new();
    text.push_str("turn ");
    text.push_str(decimal_u64(row.turn).as_str());
    text.push_str(" cause ");
    text.push_str(decimal_u64(row.cause as u64).as_str());
    text.push_str(" data ");
    text.push_str(hex8(row.edata).as_str());
    text.push_str(" user ");
    text.push_str(decimal_u64(row.user as u64).as_str());
    text.push(' ');
    text.push_str(next_text(row.next).as_str());
    text.push('\n');
    text
}

/// The row of a kernel's fault, the last of a trace.
pub fn fault_row(fault: KernelFault) -> ArrayString<64>
    ensures { result.bytes ≡ fault_row fault }
{
    let mut text = ArrayString::new();
    text.push_str("fault ");
    text.push_str(fault.name());
    text.push('\n');
    text
}
