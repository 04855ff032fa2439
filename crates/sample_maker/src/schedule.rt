// The schedule.

ghost use Rattle.std.specs.Prelude.{◌≡◌, ◌++◌, ◌∷◌, [], OnOk, IfOk, map, decimal};
ghost use Rattle.std.specs.List.{range_with_len};
ghost use Rattle.sample_maker.specs.Sample.{schedule_rows_text, line_row, busy_row, sample_schedule};

use cvm_text::decimal_u64;
use std::alloc::{AllocError, Global};

// Appends a row of a word and two numbers.
fn push_row(text: &mut Vec<u8>, kind: &[u8], first: u64, second: u64) -> Result<(), AllocError>
    ensures { OnOk result (text.new.items ≡ text.old.items ++ ((kind.now ++ 32 ∷ (decimal first ++ 32 ∷ decimal second)) ++ 10 ∷ [])) }
{
    text.extend_from_slice(kind)?;
    text.push(b' ')?;
    text.extend_from_slice(decimal_u64(first).as_str().as_bytes())?;
    text.push(b' ')?;
    text.extend_from_slice(decimal_u64(second).as_str().as_bytes())?;
    text.push(b'\n')?;
    Ok(())
}

// Appends the rows of raised lines.
fn push_lines(text: &mut Vec<u8>) -> Result<(), AllocError>
    ensures { OnOk result (text.new.items ≡ text.old.items ++ schedule_rows_text (map line_row (range_with_len 1 40))) }
{
    for i in 1..41u64 {
        push_row(text, b"line", 20_000 * i, i % 8)?;
    }
    Ok(())
}

// Appends the rows of busy times.
fn push_busy(text: &mut Vec<u8>, number: u32) -> Result<(), AllocError>
    ensures { OnOk result (text.new.items ≡ text.old.items ++ schedule_rows_text (map (busy_row number) (range_with_len 0 100))) }
{
    for n in 0..100u64 {
        push_row(text, b"busy", n, (n + u64::from(number)) % 50)?;
    }
    Ok(())
}

/// The schedule of the sample of a number.
pub fn schedule_in(alloc: Global, number: u32) -> Result<Vec<u8>, AllocError>
    ensures { IfOk result (λ v. v.items ≡ sample_schedule number) }
{
    let mut text = Vec::new(alloc);
    push_lines(&mut text)?;
    push_busy(&mut text, number)?;
    Ok(text)
}
