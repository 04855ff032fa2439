// What `check` prints of a kernel: both rows (`bound`), or the first one and how many names the second has (`count`).

use bound_check::{answer_text, bound};
use c0_meaning::Checked;
use c0_types::read_unit;
use std::alloc::{AllocError, Global};
use std::fmt::Write;
use std::str;

// Prints the first row of a text, and how many names the second has.
fn put_count(out: &mut String, text: &str) -> Result<(), AllocError> {
    let (first, second) = text.split_once('\n').unwrap_or((text, ""));
    let names = second.split(' ').skip(1).count();
    writeln!(out, "{first}\nnames {names}")
}

// Prints what is told of a checked unit beside 64 words of stack.
fn put_bound(
    alloc: Global,
    out: &mut String,
    kind: &str,
    checked: &Checked,
) -> Result<(), AllocError> {
    let answer = bound(alloc, checked)?;
    let bytes = answer_text(alloc, checked.unit(), &answer, 64)?;
    let text = str::from_utf8(&bytes).unwrap_or("(no text)");
    match kind {
        "count" => put_count(out, text),
        _ => out.push_str(text),
    }
}

// What is printed of a source: what is told of it, beside 64 words of stack.
pub(crate) fn put_told(
    alloc: Global,
    out: &mut String,
    kind: &str,
    source: &[u8],
) -> Result<(), AllocError> {
    match read_unit(alloc, source) {
        Ok(checked) => put_bound(alloc, out, kind, &checked),
        Err(_) => out.push_str("not typed\n"),
    }
}
