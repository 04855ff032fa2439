// What a trace says of its user's calls.
use std::alloc::AllocError;
use std::str;

// Whether a row ends what is said of a run.
fn ends(row: &str) -> bool {
    row == "halted" || row == "stopped" || row.starts_with("fault ")
}

/// Prints the rows of a trace but those that count steps, up to the one that says how the run ended.
pub fn put_journal(out: &mut String, text: &[u8]) -> Result<(), AllocError> {
    for row in str::from_utf8(text).unwrap_or("(no text)").lines() {
        if !row.starts_with("steps ") {
            out.push_str(row)?;
            out.push('\n')?;
        }
        if ends(row) {
            break;
        }
    }
    Ok(())
}
