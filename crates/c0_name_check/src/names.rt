// Maps from a name to its number. A map owns its names, so that what they name may be written while the map is read.

ghost use Rattle.std.specs.Prelude.{◌≡◌, ℕ, List, OnOk, IfOk, cond, is_some, Some, None, []};
ghost use Rattle.std.specs.Option.{option_or};
ghost use Rattle.std.specs.Str.{bytes_eq};
ghost use Rattle.c0_name_check.specs.Names.{look};

use indexmap::IndexMap;
use std::alloc::{AllocError, Global};

/// The number of each name.
pub type Names = IndexMap<Vec<u8>, u32>;

/// Gives a name its number unless it has one, and answers whether it had one.
pub fn set_name(
    alloc: Global,
    names: &mut IndexMap<Vec<u8>, u32>,
    text: &[u8],
    number: u32,
) -> Result<bool, AllocError>
    ensures names { OnOk result ((q : List ℕ) → look names.new q ≡ option_or (look names.old q) (cond (bytes_eq text.now q) (Some number) None)) }
    ensures twice { IfOk result (λ t. t ≡ is_some (look names.old text.now)) }
{
    match names.get(text) {
        Some(_) => return Ok(true),
        None => {}
    }
    let mut key = Vec::new(alloc);
    key.extend_from_slice(text)?;
    match names.insert(key, number) {
        Ok(_) => {}
        Err(_) => return Err(AllocError),
    }
    Ok(false)
}
