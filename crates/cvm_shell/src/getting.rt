// A file is got, or it is said why not.
ghost use Rattle.std.specs.Prelude.{All, ◌≡◌, ◌↔◌, ℕ, List, IfOk, IfErr, IsErrOf};
ghost use Rattle.cvm_outside.specs.Told.{TOO_LONG};
ghost use Rattle.run_scripts.specs.Ends.{IsByte};
ghost use Rattle.cvm_shell.specs.Does.{GetsFile};
ghost use Rattle.cvm_shell.specs.Stages.{IsFile, OnlyLong};

use crate::boot::Stop;
use crate::refusal::Refusal;
use cvm_outside::Shelf;
use std::alloc::Global;

/// Gets the file of a name.
///
/// # Errors
///
/// A file that is too long is refused; a fault of the shelf; want of memory.
pub fn get_file<S: Shelf>(alloc: Global, name: &str, shelf: &mut S) -> Result<Vec<u8>, Stop>
    ensures got { IfOk result (λ v. IsFile (S.file shelf.old name.now) v.items) }
    ensures stops { IfErr result OnlyLong }
    ensures long { IsErrOf result (Stop.Refused Refusal.TooLong) ↔ (S.taken shelf.new ≡ TOO_LONG) }
    ensures files { (n : List ℕ) → S.file shelf.new n ≡ S.file shelf.old n }
    ensures gets { GetsFile S.Shelf name.now shelf.old shelf.new result }
{
    let bytes = shelf.get(alloc, name)?;
    are_bytes(&bytes);
    Ok(bytes)
}

// Tells proofs that bytes are in the range of their type.
fn are_bytes(bytes: &Vec<u8>)
    ensures { All IsByte bytes.now.items }
{
    slice_is_bytes(bytes);
}

// The same of a slice.
fn slice_is_bytes(bytes: &[u8])
    ensures { All IsByte bytes.now }
{}
