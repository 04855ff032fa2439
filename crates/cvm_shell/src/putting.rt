// What a command made is put, or it is said why nothing was made.
ghost use Rattle.cvm_shell.specs.Does.{PutsMade};

use crate::boot::Stop;
use crate::saying::say_stop;
use cvm_outside::{Shelf, Sink};
use run_scripts::Status;

/// Puts what a stage made under this name, or says why the stage stopped.
pub(crate) fn put_made<S: Shelf, O: Sink>(
    made: Result<Vec<u8>, Stop>,
    name: &str,
    shelf: &mut S,
    out: &mut O,
) -> Status
    ensures { PutsMade S.Shelf O.Sink name.now made result (shelf.old, out.old) (shelf.new, out.new) }
{
    let bytes = match made {
        Ok(bytes) => bytes,
        Err(stop) => return say_stop(stop, out),
    };
    match shelf.put(name, &bytes) {
        Ok(()) => Status::Done,
        Err(_) => Status::Shelf,
    }
}
