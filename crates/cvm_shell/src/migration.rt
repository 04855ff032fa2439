// An image of form 2, read and made anew.
ghost use Rattle.std.specs.Prelude.{◌≢◌, IfOk, IfErr, IsErrOf};
ghost use Rattle.run_scripts.specs.Command as Command;
ghost use Rattle.cvm_shell.specs.Does.{Gets};
ghost use Rattle.run_scripts.specs.Served.{files_of};
ghost use Rattle.cvm_shell.specs.Linked.{IsAcceptedAsOld, MigrateIsAccepted};
ghost use Rattle.run_scripts.specs.Plan.{AfterOld};
ghost use Rattle.cvm_shell.specs.Stages.{puts_made, PutsAs, FilesPlan};
ghost use Rattle.cvm_shell.specs.Views.{migrate_view, IfPlan};

use crate::boot::Stop;
use crate::command::Migrate;
use crate::getting::get_file;
use crate::refusal::Refusal;
use boot_image::write;
use c0_types::laws::sources_have_one_answer;
use cvm_outside::Shelf;
use kernel_linker::laws::migrated_images_are_accepted;
use kernel_linker::migrate;
use layer_contract::LayerMaker;
use std::alloc::Global;

/// Gets an image of form 2 and makes it anew: the bytes of the image of form 3 of the same source, parameters and users.
pub fn migrated_image<M: LayerMaker, S: Shelf>(
    alloc: Global,
    names: &Migrate,
    shelf: &mut S,
) -> Result<Vec<u8>, Stop>
    ensures comes { IfPlan (puts_made names.now.image.now) (FilesPlan M.made (S.file shelf.old) (Command.migrate (migrate_view names.now))) result }
    // These bytes are those of an image that is accepted, over the same layer: as the system of the old image's source, parameters and users.
    ensures accepted { IfOk result (λ v. MigrateIsAccepted M.made (S.file shelf.old) (migrate_view names.now) v.items) }
    ensures gets { Gets S.Shelf (files_of (Command.migrate (migrate_view names.now))) shelf.old shelf.new result }
{
    let old = get_file(alloc, names.old, shelf)?;
    renewed_image::<M>(alloc, &old)
}

// The bytes of the image that is made of an old one.
fn renewed_image<M: LayerMaker>(alloc: Global, old: &[u8]) -> Result<Vec<u8>, Stop>
    ensures comes { PutsAs (λ name. AfterOld M.made name old.now) result }
    ensures accepted { IfOk result (λ v. IsAcceptedAsOld M.made old.now v.items) }
    ensures inside { IfErr result (λ s. s ≢ Stop.Shelf) }
    ensures short { IsErrOf result (Stop.Refused Refusal.TooLong) → ⊥ }
{
    sources_have_one_answer();
    migrated_images_are_accepted();
    let image = migrate::<M>(alloc, old)?;
    match write(alloc, &image) {
        Ok(bytes) => Ok(bytes),
        Err(_) => Err(Stop::Memory),
    }
}
