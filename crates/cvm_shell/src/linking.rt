// The image of a system: its object, parameters and users, read and linked.
ghost use Rattle.std.specs.Prelude.{◌≡◌, ◌≢◌, map, IfOk, IfErr, IsErrOf};
ghost use Rattle.cvm_outside.specs.Told.{TOO_LONG};
ghost use Rattle.run_scripts.specs.Command.{link as link_command, word_texts};
ghost use Rattle.cvm_shell.specs.Does.{Gets};
ghost use Rattle.run_scripts.specs.Served.{files_of};
ghost use Rattle.cvm_shell.specs.Linked.{IsAcceptedAs, AreAcceptedAs, LinkIsAccepted};
ghost use Rattle.run_scripts.specs.Plan.{AfterParts, AfterSystem};
ghost use Rattle.cvm_shell.specs.Stages.{object_stop, file_stop, link_stop, Fetched, OnlyLong, AreUserWords, puts_made, PutsAs, FilesPlan};
ghost use Rattle.cvm_shell.specs.Views.{link_view, IfPlan};

use crate::boot::Stop;
use crate::command::Link;
use crate::getting::get_file;
use crate::refusal::Refusal;
use boot_image::write;
use c0_types::laws::sources_have_one_answer;
use cvm_outside::Shelf;
use kernel_linker::laws::linked_images_are_accepted;
use kernel_linker::{LinkFault, link};
use layer_contract::LayerMaker;
use layer_map::Params;
use object_file::{Object, ObjectFault, bytes_have_one_answer, read};
use std::alloc::Global;
use system_files::{FileFault, params_of, user_words};

impl From<ObjectFault> for Stop {
    ghost from_gives = { λ f e. e ≡ object_stop f };

    fn from(fault: ObjectFault) -> Self {
        match fault {
            ObjectFault::Memory => Stop::Memory,
            fault => Stop::Refused(Refusal::BadObject(fault)),
        }
    }
}

impl From<FileFault> for Stop {
    ghost from_gives = { λ f e. e ≡ file_stop f };

    fn from(fault: FileFault) -> Self {
        match fault {
            FileFault::Memory => Stop::Memory,
            fault => Stop::Refused(Refusal::BadFile(fault)),
        }
    }
}

impl From<LinkFault> for Stop {
    ghost from_gives = { λ f e. e ≡ link_stop f };

    fn from(fault: LinkFault) -> Self {
        match fault {
            LinkFault::Memory => Stop::Memory,
            fault => Stop::Refused(Refusal::Unlinked(fault)),
        }
    }
}

/// Gets the object, the parameters and the users of a system, reads and links them: the bytes of its image.
pub fn system_image<M: LayerMaker, S: Shelf>(
    alloc: Global,
    names: &Link,
    shelf: &mut S,
) -> Result<Vec<u8>, Stop>
    ensures comes { IfPlan (puts_made names.now.image.now) (FilesPlan M.made (S.file shelf.old) (link_command (link_view names.now))) result }
    // These bytes are those of an image that is accepted, over the same layer: as the system of the files that were got.
    ensures accepted { IfOk result (λ v. LinkIsAccepted M.made (S.file shelf.old) (link_view names.now) v.items) }
    ensures gets { Gets S.Shelf (files_of (link_command (link_view names.now))) shelf.old shelf.new result }
{
    let object = get_file(alloc, names.object, shelf)?;
    let params = get_file(alloc, names.params, shelf)?;
    let users = get_all(alloc, names.users, shelf)?;
    linked_image::<M>(alloc, &object, &params, &users)
}

// Gets files, one after the other.
fn get_all<S: Shelf>(alloc: Global, names: &[String], shelf: &mut S) -> Result<Vec<Vec<u8>>, Stop>
    requires { S.taken shelf.old ≢ TOO_LONG }
    ensures got { IfOk result (λ v. Fetched (S.file shelf.old) (word_texts names.now) (map (λ b. b.items) v.items)) }
    ensures stops { IfErr result OnlyLong }
    ensures gets { Gets S.Shelf (word_texts names.now) shelf.old shelf.new result }
{
    let mut files = Vec::new(alloc);
    for name in names {
        let file = get_file(alloc, name.as_str(), shelf)?;
        if files.push(file).is_err() {
            return Err(Stop::Memory);
        }
    }
    Ok(files)
}

// The bytes of the image that an object, parameters and users come to.
fn linked_image<M: LayerMaker>(
    alloc: Global,
    object: &[u8],
    params: &[u8],
    users: &[Vec<u8>],
) -> Result<Vec<u8>, Stop>
    ensures comes { PutsAs (λ name. AfterSystem M.made name object.now params.now (map (λ b. b.items) users.now)) result }
    ensures accepted { IfOk result (λ v. AreAcceptedAs M.made object.now params.now (map (λ b. b.items) users.now) v.items) }
    ensures inside { IfErr result (λ s. s ≢ Stop.Shelf) }
    ensures short { IsErrOf result (Stop.Refused Refusal.TooLong) → ⊥ }
{
    bytes_have_one_answer();
    let object = read(alloc, object)?;
    let params = params_of(params)?;
    let users = words_of_users(alloc, users)?;
    image_of::<M>(alloc, &object, &params, &users)
}

// The words of users by the bytes of their files.
fn words_of_users(alloc: Global, files: &[Vec<u8>]) -> Result<Vec<Vec<u32>>, FileFault>
    ensures { AreUserWords (map (λ b. b.items) files.now) result }
{
    let mut users = Vec::new(alloc);
    let mut number = 1;
    for file in files {
        let words = user_words(alloc, number, file)?;
        if users.push(words).is_err() {
            return Err(FileFault::Memory);
        }
        number += 1;
    }
    Ok(users)
}

// The bytes of the image that the parts of a system are linked to.
fn image_of<M: LayerMaker>(
    alloc: Global,
    object: &Object,
    params: &Params,
    users: &[Vec<u32>],
) -> Result<Vec<u8>, Stop>
    ensures comes { PutsAs (λ name. AfterParts M.made name object.now params.now (map (λ u. u.items) users.now)) result }
    ensures accepted { IfOk result (λ v. IsAcceptedAs M.made object.now.source params.now (map (λ u. u.items) users.now) v.items) }
    ensures inside { IfErr result (λ s. s ≢ Stop.Shelf) }
    ensures short { IsErrOf result (Stop.Refused Refusal.TooLong) → ⊥ }
{
    sources_have_one_answer();
    linked_images_are_accepted();
    let image = link::<M>(alloc, object, params, users)?;
    match write(alloc, &image) {
        Ok(bytes) => Ok(bytes),
        Err(_) => Err(Stop::Memory),
    }
}
