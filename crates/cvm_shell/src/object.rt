// The object of a kernel: its source, read, checked and compiled.
ghost use Rattle.std.specs.Prelude.{◌≡◌, ◌≢◌, ◌≤◌, length, IfOk, IfErr, IsErrOf};
ghost use Rattle.real_layer.specs.Image.{layer_image};
ghost use Rattle.c0_types.specs.Front.{IsUnitOf};
ghost use Rattle.c0_tree.specs.View.{unit_view};
ghost use Rattle.kernel_linker.specs.Object.{object_of};
ghost use Rattle.object_file.specs.Format.{spelling};
ghost use Rattle.run_scripts.specs.Command as Command;
ghost use Rattle.cvm_shell.specs.Does.{Gets};
ghost use Rattle.run_scripts.specs.Served.{files_of};
ghost use Rattle.run_scripts.specs.Plan.{AfterKernel};
ghost use Rattle.cvm_shell.specs.Stages.{source_stop, puts_made, PutsAs, FilesPlan};
ghost use Rattle.cvm_shell.specs.Views.{kernel_view, IfPlan};

use crate::boot::Stop;
use crate::command::CompileKernel;
use crate::getting::get_file;
use crate::refusal::Refusal;
use c0_meaning::Checked;
use c0_meaning::laws::least_fault_is_there;
use c0_parser::ReadFault;
use c0_types::{SourceFault, TypeFault, read_unit};
use cvm_outside::Shelf;
use kernel_linker::make_object;
use object_file::write;
use std::alloc::{AllocError, Global};

impl From<SourceFault> for Stop {
    ghost from_gives = { λ f e. e ≡ source_stop f };

    fn from(fault: SourceFault) -> Self {
        match fault {
            SourceFault::Reading(ReadFault::Memory) => Stop::Memory,
            SourceFault::Typing(TypeFault::Memory) => Stop::Memory,
            fault => Stop::Refused(Refusal::BadSource(fault)),
        }
    }
}

/// Gets the source of a kernel, reads, checks and compiles it: the bytes of the kernel's object, which
/// is this source and the words of its unit.
pub fn kernel_object<S: Shelf>(
    alloc: Global,
    names: &CompileKernel,
    shelf: &mut S,
) -> Result<Vec<u8>, Stop>
    ensures comes { IfPlan (puts_made names.now.object.now) (FilesPlan layer_image (S.file shelf.old) (Command.compile_kernel (kernel_view names.now))) result }
    ensures gets { Gets S.Shelf (files_of (Command.compile_kernel (kernel_view names.now))) shelf.old shelf.new result }
{
    let source = get_file(alloc, names.source, shelf)?;
    compiled_object(alloc, &source)
}

// The bytes of the object that a source comes to.
fn compiled_object(alloc: Global, source: &[u8]) -> Result<Vec<u8>, Stop>
    ensures comes { PutsAs (λ name. AfterKernel name source.now) result }
    ensures inside { IfErr result (λ s. s ≢ Stop.Shelf) }
    ensures short { IsErrOf result (Stop.Refused Refusal.TooLong) → ⊥ }
{
    least_fault_is_there();
    let unit = read_unit(alloc, source)?;
    match object_bytes(alloc, source, &unit) {
        Ok(object) => Ok(object),
        Err(_) => Err(Stop::Memory),
    }
}

// The bytes of the object of a source and its checked unit.
fn object_bytes(alloc: Global, source: &[u8], unit: &Checked) -> Result<Vec<u8>, AllocError>
    requires unit { IsUnitOf source.now (unit_view unit.now) }
    requires short { length source.now ≤ 1048576 }
    ensures { IfOk result (λ v. v.items ≡ spelling (object_of source.now (unit_view unit.now))) }
{
    let object = make_object(alloc, source, unit)?;
    write(alloc, &object)
}
