// The sample of a number: its parts, linked to an image that is accepted as that of a file is.
ghost use Rattle.std.specs.Prelude.{◌≡◌, ◌≢◌, ⊤, IfOk, IfErr, IsErrOf};
ghost use Rattle.real_layer.specs.Image.{layer_image};
ghost use Rattle.cvm_shell.specs.declared.boot.Stop.TheVariants as stop;
ghost use Rattle.run_scripts.specs.Command.{sample_session};
ghost use Rattle.run_scripts.specs.Plan.{PartsPlan, IsLinkedTo, IsPlan};
ghost use Rattle.sample_maker.specs.Sample.{sample_of};
ghost use Rattle.cvm_shell.specs.Stages.{ready_for, SystemFollows};
ghost use Rattle.cvm_shell.specs.Views.{IfPlan, IfRefused};

use crate::boot::{Ready, Stop, ready_of};
use crate::refusal::Refusal;
use boot_image::write;
use c0_types::laws::sources_have_one_answer;
use c0_types::read_unit;
use kernel_linker::{link, make_object};
use layer_contract::LayerMaker;
use real_layer::RealLayer;
use run_scripts::Session;
use sample_maker::{Sample, sample};
use std::alloc::{AllocError, Global};

impl From<AllocError> for Stop {
    ghost from_gives = { λ _ e. e ≡ stop.Memory };

    fn from(_: AllocError) -> Self {
        Stop::Memory
    }
}

/// Makes the parts of the sample of a number, links them, and accepts what is linked: what is to be run.
pub fn sampled(alloc: Global, number: u32) -> Result<Ready, Stop>
    ensures comes { IfPlan (ready_for sample_session) (IsPlan ⊤ (PartsPlan layer_image sample_session (sample_of number))) result }
    ensures follows { IfOk result SystemFollows }
    ensures inside { IfErr result (λ s. s ≢ Stop.Shelf) }
    ensures short { IsErrOf result (Stop.Refused Refusal.TooLong) → ⊥ }
{
    sources_have_one_answer();
    let parts = sample(alloc, number)?;
    let image = linked_parts::<RealLayer>(alloc, &parts)?;
    ready_of(alloc, &image, &parts.schedule)
}

// The bytes of the image that a sample's parts are linked to: its object is that of its own source.
fn linked_parts<M: LayerMaker>(alloc: Global, parts: &Sample) -> Result<Vec<u8>, Stop>
    ensures linked { IfOk result (λ v. IsLinkedTo M.made parts.now v.items) }
    ensures stops { (session : Session) → IfErr result (IfRefused (IsPlan ⊤ (PartsPlan M.made session parts.now))) }
    ensures inside { IfErr result (λ s. s ≢ Stop.Shelf) }
    ensures short { IsErrOf result (Stop.Refused Refusal.TooLong) → ⊥ }
{
    sources_have_one_answer();
    let unit = read_unit(alloc, &parts.source)?;
    let object = make_object(alloc, &parts.source, &unit)?;
    let image = link::<M>(alloc, &object, &parts.params, &parts.users)?;
    let bytes = write(alloc, &image)?;
    Ok(bytes)
}
