// Laws of what is booted, for the calls that save and resume.

ghost use Rattle.std.specs.Prelude.{◌<◌, ◌^◌};
ghost use Rattle.layer_contract.specs.Boots.{BootFollows};
ghost use Rattle.boot_run.specs.SavedRuns.{AreDisk};
ghost use Rattle.machine_save.specs.SavedBoots.{AreTakenUp, CanBoot};

use boot_run::{saved_boots_are_of_runs, systems_can_boot};
use cvm_outside::Sectors;
use layer_contract::{Boot, Layer};
use saved_file::saved_machines_are_read_back;
use schedule_file::Schedule;

// Tells proofs that limits are in the range of their types.
pub(crate) fn are_in_range(turns: u32, steps: u64)
    ensures turns { turns < 2 ^ 32 }
    ensures steps { steps < 2 ^ 64 }
{}

/// A law: what a layer, what is booted over it, a schedule and a disk promise are the premises of a boot, whatever the sectors are; and what is saved of
/// it is taken up.
pub fn boots_hold<L: Layer, D: Sectors>(layer: &L, boot: &Boot, schedule: &Schedule, disk: &D)
    requires { BootFollows (L.image layer.now) (L.sizes layer.now) (L.map layer.now) boot.now }
    ensures boots { CanBoot boot.now schedule.now (D.size disk.now) }
    ensures disk { AreDisk (D.size disk.now) (D.sectors disk.now) }
    ensures taken_up { AreTakenUp boot.now schedule.now (D.size disk.now) }
{
    systems_can_boot(layer, boot, schedule);
    saved_boots_are_of_runs();
    saved_machines_are_read_back();
    disk.are_sectors();
}
