// The abstract runs behind the runs of what is booted.
ghost use Rattle.layer_contract.specs.Boots.{BootFollows};
ghost use Rattle.layer_contract.specs.Follows.{loaded};
ghost use Rattle.boot_run.specs.LoadEnds.{pages_needed, rom_needed};
ghost use Rattle.boot_run.specs.Loading.{system_of};
ghost use Rattle.boot_run.specs.Pasts.{HavePasts};
ghost use Rattle.boot_run.specs.Whole.{rom_start_of};

use crate::laws::premises_hold;
use boot_turns::{machines_run, traces_grow};
use cvm_outside::Sectors;
use layer_contract::{Boot, Layer};
use mips_table::runs::turns_are_counted;
use schedule_file::Schedule;

/// A law: the abstract machine has a state for every turn that a run completes, and what it shows of a user for each step, whether a call of the
/// outside fails or not: of each run that a layer, what is booted over it, a schedule and a disk promise, from the loaded machine and from its ROM.
pub fn pasts_exist<L: Layer, D: Sectors>(layer: &L, boot: &Boot, schedule: &Schedule, disk: &D)
    requires { BootFollows (L.image layer.now) (L.sizes layer.now) (L.map layer.now) boot.now }
    ensures loaded { HavePasts boot.now schedule.now (D.size disk.now) (pages_needed boot.now) (loaded (system_of boot.now schedule.now)) (D.sectors disk.now) }
    ensures rom { HavePasts boot.now schedule.now (D.size disk.now) (rom_needed boot.now) (rom_start_of (system_of boot.now schedule.now))
        (D.sectors disk.now) }
{
    machines_run();
    traces_grow();
    turns_are_counted();
    premises_hold(layer, boot, schedule, disk);
}
