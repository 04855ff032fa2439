// Laws of what is booted: the premises of its runs.
ghost use Rattle.std.specs.Prelude.{All, ℕ, ◌<◌, ◌≤◌, ◌^◌};
ghost use Rattle.layer_contract.specs.Boots.{BootFollows};
ghost use Rattle.boot_run.specs.LoadEnds.{pages_needed, rom_needed};
ghost use Rattle.boot_run.specs.Pieces.{AreBootable, AreRomBootable, AreBoots, AreRomBoots};

use boot_turns::the_rom_starts;
use cvm_outside::Sectors;
use layer_contract::{Boot, Layer, the_loaded_machine_starts};
use mips_machine::laws::schedules_end;
use schedule_file::Schedule;

// Tells proofs that words are in the range of their type.
fn are_words(words: &[u32])
    ensures { All (λ w. w < 2 ^ 32) words.now }
{}

/// A law: what a layer, what is booted over it and a schedule promise are the premises of a boot over each disk that has the sectors which it needs,
/// from the loaded machine and from its ROM.
pub fn systems_can_boot<L: Layer>(layer: &L, boot: &Boot, schedule: &Schedule)
    requires { BootFollows (L.image layer.now) (L.sizes layer.now) (L.map layer.now) boot.now }
    ensures loaded { (count : ℕ) → pages_needed boot.now ≤ count → AreBoots boot.now schedule.now count }
    ensures rom { (count : ℕ) → rom_needed boot.now ≤ count → AreRomBoots boot.now schedule.now count }
{
    the_loaded_machine_starts();
    the_rom_starts();
    layer.keeps_laws();
    are_words(boot.words.as_slice());
    schedules_end(schedule);
    let _ = schedule.longest();
    let _ = schedule.inputs();
}

// A law: so it is over this disk, where it tells its sectors.
pub(crate) fn premises_hold<L: Layer, D: Sectors>(
    layer: &L,
    boot: &Boot,
    schedule: &Schedule,
    disk: &D,
)
    requires { BootFollows (L.image layer.now) (L.sizes layer.now) (L.map layer.now) boot.now }
    ensures loaded { AreBootable boot.now schedule.now (D.size disk.now) (D.sectors disk.now) }
    ensures rom { AreRomBootable boot.now schedule.now (D.size disk.now) (D.sectors disk.now) }
{
    systems_can_boot(layer, boot, schedule);
    disk.are_sectors();
}
