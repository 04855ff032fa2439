// What a run is made of, why none is loaded, the tests of its user and its disk, and the loaded machine.
ghost use Rattle.std.specs.Prelude.{◌≡◌, ◌+◌, ◌*◌, ◌/◌, ◌<◌, ◌≤◌};
ghost use Rattle.std.specs.Prelude.{ℕ, length, map, IfOk, IfErr, OnOk, Err, Ok};
ghost use Rattle.layer_map.specs.Map.{MapInRange, memory_frames};
ghost use Rattle.cvm_model.specs.Cvm.{map_of};
ghost use Rattle.layer_contract.specs.Boots.{boot_of, BootFollows};
ghost use Rattle.mips_machine.specs.Machine.{started};
ghost use Rattle.boot_turns.specs.Rom.{own_rom};
ghost use Rattle.boot_run.specs.Loading.{system_of, holding_words, with_rom};
ghost use Rattle.boot_run.specs.declared.load.LoadFault.TheVariants.{Memory as NoRoom, SmallDisk as NoSpace};
ghost use Rattle.boot_run.specs.LoadEnds.{first_tracer, pages_needed, rom_needed};
ghost use Rattle.boot_run.specs.RunEnds.{SeesUser};

use crate::pages::put_words;
use boot_rom::rom_words;
use boot_turns::View;
use boot_turns::tracer::Tracer;
use layer_contract::{Boot, Layer};
use layer_map::Map;
use masm::instruction;
use mips_machine::Machine;
use mips_table::encode;
use schedule_file::Schedule;
use std::alloc::{AllocError, Global};
use thiserror::Error;

/// What a run is made of.
#[derive(Drop)]
pub struct Setup<L> {
    /// Memory for the run.
    pub alloc: Global,
    /// The layer.
    pub layer: L,
    /// What is booted over it.
    pub boot: Boot,
    /// The schedule of its interrupts.
    pub schedule: Schedule,
}

/// How many sectors a run needs, where a disk has fewer.
#[derive(Clone, Copy, Debug, PartialEq, Eq)]
pub struct Shortage {
    /// How many it needs.
    pub need: u32,
    /// How many there are.
    pub have: u32,
}

/// Why a run is not loaded.
#[derive(Clone, Copy, Debug, PartialEq, Eq, Error)]
pub enum LoadFault {
    /// The disk has fewer sectors than the users' pages take.
    #[error("{need} sectors are needed, and the disk has {have}")]
    SmallDisk {
        /// How many they take.
        need: u32,
        /// How many there are.
        have: u32,
    },
    /// The disk failed.
    #[error("the disk failed")]
    Disk,
    /// Want of memory.
    #[error("out of memory")]
    Memory,
    /// The user of a trace is none of the users.
    #[error("user {user} of {users} users")]
    NoSuchUser {
        /// The user.
        user: u32,
        /// The number of users.
        users: u32,
    },
}

impl From<AllocError> for LoadFault {
    ghost from_gives = { λ _ e. e ≡ NoRoom };

    fn from(_: AllocError) -> Self {
        LoadFault::Memory
    }
}

impl From<Shortage> for LoadFault {
    ghost from_gives = { λ s e. e ≡ NoSpace s.need s.have };

    fn from(few: Shortage) -> Self {
        LoadFault::SmallDisk {
            need: few.need,
            have: few.have,
        }
    }
}

/// Whether a disk of so many sectors has those that a run needs.
///
/// # Errors
///
/// It has fewer.
pub fn check_room(have: u32, need: u32) -> Result<(), Shortage>
    ensures ok { OnOk result (need ≤ have) }
    ensures few { IfErr result (λ e. (e.need ≡ need) × (e.have ≡ have) × (have < need)) }
{
    if have < need {
        return Err(Shortage { need, have });
    }
    Ok(())
}

// Whether a view is of a boot, or of a user that there is.
//
// # Errors
//
// `NoSuchUser`.
pub(crate) fn check_view(view: View, users: u32) -> Result<(), LoadFault>
    ensures ok { OnOk result (SeesUser view users) }
    ensures fault { IfErr result (λ e. (u : ℕ) × (view ≡ View.Trace u) × (e ≡ LoadFault.NoSuchUser u users) × (SeesUser view users → ⊥)) }
{
    match view {
        View::Boot => Ok(()),
        View::Trace(user) if 1 <= user && user <= users => Ok(()),
        View::Trace(user) => Err(LoadFault::NoSuchUser { user, users }),
    }
}

// What is kept of a trace before the first step, where a user is traced.
pub(crate) fn first_tracer(view: View) -> Option<Tracer>
    ensures { result ≡ first_tracer view }
{
    match view {
        View::Boot => None,
        View::Trace(user) => Some(Tracer {
            user,
            steps: 0,
            call: None,
        }),
    }
}

// The machine of what is booted, with the linked words in its memory.
//
// # Errors
//
// Want of memory.
pub(crate) fn loaded_machine(
    alloc: Global,
    map: &Map,
    boot: &Boot,
    schedule: Schedule,
) -> Result<Machine, AllocError>
    requires range { MapInRange map.now }
    requires map { map.now ≡ map_of (boot_of boot.now) }
    ensures { IfOk result (λ m. m ≡ holding_words (started (memory_frames (map_of (boot_of boot.now))) schedule) 0 boot.now.words.items) }
{
    let mut machine = Machine::new(alloc, map.memory_frames(), schedule)?;
    put_words(&mut machine, 0, boot.words.as_slice());
    Ok(machine)
}

// The machine of what is booted, with a boot ROM of these words in the frame behind its memory. Word 0 is the jump to it.
//
// # Errors
//
// Want of memory.
pub(crate) fn rom_machine(
    alloc: Global,
    map: &Map,
    rom: &[u32],
    schedule: Schedule,
) -> Result<Machine, AllocError>
    requires range { MapInRange map.now }
    requires few { length rom.now ≤ 1024 }
    ensures { IfOk result (λ m. m ≡ with_rom (memory_frames map.now) rom.now schedule) }
{
    let frames = map.memory_frames();
    let jump = encode(&instruction!(j 1024 * frames));
    let mut machine = Machine::new(alloc, frames + 1, schedule)?;
    put_words(&mut machine, 0, &[jump]);
    put_words(&mut machine, 1024 * frames, rom);
    Ok(machine)
}

// How many sectors the users' pages take.
pub(crate) fn pages_needed(boot: &Boot) -> u32
    requires { MapInRange (map_of (boot_of boot.now)) }
    ensures { result ≡ pages_needed boot.now }
{
    boot.users.len() as u32 * boot.params.pages
}

// How many sectors words take.
pub(crate) fn sectors_of(words: &[u32]) -> u32
    requires { length words.now ≤ 4194304 }
    ensures { result ≡ (length words.now + 1023) / 1024 }
{
    (words.len() as u32 + 1023) / 1024
}

// How many sectors the users' pages take, and the linked words behind them.
pub(crate) fn rom_needed(boot: &Boot) -> u32
    requires { MapInRange (map_of (boot_of boot.now)) }
    ensures { result ≡ rom_needed boot.now }
{
    pages_needed(boot) + sectors_of(boot.words.as_slice())
}

// The words of the ROM that loads what is booted.
//
// # Errors
//
// Want of memory.
pub(crate) fn own_rom<L: Layer>(setup: &Setup<L>) -> Result<Vec<u32>, AllocError>
    requires { BootFollows (L.image setup.now.layer) (L.sizes setup.now.layer) (L.map setup.now.layer) setup.now.boot }
    ensures words { IfOk result (λ v. v.items ≡ own_rom (system_of setup.now.boot setup.now.schedule)) }
    ensures few { IfOk result (λ v. length v.items ≤ 1024) }
{
    setup.layer.keeps_laws();
    let boot = &setup.boot;
    let users = boot.users.len() as u32;
    let sectors = sectors_of(boot.words.as_slice());
    rom_words(setup.alloc, users, boot.params.pages, sectors)
}
