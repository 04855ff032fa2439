// Laws of how commands end, each the contract of a function that does nothing.
ghost use Rattle.run_scripts.specs.AskedRuns.{MemoryKeeps};
ghost use Rattle.run_scripts.specs.Keys.{RunsStart, EndsAreOver, ScriptLaws};
ghost use Rattle.run_scripts.specs.Causes.{StatusesAreCaused, WordsAreRefused, FilesAreRefused, MissingUsersAreRefused, SmallDisksAreRefused};
ghost use Rattle.run_scripts.specs.Causes.{LongFilesAreRefused, StepsAreSpent, RunsEnd, WorkCompletes};
ghost use Rattle.run_scripts.specs.Shapes.{PlansHaveShape, OthersStay, NothingIsLoaded, RefusalsKeepTheDisk, GetsComeFirst, ShelfIsCalled};
ghost use Rattle.run_scripts.specs.Saving.{ScriptsJoin, ResumesJoin};
ghost use Rattle.run_scripts.specs.Checks.{StackOutIsNotMet};
ghost use Rattle.run_scripts.specs.Faults.{FaultsLeave, SaveFaultsLeave, ResumeFaultsLeave};
ghost use Rattle.run_scripts.specs.Promises.{HeadlinesHold, RunsAreComplete, TracesAreIsolated, YesIsEnough, SavesAreHeld};
ghost use Rattle.run_scripts.specs.Promises.{SavesAreComplete, ResumesAreHeld, ResumesAreComplete, MachinesRest};

use boot_image::images_are_their_spellings;
use boot_turns::{
    journal_rows_follow, machines_run, step_scripts_join, the_rom_starts, traces_grow,
};
use bound_check::longest_chains_are_kept;
use c0_meaning::laws::units_are_typed_or_faulty;
use c0_meaning::run_laws::zeros_have_the_words_of_their_types;
use c0_types::laws::{sources_have_one_answer, units_of_sources_are_checked};
use c0_unit::laws::{trees_have_addresses, units_are_short, units_stand};
use cvm_model::{
    units_are_kernels, units_dont_matter, units_replay, units_stay_typed, users_are_isolated,
};
use cvm_outside::script::{
    scripts_blame, scripts_count, scripts_count_files, scripts_store, scripts_tell,
};
use kernel_linker::laws::{
    accepted_systems_are_of_their_images, opened_units_are_their_sources, spelled_images_fit,
};
use layer_contract::the_loaded_machine_starts;
use layer_map::{memory_is_whole, parts_are_in_order};
use mips_machine::laws::saved_machines_differ;
use mips_table::runs::{
    a_new_machine_is_steady, machines_stay_steady, runs_are_taken_up, turns_are_counted,
};
use object_file::bytes_have_one_answer;
use real_layer::{the_image_is_linked, the_layer_is_lawful};
use saved_file::{resumable_words_are_answered, saved_machines_are_read_back};
use schedule_file::busy_times_are_within_the_longest;
use unit_runs::laws::{units_calls_follow, units_run_over_layers};

/// A law: where memory was wanted nothing was printed and nothing changed.
pub fn memory_keeps()
    ensures { MemoryKeeps }
{}

/// A law: each run that words ask for is one from a start, over a layer that meets its laws.
pub fn runs_start()
    ensures { RunsStart }
{
    units_are_typed_or_faulty();
    zeros_have_the_words_of_their_types();
    units_are_short();
    trees_have_addresses();
    units_stand();
    units_are_kernels();
    units_stay_typed();
    units_run_over_layers();
    units_calls_follow();
    the_image_is_linked();
    the_layer_is_lawful();
    images_are_their_spellings();
    spelled_images_fit();
    accepted_systems_are_of_their_images();
    units_of_sources_are_checked();
    busy_times_are_within_the_longest();
    the_loaded_machine_starts();
    the_rom_starts();
}

/// What most laws here take: the laws of the crates below, of scripts and of runs, in one record.
fn laws_below()
    ensures { ScriptLaws }
{
    scripts_blame();
    scripts_tell();
    scripts_store();
    scripts_count();
    runs_start();
    machines_run();
    traces_grow();
    turns_are_counted();
    journal_rows_follow();
}

/// A law: where a run came to its end its turns are complete or the abstract run is over, and the machine rests as the state there says and stands for it.
pub fn ends_are_over()
    ensures { EndsAreOver }
{
    laws_below();
}

/// A law: the counts of faults say why a status is what it is, and a plan why it is 0, 3 or 4.
pub fn statuses_are_caused()
    ensures { StatusesAreCaused }
{
    scripts_blame();
}

/// A law: status 1 comes exactly where the words are no command.
pub fn words_are_refused()
    ensures { WordsAreRefused }
{
    scripts_blame();
}

/// A law: each refusal has its status and its row, and status 2 is one.
pub fn files_are_refused()
    ensures { FilesAreRefused }
{
    scripts_blame();
}

/// A law: the user of a trace that is none is refused.
pub fn missing_users_are_refused()
    ensures { MissingUsersAreRefused }
{
    scripts_blame();
}

/// A law: a disk that is too small is refused.
pub fn small_disks_are_refused()
    ensures { SmallDisksAreRefused }
{
    scripts_blame();
}

/// A law: a file is refused as too long, with its row, where so many bytes of it were taken.
pub fn long_files_are_refused()
    ensures { LongFilesAreRefused }
{
    scripts_blame();
}

/// A law: a run that came to no end made all its steps.
pub fn steps_are_spent()
    ensures { StepsAreSpent }
{
    turns_are_counted();
}

/// A law: each run that words and files ask for is done, its kernel faulted or its steps were spent, with no failed call, whatever its disk tells.
pub fn runs_end()
    ensures { RunsEnd }
{
    scripts_blame();
}

/// A law: a command that loads nothing is done, with no failed call and nothing to refuse.
pub fn work_completes()
    ensures { WorkCompletes }
{
    scripts_blame();
}

/// A law: behind the gets no file is got, and at most the one is put that the words name.
pub fn plans_have_shape()
    ensures { PlansHaveShape }
{}

/// A law: no other file changes.
pub fn others_stay()
    ensures { OthersStay }
{}

/// A law: a command that loads no machine leaves the disk as it was.
pub fn nothing_is_loaded()
    ensures { NothingIsLoaded }
{}

/// A law: where the words are bad, a file, a user or the disk is refused, or a file isn't got, every command leaves the disk as it was.
pub fn refusals_keep_the_disk()
    ensures { RefusalsKeepTheDisk }
{
    scripts_blame();
}

/// A law: the files are got in the order of the words, before all else: all of them, or those up to one that is too long; or a get failed, or found no
/// memory, and nothing else is done.
pub fn gets_come_first()
    ensures { GetsComeFirst }
{}

/// A law: where nobody is blamed and no file is too long, the shelf is called once for each file that the words name, and once for one that is put.
pub fn shelf_is_called()
    ensures { ShelfIsCalled }
{
    scripts_count_files();
}

/// A law: what a save does before it puts its file, and what a resume of it does, are what the boot does.
pub fn scripts_join()
    ensures { ScriptsJoin }
{
    units_dont_matter();
    turns_are_counted();
    step_scripts_join();
}

/// A law: a resume of a saved run performs what is left of its boot.
pub fn resumes_join()
    ensures { ResumesJoin }
{}

/// A law: no run of a system whose stack is enough stops for want of it.
pub fn stack_out_is_not_met()
    ensures { StackOutIsNotMet }
{}

/// A law: what a boot, a rom, a trace or a sample leaves where its steps were spent, or the disk or the sink failed.
pub fn faults_leave()
    ensures { FaultsLeave }
{
    laws_below();
}

/// A law: and what a save leaves, with its file.
pub fn save_faults_leave()
    ensures { SaveFaultsLeave }
{
    laws_below();
}

/// A law: and what a resume of a saved run leaves, behind what was shown before.
pub fn resume_faults_leave()
    ensures { ResumeFaultsLeave }
{
    laws_below();
    resumable_words_are_answered();
}

/// A law: the headline of each boot, rom, trace and sample with no failed call.
pub fn headlines_hold()
    ensures { HeadlinesHold }
{
    laws_below();
}

/// A law: with enough steps such a command is done, or its kernel faulted.
pub fn runs_are_complete()
    ensures { RunsAreComplete }
{
    laws_below();
}

/// A law: what a trace that is done, or whose kernel faulted, prints of its user is the text of the user's journal.
pub fn traces_are_isolated()
    ensures { TracesAreIsolated }
{
    laws_below();
    users_are_isolated();
    units_replay();
}

/// A law: where a check printed `yes`, no run of a system of the object's source with so much stack stops for want of it.
pub fn yes_is_enough()
    ensures { YesIsEnough }
{
    scripts_blame();
    sources_have_one_answer();
    bytes_have_one_answer();
    opened_units_are_their_sources();
    longest_chains_are_kept();
}

/// A law: what a save with no failed call leaves: what its boot does, or the file of its machine, exactly where the boot prints `stopped`.
pub fn saves_are_held()
    ensures { SavesAreHeld }
{
    laws_below();
    runs_are_taken_up();
    a_new_machine_is_steady();
    machines_stay_steady();
    parts_are_in_order();
    memory_is_whole();
    saved_machines_are_read_back();
    resumable_words_are_answered();
}

/// A law: with enough steps a save is done, or its kernel faulted.
pub fn saves_are_complete()
    ensures { SavesAreComplete }
{
    laws_below();
}

/// A law: a resume with no failed call goes on as the machine that its file names, and of a saved run as its boot.
pub fn resumes_are_held()
    ensures { ResumesAreHeld }
{
    laws_below();
    resumable_words_are_answered();
    saved_machines_differ();
}

/// A law: with enough steps for the whole run a resume of a saved run is done, or its kernel faulted; and it is the boot as a whole.
pub fn resumes_are_complete()
    ensures { ResumesAreComplete }
{
    laws_below();
    resumable_words_are_answered();
}

/// A law: where a run with no failed call came to its end the machine rests as the state there says, and stands for it.
pub fn machines_rest()
    ensures { MachinesRest }
{
    laws_below();
}
