//! Worked rows: what the definitions of C0's meaning and of the abstract machine come to on small units, kernels and systems.
//!
//! No contract of another crate rests on them: they are computed, so that a reader who doubts a definition finds what it gives. The files of `specs/`:
//! `SizeRows` of sizes, declared types and names, `Kernels` and `SystemKernels` the small kernels as trees, `KernelRows` what these come to, `Systems`
//! small systems and machines, and `SystemRows` what those come to. Each function carries some rows, and does nothing.
#![tactic(auto)]

ghost use Rattle.worked_rows.specs.KernelRows.{AreChecked, ArePartsRight, AreProgramsRight, AreRunsRight};
ghost use Rattle.worked_rows.specs.KernelRows.{AreSystemsRight, IsOrderRight, SevensFit};
ghost use Rattle.worked_rows.specs.SizeRows.{AreNamesRight, AreSizesRight, AreTypesRight};
ghost use Rattle.worked_rows.specs.SystemRows.{AreArgumentsJudged, AreJournalsRight, AreKernelsPrinted, AreLinesTaken};
ghost use Rattle.worked_rows.specs.SystemRows.{AreMapsRight, ArePrimitivesRight, AreSystemsPrinted, AreTextsRight};

use c0_meaning::laws::words_are_allowed_as_tested;

/// Sizes, declared types and names.
pub fn size_rows()
    ensures sizes { AreSizesRight }
    ensures types { AreTypesRight }
    ensures names { AreNamesRight }
{}

/// What small kernels come to.
pub fn kernel_rows()
    ensures runs { AreRunsRight }
    ensures order { IsOrderRight }
    ensures parts { ArePartsRight }
    ensures systems { AreSystemsRight }
    ensures programs { AreProgramsRight }
    ensures checked { AreChecked }
    ensures fit { SevensFit }
{
    words_are_allowed_as_tested();
}

/// Where the parts of memory and the control blocks stand, and the bound's steps of a page, of a turn and of the reset.
pub fn map_rows()
    ensures { AreMapsRight }
{}

/// Each primitive with each kind of bad argument and at the ends of its ranges, and what calls answer, change, use and touch.
pub fn primitive_rows()
    ensures arguments { AreArgumentsJudged }
    ensures calls { ArePrimitivesRight }
{}

/// Journals of small systems, and their replay.
pub fn journal_rows()
    ensures { AreJournalsRight }
{}

/// The text of journals and of users.
pub fn text_rows()
    ensures { AreTextsRight }
{}

/// What is printed of small systems: of a kernel alone, with users, and under lines.
pub fn system_rows()
    ensures kernels { AreKernelsPrinted }
    ensures users { AreSystemsPrinted }
    ensures lines { AreLinesTaken }
{}
