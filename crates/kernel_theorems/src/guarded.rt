// A kernel whose faults are guarded by tests.

ghost use Rattle.kernel_theorems.specs.Guarded.{text, GuardedNeverFaults};
ghost use Rattle.kernel_theorems.specs.GuardedTree.{guarded};
ghost use Rattle.kernel_theorems.specs.Text.{IsTextOf};

use crate::traps::steps_tell;
use cvm_model::reasoning::runs_are_lawful;

/// A law: each turn of the guarded kernel ends, and no dispatch of it ever faults, whatever its users do.
pub fn guarded_never_faults()
    ensures { GuardedNeverFaults }
{
    steps_tell();
    runs_are_lawful();
}

/// A law: the text is that of the guarded kernel.
pub fn text_is_guarded()
    ensures { IsTextOf 20000 text guarded }
{}
