// A kernel that lets one user in at a time.

ghost use Rattle.kernel_theorems.specs.Semaphore.{AtMostOneIsInside};
ghost use Rattle.kernel_theorems.specs.SemaphoreText.{text};
ghost use Rattle.kernel_theorems.specs.SemaphoreTree.{semaphore};
ghost use Rattle.kernel_theorems.specs.Text.{IsTextOf};

use crate::registers::sets_are_found;
use cvm_model::reasoning::runs_are_lawful;

/// A law: in each run of this kernel each turn ends, no dispatch faults, at most one user is inside by what they find, and each call is answered.
pub fn at_most_one_is_inside()
    ensures { AtMostOneIsInside }
{
    sets_are_found();
    runs_are_lawful();
}

/// A law: the text is that of the semaphore.
pub fn text_is_semaphore()
    ensures { IsTextOf 26400 text semaphore }
{}
