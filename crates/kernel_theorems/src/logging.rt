// A kernel with a loop, a primitive and `new`.

ghost use Rattle.kernel_theorems.specs.Logging.{text, LoggingIsKept};
ghost use Rattle.kernel_theorems.specs.LoggingTree.{logging};
ghost use Rattle.kernel_theorems.specs.Text.{IsTextOf};

use cvm_model::reasoning::runs_are_lawful;

/// A law: each turn of the logging kernel ends, no dispatch faults, and each of them logs the numbers below the current user's, as the log has room.
pub fn logging_is_kept()
    ensures { LoggingIsKept }
{
    runs_are_lawful();
}

/// A law: the text is that of the logging kernel.
pub fn text_is_logging()
    ensures { IsTextOf 21000 text logging }
{}
