// Scripts of calls: the calls of the outside that a piece of work makes, in order, where it does what it is asked; and what is left where one failed.
//
// Each law is the contract of a function that does nothing.
ghost use Rattle.cvm_outside.specs.ScriptLaws.{ScriptsFollow, ScriptsTell, ScriptsCount, ScriptsCountFiles};
ghost use Rattle.cvm_outside.specs.ScriptLaws.{ScriptsBlame, ScriptsStore, ScriptsBreak, ScriptsGive};

/// A law: two pieces of work one after another perform one script after the other, and where the first breaks off no more is done.
pub fn scripts_follow()
    ensures { ScriptsFollow }
{}

/// A law: a script that is performed prints its texts, and one that breaks off a part of them.
pub fn scripts_tell()
    ensures { ScriptsTell }
{}

/// A law: a script that is performed calls the disk as often as it says, and one that breaks off at most so often, and at least once where the disk is
/// blamed; so say both counts of the disk's calls.
pub fn scripts_count()
    ensures { ScriptsCount }
{}

/// A law: and the shelf likewise.
pub fn scripts_count_files()
    ensures { ScriptsCountFiles }
{}

/// A law: the object that is blamed counted one fault more, and no other did.
pub fn scripts_blame()
    ensures { ScriptsBlame }
{}

/// A law: where nobody is blamed the sectors are as before but for those that the script writes.
pub fn scripts_store()
    ensures { ScriptsStore }
{}

/// A law: where somebody is blamed, the calls before one were done, and that one failed, which is no get of a file that was surely given at the start.
pub fn scripts_break()
    ensures { ScriptsBreak }
{}

/// A law: what was surely given still is after a script, and one that gets such files alone and puts none never blames the shelf.
pub fn scripts_give()
    ensures { ScriptsGive }
{}
