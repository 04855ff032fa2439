// Laws, each the contract of a function that does nothing.
ghost use Rattle.boot_report.specs.Globals.{GlobalsTell};
ghost use Rattle.boot_report.specs.Given.{GlobalRowsTell};
ghost use Rattle.boot_report.specs.Told.{RowsTell, UserTells, WordsTell};
ghost use Rattle.boot_report.specs.Speaks.{UsersSpeak, UserSpeaks, WordsShow};

use c0_meaning::laws::words_are_those_of_the_parts;

/// A law: where the machine stands for a state of the abstract machine, the rows of the log are those of its text, and each valid entry
/// of the page tables names a frame of the memory.
pub fn the_rows_tell()
    ensures { RowsTell }
{}

/// A law: where the machine stands for a state of the abstract machine, each user's processor, its size in pages and the words that its
/// pages show are its.
pub fn a_user_is_told()
    ensures { UserTells }
{}

/// A law: where the machine stands for a state of the abstract machine, the words of each user are those that its pages show.
pub fn the_words_tell()
    ensures { WordsTell }
{}

/// A law: where the machine stands for a state of the abstract machine and the sectors are told, the script of all users prints their text.
pub fn the_users_speak()
    ensures { UsersSpeak }
{}

/// A law: where the machine stands for a state of the abstract machine and the sectors are told, the script of each user prints its text.
pub fn a_user_speaks()
    ensures { UserSpeaks }
{}

/// A law: where the machine stands for a state of the abstract machine and the sectors are told, the words of each user are those that its
/// pages show.
pub fn the_words_show()
    ensures { WordsShow }
{}

/// A law: the row of a global by its first word is that of its value, where the value has the shape of its type.
pub fn a_global_tells()
    ensures { GlobalsTell }
{}

/// A law: where memory holds the words of the globals of a typed state, one behind another, their rows are those of the abstract
/// machine's text.
pub fn the_globals_tell()
    ensures { GlobalRowsTell }
{
    a_global_tells();
    words_are_those_of_the_parts();
}
