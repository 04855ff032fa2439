//! The laws of the code of expressions. Each is the contract of a function that does nothing.

ghost use Rattle.c0_expr_code.specs.Laws.{CodesAreShort, CodesInRange, ExitsAreNear, NamesAreEnough};
ghost use Rattle.c0_expr_code.specs.Rows.{AreAddresses, AreFactRows, AreSums, AreTests};

/// The code has few words for each node.
pub fn codes_are_short()
    ensures { CodesAreShort }
{}

/// The types of expressions hang on the names of structs, globals and variables alone.
pub fn names_are_enough()
    ensures { NamesAreEnough }
{}

/// The code of some expressions, word by word.
pub fn worked_rows()
    ensures sums { AreSums }
    ensures places { AreAddresses }
    ensures tests { AreTests }
    ensures facts { AreFactRows }
{}

/// The instructions of the code are in range, and the exits of a function's scope where jumps reach them.
pub fn codes_are_in_range()
    ensures codes { CodesInRange }
    ensures exits { ExitsAreNear }
{}
