//! The laws of what is live and known in statements, and that of worked rows: each function says one, and does nothing.

ghost use Rattle.c0_stmt_code.specs.Laws.{FactsEnd, ReadIsLive};
ghost use Rattle.c0_stmt_code.specs.Rows.{AreCodes, AreLiveRows};

/// What a statement may read is live before it.
pub fn read_is_live()
    ensures { ReadIsLive }
{}

/// Behind a call no parameter is known to stand in its register, and behind an assignment nothing is known of its variable.
pub fn facts_end()
    ensures { FactsEnd }
{}

/// The code of three small functions, instruction by instruction; and what is live in small statements.
pub fn worked_rows()
    ensures codes { AreCodes }
    ensures live { AreLiveRows }
{}
