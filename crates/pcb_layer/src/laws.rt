// The laws of saving and restoring. Each is the contract of a function that does nothing.
ghost use Rattle.mips_table.specs.Code.{World, Sound};
ghost use Rattle.pcb_layer.specs.Laws.{SavesRegisters, RestoresRegisters, KeepsUser, SavesUser, RestoresUser};

/// After the save the save area holds registers 1 to 31; all else stays.
pub fn registers_are_saved()
    ensures { (w : World) → Sound w → SavesRegisters w }
{}

/// After the restore registers 1 to 31 are what the save area holds; all else stays.
pub fn registers_are_restored()
    ensures { (w : World) → Sound w → RestoresRegisters w }
{}

/// What the save area holds, epc, hi and lo go to the current user's control block; all else but SCRATCH and BLOCK stays.
pub fn a_user_is_kept()
    ensures { (w : World) → Sound w → KeepsUser w }
{}

/// After both the control block holds registers 1 to 31, hi, lo and epc; all else but SCRATCH, BLOCK and the save area stays.
pub fn a_user_is_saved()
    ensures { (w : World) → Sound w → SavesUser w }
{
    registers_are_saved();
    a_user_is_kept();
}

/// Registers 1 to 31, hi, lo and epc become what the current user's control block holds; all else stays.
pub fn a_user_is_restored()
    ensures { (w : World) → Sound w → RestoresUser w }
{}
