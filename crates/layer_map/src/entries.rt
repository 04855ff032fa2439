// Where the layer and the code of a unit meet.

ghost use Rattle.std.specs.Prelude.{◌≡◌, ◌*◌};
ghost use Rattle.layer_map.specs.Map.{layer_words, primitives_at, exits_at, leave_at};

/// The address at which the layer enters a unit's code, which is its first.
pub const UNIT_ENTRY: u32 = 0x10000;

/// The address at which the unit's code enters primitive 0. The other primitives follow by their numbers, to 9, a word each.
pub const PRIMITIVES: u32 = 0x2000;

/// The address at which a use of null leaves the unit's code. The exits of an index out of bounds, a division by 0 and a want of stack
/// follow, a word each.
pub const EXITS: u32 = 0x2028;

/// The address at which the unit's code leaves once its first function has returned.
pub const LEAVE: u32 = 0x2038;

/// The register of an answer: of a primitive that has returned to the unit's code, and of the unit's first function at LEAVE.
pub const ANSWER: u32 = 2;

/// The register of the first argument, of a function of the unit and of a primitive. The further arguments come in the registers after it.
pub const ARGUMENTS: u32 = 20;

/// The register of the address of the unit's globals. A primitive leaves this register as it is, and the two that follow.
pub const GLOBALS: u32 = 28;

/// The register of the end of the frame: of the address of the word after it.
pub const FRAME_END: u32 = 29;

/// The register of the end of the stack: of the address of the word after it.
pub const STACK_END: u32 = 30;

/// The register of a call's return address.
pub const RETURN: u32 = 31;

/// A law: the constants are the addresses of the words that the map's definitions name.
pub fn entries_are_words()
    ensures entry { UNIT_ENTRY ≡ 4 * layer_words }
    ensures primitives { PRIMITIVES ≡ 4 * primitives_at }
    ensures exits { EXITS ≡ 4 * exits_at }
    ensures leave { LEAVE ≡ 4 * leave_at }
{}
