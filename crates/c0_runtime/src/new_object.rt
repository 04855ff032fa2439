// The routine `new`.

ghost use Rattle.std.specs.Prelude.{◌≡◌, map};
ghost use Rattle.mips_table.specs.Encoding.{encoding};
ghost use Rattle.c0_runtime.specs.Code.{new_routine};

use layer_map::{HEAP_FIRST, HEAP_USED, HEAP_WORDS};
use masm::registers::{ANSWER, RETURN, SCRATCH};
use masm::roles::ZERO;
use masm::{Block, block, code};
use mips_table::Inst;

/// How many words of the heap objects have.
const USED: u32 = 3;

/// The address of the object's next word.
const NEXT: u32 = 3;

/// First how many words the heap has, and then its address.
const HEAP: u32 = 4;

/// First how many words objects have with the new one, and then the address of the new one's end.
const END: u32 = 5;

/// The object's words are in ANSWER, and would be the last of END. Where the heap has fewer, the code goes on at NO_ROOM, which is 11
/// instructions behind.
const TEST_ROOM: [Inst; 5] = code! {
    lw USED, HEAP_USED(ZERO);
    lw HEAP, HEAP_WORDS(ZERO);
    addu END, USED, ANSWER;
    sltu SCRATCH, HEAP, END;        // whether there are fewer than END
    bne SCRATCH, ZERO, 11;          // to NO_ROOM
};

/// The words are taken.
const BUMP_HEAP: [Inst; 2] = code! {
    sw END, HEAP_USED(ZERO);
    lw HEAP, HEAP_FIRST(ZERO);
};

/// The object's address goes to ANSWER and NEXT, and that of its end to END.
const FIND_OBJECT: [Inst; 5] = code! {
    sll USED, USED, 2;              // words to bytes
    addu ANSWER, HEAP, USED;
    sll END, END, 2;                // words to bytes, too
    addu END, HEAP, END;
    addu NEXT, ANSWER, ZERO;
};

/// A word after the other becomes 0, and the routine returns.
const ZERO_OBJECT: [Inst; 4] = code! {
    sw ZERO, 0(NEXT);
    addiu NEXT, NEXT, 4;
    bne NEXT, END, -3;              // back to the store
    jr RETURN;
};

/// The routine returns with null.
const NO_ROOM: [Inst; 2] = code! {
    addu ANSWER, ZERO, ZERO;
    jr RETURN;
};

// The whole routine.
pub(crate) fn new_object() -> Block<18>
    ensures { result ≡ map encoding new_routine }
{
    block! {
        code TEST_ROOM;
        code BUMP_HEAP;
        code FIND_OBJECT;
        code ZERO_OBJECT;
        code NO_ROOM;
    }
}
