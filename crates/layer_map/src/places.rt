// The places of the layer's part.

ghost use Rattle.std.specs.Prelude.{◌≡◌, ◌*◌, ◌≤◌};
ghost use Rattle.layer_map.specs.Map.{block_at, current_at, hand_at, heap_used_at, heap_words_at, heap_first_at};
ghost use Rattle.layer_map.specs.Map.{stack_first_at, stack_limit_at, variables_at, variables_end, layer_words};

/// The words of the layer's part, which begins memory.
pub const LAYER_WORDS: u32 = 16384;

/// The words of a page, of a frame and of a sector.
pub const PAGE_WORDS: u32 = 1024;

/// How many slots the list of a user frame has in the frame table: the most pages that may name the frame.
pub const SLOTS: u32 = 4;

/// The address of the current user, from 1.
pub const CURRENT: u32 = 0x1000;

/// The address of the hand: the number of the user frame that is filled next, from 0.
pub const HAND: u32 = 0x1004;

/// The address of the number of words used of the heap, 0 at load.
pub const HEAP_USED: u32 = 0x1008;

/// The address of the heap's size, in words.
pub const HEAP_WORDS: u32 = 0x100c;

/// The address of the heap's first address.
pub const HEAP_FIRST: u32 = 0x1010;

/// The address of the stack's first address.
pub const STACK_FIRST: u32 = 0x1014;

/// The address of the first address behind the stack.
pub const STACK_LIMIT: u32 = 0x1018;

/// The address of the first of the layer's further variables.
pub const VARIABLES: u32 = 0x101c;

/// The first address behind the layer's variables.
pub const VARIABLES_END: u32 = 0x2000;

/// The address of the first control block, which is that of user 1.
pub const BLOCKS: u32 = 0xc000;

/// The words of a control block.
pub const BLOCK_WORDS: u32 = 64;

/// The word of a control block that holds the pc. The words 1 to 31 hold the registers of these numbers.
pub const BLOCK_PC: u32 = 0;

/// The word of a control block that holds the size, in pages.
pub const BLOCK_SIZE: u32 = 32;

/// The word of a control block that holds hi.
pub const BLOCK_HI: u32 = 33;

/// The word of a control block that holds lo.
pub const BLOCK_LO: u32 = 34;

/// The first address of the control block of `user`, 1 to 64.
pub fn block_of(user: u32) -> u32
    requires some { 1 ≤ user }
    requires most { user ≤ 64 }
    ensures { result ≡ 4 * block_at user }
{
    BLOCKS + 4 * BLOCK_WORDS * (user - 1)
}

/// A law: the constants are the addresses of the words that the map's definitions name.
pub fn places_are_words()
    ensures current { CURRENT ≡ 4 * current_at }
    ensures hand { HAND ≡ 4 * hand_at }
    ensures used { HEAP_USED ≡ 4 * heap_used_at }
    ensures heap { (HEAP_WORDS ≡ 4 * heap_words_at) × (HEAP_FIRST ≡ 4 * heap_first_at) }
    ensures stack { (STACK_LIMIT ≡ 4 * stack_limit_at) × (STACK_FIRST ≡ 4 * stack_first_at) }
    ensures variables { (VARIABLES ≡ 4 * variables_at) × (VARIABLES_END ≡ 4 * variables_end) }
    ensures layer { LAYER_WORDS ≡ layer_words }
{}
