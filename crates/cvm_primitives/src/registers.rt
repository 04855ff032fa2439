// The code of the primitives that use no page.
ghost use Rattle.std.specs.Prelude.{◌≡◌, ◌<◌, ◌≤◌, ◌++◌, map as each, length};
ghost use Rattle.mips_table.specs.Encoding.{encoding};
ghost use Rattle.cvm_primitives.specs.RegisterCode.{check_user_code, is_register_code, find_word_code, check_arguments_words, vm_get_code};
ghost use Rattle.cvm_primitives.specs.RegisterCode.{vm_set_code, vm_size_code, con_put_code, con_get_code, con_left_code};

use crate::parts::{FIND_SIZE, MINUS_ONE};
use crate::roles::{NUMBER, USER, VALUE};
use layer_map::{ANSWER, Map};
use masm::addresses::{BLOCKS, INPUT, INPUT_LEFT, LOG};
use masm::registers::ARGUMENTS;
use masm::roles::{T0, T1, T2, T3, ZERO};
use masm::{Block, block, code};
use mips_table::{Inst, LOG_ROOM};

/// ANSWER becomes what a bad call answers, as 16 bits; T1 isn't 0 where USER is a user's number, and T0 is that less 1, for those that follow.
pub fn check_user(bad: u32, users: u32) -> Block<3>
    requires bad { bad < 65536 }
    requires users { users ≤ 64 }
    ensures { result ≡ each encoding (check_user_code bad users) }
{
    block! {
        addiu ANSWER, ZERO, bad;
        addiu T0, USER, -1;
        sltiu T1, T0, users;
    }
}

/// T1 isn't 0 where NUMBER is that of a register, 1 to 31, or 32.
const IS_REGISTER: [Inst; 2] = code! {
    addiu T2, NUMBER, -1;
    sltiu T1, T2, 32;               // a NUMBER of 0 gives 2^32 - 1, which is too large
};

/// By the user's number less 1 in T0, T3 becomes the address of the word of its control block for NUMBER: that of 32, the pc, is word 0.
const FIND_WORD: [Inst; 6] = code! {
    ori T3, ZERO, BLOCKS;           // no sign is extended, as that of an addiu would be
    sll T1, T0, 8;                  // a control block has 256 bytes
    addu T3, T3, T1;
    sll T2, NUMBER, 27;             // NUMBER modulo 32: its lowest five bits stand alone,
    srl T2, T2, 25;                 // and come to bits 6 to 2, since a word has four bytes
    addu T3, T3, T2;
};

// The work is done where the user and the register are good.
fn check_arguments(bad: u32, users: u32, work: &Block<2>) -> Block<15>
    requires bad { bad < 65536 }
    requires users { users ≤ 64 }
    ensures { result ≡ check_arguments_words bad users work.now }
{
    // This call tells the prover that `work` has at most two words, so that all fits.
    let _fits = work.len();
    block! {
        then check_user(bad, users);
        when T1 {
            code IS_REGISTER;
            when T1 {
                code FIND_WORD;
                then *work;
            }
        }
    }
}

/// The answer is the word.
const LOAD_WORD: [Inst; 1] = code! {
    lw ANSWER, 0(T3);
};

/// The word becomes VALUE, and the answer is true.
const STORE_WORD: [Inst; 2] = code! {
    sw VALUE, 0(T3);
    addiu ANSWER, ZERO, 1;
};

/// `vm_get`: its arguments are USER and NUMBER.
pub fn vm_get(map: &Map) -> Block<15>
    ensures { result ≡ each encoding (vm_get_code map.now.users) }
{
    let work: Block<2> = block! {
        code LOAD_WORD;
    };
    check_arguments(MINUS_ONE, map.users(), &work)
}

/// `vm_set`: its arguments are USER, NUMBER and VALUE, the new one.
pub fn vm_set(map: &Map) -> Block<15>
    ensures { result ≡ each encoding (vm_set_code map.now.users) }
{
    let work: Block<2> = block! {
        code STORE_WORD;
    };
    check_arguments(0, map.users(), &work)
}

/// `vm_size`: its argument is USER.
pub fn vm_size(map: &Map) -> Block<8>
    ensures { result ≡ each encoding (vm_size_code map.now.users) }
{
    let work: Block<4> = block! {
        code FIND_SIZE;
        code LOAD_WORD;
    };
    block! {
        then check_user(MINUS_ONE, map.users());
        when T1, work;
    }
}

/// The log's port tells its length. The answer is whether a word more has room; one that hasn't is lost.
const PUT: [Inst; 3] = code! {
    lw T0, LOG(ZERO);
    sltiu ANSWER, T0, LOG_ROOM;
    sw ARGUMENTS, LOG(ZERO);
};

/// `con_put`: its one argument is the word.
pub fn con_put() -> Block<3>
    ensures { result ≡ each encoding con_put_code }
{
    block! {
        code PUT;
    }
}

/// A read takes the next word of the input.
const GET: [Inst; 1] = code! {
    lw ANSWER, INPUT(ZERO);
};

/// `con_get`.
pub fn con_get() -> Block<1>
    ensures { result ≡ each encoding con_get_code }
{
    block! {
        code GET;
    }
}

/// How many words of the input are left.
const TELL_LEFT: [Inst; 1] = code! {
    lw ANSWER, INPUT_LEFT(ZERO);
};

/// `con_left`.
pub fn con_left() -> Block<1>
    ensures { result ≡ each encoding con_left_code }
{
    block! {
        code TELL_LEFT;
    }
}
