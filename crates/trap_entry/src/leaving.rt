// What follows an answer of `dispatch`, and the exits of faults.
ghost use Rattle.std.specs.Prelude.{◌≡◌, ◌<◌, ◌≤◌, [], ◌∷◌, ◌++◌, map as each};
ghost use Rattle.mips_table.specs.declared.inst.Inst.TheVariants.{Eret};
ghost use Rattle.mips_table.specs.Encoding.{encoding};
ghost use Rattle.page_model.specs.TableLayout.{table_layout};
ghost use Rattle.trap_entry.specs.Code.{switch_page_table_code, return_to_user_code, act_on_answer_code, exit_with_code};

use layer_map::{ANSWER, BLOCK_SIZE, CURRENT, Map};
use masm::addresses::POWER;
use masm::roles::{BLOCK, T0, T1, T2, ZERO};
use masm::{Code, block, code, load_immediate};
use mips_table::{EMODE, ESR, Inst, PTL, PTO};
use pcb_layer::{find_control_block, restore_user};

/// The power word that ends a run in which `dispatch` answers neither 0 nor a user's number.
pub const BAD_USER: u32 = 5;

// The user in ANSWER becomes the current one, and its page table the one that is used.
fn switch_page_table(map: &Map) -> Code
    ensures { result ≡ each encoding (switch_page_table_code (table_layout map.now) map.now.params.pages) }
{
    block! {
        sw ANSWER, CURRENT(ZERO);
        addiu T1, ANSWER, -1;           // users are counted from 1
        addiu T2, ZERO, map.params().pages;
        multu T1, T2;                   // how many entries stand before its own: each user has as many
        mflo T1;
        sll T1, T1, 2;                  // an entry has four bytes
        then load_immediate(T2, map.page_tables());
        addu T1, T1, T2;
        mtc0 T1, PTO;
    }
}

/// Its size, from the control block at the address in BLOCK, and, behind the eret, interrupts and user mode.
const SET_USER_LIMITS: [Inst; 5] = code! {
    lw T1, (4 * BLOCK_SIZE)(BLOCK);
    mtc0 T1, PTL;
    addiu T1, ZERO, 1;
    mtc0 T1, ESR;                   // interrupts are taken behind the eret,
    mtc0 T1, EMODE;                 // and the mode is user mode
};

// The user in ANSWER goes on, with the eret.
fn return_to_user(map: &Map) -> Code
    ensures { result ≡ each encoding (return_to_user_code (table_layout map.now) map.now.params.pages ++ Eret ∷ []) }
{
    block! {
        then switch_page_table(map);
        then find_control_block();
        code SET_USER_LIMITS;
        then restore_user();
        eret;                           // to the user's pc
    }
}

/// Code that is run at a fault of the kernel: its word, below 32,768, goes to the power port. (The addiu would extend the sign of a greater one.)
pub fn exit_with(power: u32) -> Code
    requires { power < 32768 }
    ensures { result ≡ each encoding (exit_with_code power) }
{
    block! {
        addiu T0, ZERO, power;
        sw T0, POWER(ZERO);
    }
}

/// Code that is run at an answer of `dispatch`, in ANSWER: a user goes on, or a 0 or BAD_USER, which is 5, goes to the power port.
pub fn act_on_answer(map: &Map) -> Code
    ensures { result ≡ each encoding (act_on_answer_code (table_layout map.now) map.now.users map.now.params.pages) }
{
    block! {
        sltiu T0, ANSWER, 1;            // whether the answer is 0
        when T0 {
            sw ZERO, POWER(ZERO);       // the machine is off: nothing more is run
        }
        addiu T1, ANSWER, -1;           // users are counted from 1
        sltiu T1, T1, map.users();      // whether it is a user's number
        when T1, return_to_user(map);
        then exit_with(BAD_USER);
    }
}
