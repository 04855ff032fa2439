//! The current user's registers are saved and restored.
//!
//! A control block lies too far for an offset from register 0. So the registers go to the save area first: words of the layer's
//! variables, 31 of them from 0x101c on, which hold registers 1 to 31 in order. From there they are copied to the control block once
//! registers are free. A handled page fault uses the save area alone. On the way back each register is loaded from the control block,
//! register 31, which holds its address, as the last. No other variable is used, and hi and lo are saved in the control block alone.
//!
//! | Block | Steps | Does |
//! |---|---|---|
//! | [`save_registers`] | 31 | registers 1 to 31 go to the save area |
//! | [`find_control_block`] | 5 | BLOCK becomes the address of the current user's control block; SCRATCH changes |
//! | [`restore_registers`] | 31 | registers 1 to 31 come from the save area |
//! | [`save_user`] | 73 | the save area, epc, hi and lo go to the current user's control block; SCRATCH and BLOCK change |
//! | [`restore_user`] | 42 | registers 1 to 31, epc, hi and lo come from the current user's control block |
#![tactic(auto)]

mod blocks;
mod laws;

pub use blocks::{find_control_block, restore_registers, restore_user, save_registers, save_user};
pub use laws::{
    a_user_is_kept, a_user_is_restored, a_user_is_saved, registers_are_restored,
    registers_are_saved,
};
