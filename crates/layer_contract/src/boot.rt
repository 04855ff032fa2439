// What is booted.

use c0_meaning::Checked;
use layer_map::Params;

/// What is booted.
#[derive(Drop)]
pub struct Boot {
    /// The parameters of the system.
    pub params: Params,
    /// The kernel.
    pub unit: Checked,
    /// The words that stand in memory from address 0 on: those of the layer, and then the kernel's code.
    pub words: Vec<u32>,
    /// The words of each user, which its memory begins with.
    pub users: Vec<Vec<u32>>,
}
