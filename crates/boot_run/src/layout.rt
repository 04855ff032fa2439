// Where the parts of what is booted stand in memory.
ghost use Rattle.std.specs.Prelude.{◌≡◌, IfOk};
ghost use Rattle.c0_tree.specs.View.{unit_view};
ghost use Rattle.boot_report.specs.Given.{offsets_of};

use c0_meaning::global_offsets;
use layer_contract::Boot;
use layer_map::Map;
use std::alloc::{AllocError, Global};

/// Where the parts of what is booted stand in memory.
#[derive(Drop)]
pub(crate) struct BootLayout {
    /// The map of memory.
    pub(crate) map: Map,
    /// How many words behind the first global each one begins.
    pub(crate) offsets: Vec<u64>,
}

// Where the parts of what is booted stand, on this map.
//
// # Errors
//
// Want of memory.
pub(crate) fn boot_layout(alloc: Global, boot: &Boot, map: Map) -> Result<BootLayout, AllocError>
    ensures map { IfOk result (λ p. p.map ≡ map) }
    ensures globals { IfOk result (λ p. p.offsets.items ≡ offsets_of (unit_view boot.now.unit)) }
{
    Ok(BootLayout {
        map,
        offsets: global_offsets(alloc, &boot.unit.measured())?,
    })
}
