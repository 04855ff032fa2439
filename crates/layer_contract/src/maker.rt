// A layer that is made for any map.
ghost use Rattle.std.specs.Prelude.{◌≡◌, ◌≤◌, ℕ, List, All, IfOk, length};
ghost use Rattle.layer_map.specs.Map.{Map as Parts};

use crate::layer::Layer;
use layer_map::Map;
use std::alloc::{AllocError, Global};

/// A layer that is made for any map and any users.
pub trait LayerMaker: Layer + Drop {
    /// The words of the layer that is made for a map, and for users of these sizes in pages.
    ghost made: { Parts → List ℕ → List ℕ };

    /// Makes the layer for a map, and for users of these sizes in pages, one for each user of the map. The one error is want of memory.
    fn make(alloc: Global, map: &Map, sizes: &[u32]) -> Result<Self, AllocError>
        requires users { length sizes.now ≡ map.now.users }
        requires pages { All (λ n. n ≤ map.now.params.pages) sizes.now }
        ensures words { IfOk result (λ l. Self.image l ≡ made map.now sizes.now) }
        ensures made_for { IfOk result (λ l. Self.map l ≡ map.now) }
        ensures made_with { IfOk result (λ l. Self.sizes l ≡ sizes.now) };
}
