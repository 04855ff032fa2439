// A layer: what the code below the kernel does, as laws of a trait.
ghost use Rattle.std.specs.Prelude.{◌≡◌, ℕ, List};
ghost use Rattle.layer_map.specs.Map.{Map as Parts, MapInRange};
ghost use Rattle.layer_contract.specs.Layer.{LawsAnyCode, Linked};

use layer_map::Map;

/// The code below the kernel, made for a map and for users of certain sizes in pages.
pub trait Layer {
    /// Its words: code, control blocks and variables.
    ghost image: { Self → List ℕ };

    /// The map that it was made for.
    ghost map: { Self → Parts };

    /// The sizes of the users.
    ghost sizes: { Self → List ℕ };

    /// The words that stand in memory at the start.
    fn words(&self) -> &[u32]
        ensures { result.now ≡ image self.now };

    /// The map that it was made for.
    fn memory_map(&self) -> Map
        ensures { result ≡ map self.now };

    /// A law of each layer, which does nothing: what its variables and control blocks hold at load, where its map is in range; and
    /// the laws of entering and leaving the kernel, of each primitive, of each fault exit and of a handled fault, of a memory that holds
    /// these words and any kernel's code of the map's size.
    fn keeps_laws(&self)
        ensures linked { MapInRange (map self.now) → Linked (map self.now) (sizes self.now) (image self.now) }
        ensures laws { LawsAnyCode (map self.now) (image self.now) (sizes self.now) };
}
