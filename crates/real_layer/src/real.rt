// A layer by its words.
ghost use Rattle.std.specs.Prelude.{◌≡◌, length, IfOk};
ghost use Rattle.real_layer.specs.Image.{layer_image};

use crate::image::layer_words;
use crate::laws::{the_image_is_linked, the_layer_is_lawful};
use layer_contract::{Layer, LayerMaker};
use layer_map::Map;
use std::alloc::{AllocError, Global};
use std::marker::Model;

/// The layer that a system is linked with: its words, made for a map and for users of certain sizes in pages.
#[derive(Drop)]
pub struct RealLayer {
    map: Map,
    sizes: Vec<u32>,
    words: Vec<u32>,
}

impl Model for RealLayer {
    ghost use Rattle.std.specs.Prelude.{◌≡◌, length};
    ghost use Rattle.real_layer.specs.Image.{layer_image};
    ghost use Rattle.real_layer.specs.Real.{MadeLayer};

    ghost Value = { MadeLayer };

    ghost view = { λ l. record { map = l.map; sizes = l.sizes.items; words = l.words.items } };

    ghost invariant = { λ l. (length l.sizes.items ≡ l.map.users) × (l.words.items ≡ layer_image l.map l.sizes.items) };
}

impl RealLayer {
    /// The layer for this map and users of these sizes in pages, one for each user of the map.
    ///
    /// # Errors
    ///
    /// Want of memory alone.
    pub fn made_for(alloc: Global, map: &Map, sizes: Vec<u32>) -> Result<RealLayer, AllocError>
        requires { length sizes.items ≡ map.now.users }
        ensures { IfOk result (λ l. l ≡ record { map = map.now; sizes = sizes.items; words = layer_image map.now sizes.items }) }
    {
        let words = layer_words(alloc, map, &sizes)?;
        Ok(RealLayer {
            map: *map,
            sizes,
            words,
        })
    }
}

impl Layer for RealLayer {
    ghost image = { λ l. l.words };

    ghost map = { λ l. l.map };

    ghost sizes = { λ l. l.sizes };

    fn words(&self) -> &[u32] {
        &self.words
    }

    fn memory_map(&self) -> Map {
        self.map
    }

    fn keeps_laws(&self) {
        the_image_is_linked();
        the_layer_is_lawful();
        let _made = &self.sizes;
    }
}

impl LayerMaker for RealLayer {
    ghost made = { layer_image };

    fn make(alloc: Global, map: &Map, sizes: &[u32]) -> Result<Self, AllocError> {
        let sizes = Vec::from_slice(alloc, sizes)?;
        RealLayer::made_for(alloc, map, sizes)
    }
}
