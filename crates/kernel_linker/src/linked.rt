// The linked words of a system, and its layer.

ghost use Rattle.std.specs.Prelude.{◌≡◌, ◌+◌, ◌*◌, ◌/◌, ◌≤◌, All, length, map, IfOk, OnOk};
ghost use Rattle.layer_map.specs.Map.{MapInRange, ParamsInRange};
ghost use Rattle.boot_image.specs.Format.{most_user_words};
ghost use Rattle.c0_tree.specs.View.{unit_view};
ghost use Rattle.c0_unit.specs.Code.{unit_words};
ghost use Rattle.kernel_linker.specs.Linked.{linked, map_for, pages_for, sizes_of};

use c0_meaning::Checked;
use c0_meaning::laws::units_are_typed_or_faulty;
use c0_unit::{compile, global_words};
use layer_contract::{Layer, LayerMaker};
use layer_map::{Map, Params};
use std::alloc::{AllocError, Global};

/// The linked words of a system, and the layer that they begin with.
#[derive(Drop)]
pub struct Joined<M> {
    pub words: Vec<u32>,
    pub layer: M,
}

/// The code of a kernel's unit, as short as a map allows. The one error is want of memory.
pub fn compiled(alloc: Global, unit: &Checked) -> Result<Vec<u32>, AllocError>
    ensures words { IfOk result (λ v. v.items ≡ unit_words (unit_view unit.now)) }
    ensures most { IfOk result (λ v. length v.items ≤ 4177920) }
{
    units_are_typed_or_faulty();
    let _unit = unit.unit();
    let code = compile(alloc, unit)?;
    Ok(code)
}

// The sizes of users in pages.
fn sizes(alloc: Global, users: &[Vec<u32>]) -> Result<Vec<u32>, AllocError>
    requires { All (λ u. length u ≤ 65536) (map (λ u. u.items) users.now) }
    ensures { IfOk result (λ v. v.items ≡ sizes_of (map (λ u. u.items) users.now)) }
{
    let mut sizes = Vec::new(alloc);
    for user in users {
        sizes.push((user.len() as u32 + 1023) / 1024)?;
    }
    Ok(sizes)
}

// The map of a system.
fn map_of(unit: &Checked, code: &[u32], params: &Params, users: u32) -> Map
    requires code { code.now ≡ unit_words (unit_view unit.now) }
    requires most { length code.now ≤ 4177920 }
    requires params { ParamsInRange params.now }
    requires users { users ≤ 64 }
    ensures value { result ≡ map_for (unit_view unit.now) params.now users }
    ensures range { MapInRange result }
{
    let globals = global_words(&unit.measured());
    Map::of(params, users, code.len() as u32, globals)
}

/// Links the code of a unit, which is given, with the layer that is made for it, the parameters and the users. The one error is want of
/// memory.
#[tactic(auto, unfolding(crate::specs::Linked::linked))]
pub fn link_words<M: LayerMaker>(
    alloc: Global,
    unit: &Checked,
    code: &[u32],
    params: &Params,
    users: &[Vec<u32>],
) -> Result<Joined<M>, AllocError>
    requires code { code.now ≡ unit_words (unit_view unit.now) }
    requires most { length code.now ≤ 4177920 }
    requires params { ParamsInRange params.now }
    requires few { length users.now ≤ 64 }
    requires short { All (λ u. length u ≤ most_user_words params.now.pages) (map (λ u. u.items) users.now) }
    ensures words { IfOk result (λ j. j.words.items ≡ linked M.made (unit_view unit.now) params.now (sizes_of (map (λ u. u.items) users.now))) }
    ensures map { IfOk result (λ j. M.map j.layer ≡ map_for (unit_view unit.now) params.now (length users.now)) }
    ensures sizes { IfOk result (λ j. M.sizes j.layer ≡ sizes_of (map (λ u. u.items) users.now)) }
    ensures image { IfOk result (λ j. M.image j.layer ≡ M.made (M.map j.layer) (M.sizes j.layer)) }
    ensures least { IfOk result (λ j. 16384 ≤ length j.words.items) }
    ensures most { IfOk result (λ j. length j.words.items ≤ 4194304) }
{
    let map = map_of(unit, code, params, users.len() as u32);
    let sizes = sizes(alloc, users)?;
    let layer = M::make(alloc, &map, &sizes)?;
    layer.keeps_laws();
    let mut words = Vec::from_slice(alloc, layer.words())?;
    words.extend_from_slice(code)?;
    Ok(Joined { words, layer })
}
