// The system of a case: its kernel, users and parameters, linked and loaded.
ghost use Rattle.std.specs.Prelude.{◌≤◌};

use crate::desk::Desk;
use crate::plan::Plan;
use c0_meaning::{Checked, Measured};
use c0_tree::CType;
use c0_types::read_unit;
use c0_unit::compile;
use layer_map::{LAYER_WORDS, Map};
use mips_asm::assemble;
use real_layer::layer_words;
use schedule_file::read;
use std::alloc::{AllocError, Global};

/// The address of the kernel's first instruction.
pub const KERNEL: u32 = 4 * LAYER_WORDS;

/// A loaded system.
#[derive(Drop)]
pub struct System {
    pub desk: Desk,
    pub map: Map,
    pub global_words: u32,
}

// The words of a type.
fn type_words(ty: &CType, sizes: &Measured<'_>) -> u64 {
    match ty {
        CType::Int => 1,
        CType::Bool => 1,
        CType::Pointer(_) => 1,
        CType::Named(name) => {
            if (name.number as usize) < sizes.unit().structs.len() {
                u64::from(sizes.struct_words(name.number))
            } else {
                0
            }
        }
        CType::Array(element, length) => {
            type_words(element, sizes).saturating_mul(u64::from(*length))
        }
    }
}

// The words of the globals.
fn words_of_globals(unit: &Checked) -> u32
    ensures { result ≤ 262144 }
{
    let sizes = unit.measured();
    let mut words = 0u64;
    for decl in &unit.unit().globals {
        words = words.saturating_add(type_words(&decl.ty, &sizes));
    }
    words.min(262_144) as u32
}

// The words of the users, each assembled from its text; none for a text that is none.
fn users_of(alloc: Global, plan: &Plan) -> Result<Vec<Vec<u32>>, AllocError> {
    let mut users = Vec::new(alloc);
    for text in &plan.users {
        users.push(assemble(alloc, text).unwrap_or(Vec::new(alloc)))?;
    }
    Ok(users)
}

// The sizes of users in pages.
fn sizes_of(alloc: Global, users: &[Vec<u32>]) -> Result<Vec<u32>, AllocError> {
    let mut sizes = Vec::new(alloc);
    for user in users {
        sizes.push(user.len().div_ceil(1024).min(1024) as u32)?;
    }
    Ok(sizes)
}

// A page of words goes to a sector, with zeros behind them.
fn put_page(desk: &mut Desk, sector: u32, words: &[u32]) {
    let mut page = [0u32; 1024];
    for (place, word) in page.iter_mut().zip(words) {
        *place = *word;
    }
    desk.put_sector(sector, &page);
}

// A user's pages go to their sectors.
fn put_user(desk: &mut Desk, first: u32, words: &[u32]) {
    let mut sector = first;
    for page in words.chunks(1024) {
        put_page(desk, sector, page);
        sector = sector.wrapping_add(1);
    }
}

// The pages of all users go to their sectors.
fn put_users(desk: &mut Desk, pages: u32, users: &[Vec<u32>]) {
    let mut first = 0u32;
    for user in users {
        put_user(desk, first, user);
        first = first.wrapping_add(pages);
    }
}

/// The system that a plan says, loaded; unless its kernel or its schedule is refused, or it is too large.
pub fn load(alloc: Global, plan: &Plan) -> Result<Option<System>, AllocError> {
    let Ok(unit) = read_unit(alloc, &plan.kernel) else {
        return Ok(None);
    };
    let Ok(schedule) = read(alloc, &plan.schedule) else {
        return Ok(None);
    };
    let code = compile(alloc, &unit)?;
    let users = users_of(alloc, plan)?;
    let sizes = sizes_of(alloc, &users)?;
    let global_words = words_of_globals(&unit);
    if users.len() > 64 || code.len() > 100_000 {
        return Ok(None);
    }
    let count = users.len() as u32;
    let params = plan.params();
    let map = Map::of(&params, count, code.len() as u32, global_words);
    let mut desk = Desk::new(alloc, map.memory_frames(), count * params.pages, schedule)?;
    desk.place(0, &layer_words(alloc, &map, &sizes)?);
    desk.place(LAYER_WORDS, &code);
    put_users(&mut desk, params.pages, &users);
    Ok(Some(System {
        desk,
        map,
        global_words,
    }))
}
