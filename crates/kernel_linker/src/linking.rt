// An object, parameters and users, linked to an image.

ghost use Rattle.std.specs.Prelude.{◌≡◌, ◌+◌, ◌≤◌, All, length, map, Err, IfOk};
ghost use Rattle.layer_map.specs.Map.{ParamsInRange};
ghost use Rattle.boot_image.specs.Format.{HasSpelling, most_user_words};
ghost use Rattle.kernel_linker.specs.Link.{LinksBy, users_counted, fitting, in_range, measured, ranged};
ghost use Rattle.kernel_linker.specs.declared.fault.LinkFault.{LinkFault};

use crate::fault::LinkFault;
use crate::linked::link_words;
use crate::opening::open_with_code;
use boot_image::Image;
use layer_contract::LayerMaker;
use layer_map::Params;
use object_file::Object;
use std::alloc::{AllocError, Global};

// Looks whether there are at most 64 users.
#[tactic(auto, unfolding(crate::specs::Link::users_counted))]
fn count(users: &[Vec<u32>]) -> Result<(), LinkFault>
    ensures is { result ≡ users_counted (map (λ u. u.items) users.now) }
    ensures few { IfOk result (λ x. length users.now ≤ 64) }
{
    if users.len() > 64 {
        return Err(LinkFault::UserCount {
            users: users.len() as u64,
        });
    }
    Ok(())
}

// Looks whether no user has more than so many words.
fn measure(users: &[Vec<u32>], most: usize) -> Result<(), LinkFault>
    requires { length users.now ≤ 64 }
    ensures is { result ≡ measured most 1 (map (λ u. u.items) users.now) }
    ensures short { IfOk result (λ x. All (λ u. length u ≤ most) (map (λ u. u.items) users.now)) }
{
    let mut number = 1;
    for user in users {
        if user.len() > most {
            return Err(LinkFault::UserTooLong {
                user: number,
                words: user.len() as u64,
            });
        }
        number += 1;
    }
    Ok(())
}

// Looks whether a parameter is in its range.
#[tactic(auto, unfolding(crate::specs::Link::ranged))]
fn within(which: u32, least: u32, most: u32, value: u32) -> Result<(), LinkFault>
    ensures is { result ≡ ranged which least most value }
    ensures range { IfOk result (λ x. (least ≤ value) × (value ≤ most)) }
{
    if value < least || most < value {
        return Err(LinkFault::Parameter {
            which,
            value: u64::from(value),
        });
    }
    Ok(())
}

// Looks whether the parameters are in their ranges.
#[tactic(auto, unfolding(crate::specs::Link::in_range))]
fn ranges(params: &Params) -> Result<(), LinkFault>
    ensures is { result ≡ in_range params.now }
    ensures range { IfOk result (λ x. ParamsInRange params.now) }
{
    within(1, 1, 1024, params.pages)?;
    within(2, 2, 16384, params.frames)?;
    within(3, 0, 1_048_576, params.heap)?;
    within(4, 64, 262_144, params.stack)
}

// Looks whether there can be a system of these parameters and users.
#[tactic(auto, unfolding(crate::specs::Link::fitting))]
fn fit(params: &Params, users: &[Vec<u32>]) -> Result<(), LinkFault>
    ensures is { result ≡ fitting params.now (map (λ u. u.items) users.now) }
    ensures params { IfOk result (λ x. ParamsInRange params.now) }
    ensures few { IfOk result (λ x. length users.now ≤ 64) }
    ensures short { IfOk result (λ x. All (λ u. length u ≤ most_user_words params.now.pages) (map (λ u. u.items) users.now)) }
{
    count(users)?;
    let most = 65536_usize.min(1024 * params.pages as usize);
    measure(users, most)?;
    ranges(params)
}

// The words of users once more.
fn copies(alloc: Global, users: &[Vec<u32>]) -> Result<Vec<Vec<u32>>, AllocError>
    ensures { IfOk result (λ v. map (λ u. u.items) v.items ≡ map (λ u. u.items) users.now) }
{
    let mut copies = Vec::new(alloc);
    for user in users {
        copies.push(Vec::from_slice(alloc, user)?)?;
    }
    Ok(copies)
}

/// Links an object, parameters and users to an image of form 3.
///
/// The users are counted and measured, and the parameters looked at; then the object is opened: its source is read and checked, and its words
/// are compared with those that its source is compiled to. The first fault answers. Want of memory may come once users and parameters fit.
pub fn link<M: LayerMaker>(
    alloc: Global,
    object: &Object,
    params: &Params,
    users: &[Vec<u32>],
) -> Result<Image, LinkFault>
    // The answer that is due by what the front comes to on the source, or want of memory.
    ensures is { LinksBy M.made object.now params.now (map (λ u. u.items) users.now) result }
    // Users or parameters that don't fit are answered by their fault.
    ensures early { (f : LinkFault) → fitting params.now (map (λ u. u.items) users.now) ≡ Err f → result ≡ Err f }
    // The image can be written.
    ensures spelled { IfOk result HasSpelling }
{
    fit(params, users)?;
    let opened = open_with_code(alloc, object)?;
    let joined = link_words::<M>(alloc, &opened.unit, &opened.code, params, users)?;
    Ok(Image {
        params: *params,
        form: 3,
        source: Vec::from_slice(alloc, &object.source)?,
        words: joined.words,
        users: copies(alloc, users)?,
    })
}
