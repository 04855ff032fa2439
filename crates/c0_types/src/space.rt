// The space of globals, functions and primitives.

ghost use Rattle.std.specs.Prelude.{◌≡◌, ◌<◌, ◌^◌, ℕ, List, IfOk, OnOk, is_some, length, map};
ghost use Rattle.c0_name_check.specs.Met.{Meets};
ghost use Rattle.c0_name_check.specs.Names.{look, number_named};
ghost use Rattle.c0_name_check.specs.Spaces.{twice_by};
ghost use Rattle.c0_tree.specs.Primitives.{CPrimitive, primitive_view};
ghost use Rattle.c0_tree.specs.Tree.{CDecl, CFunction};
ghost use Rattle.c0_tree.specs.View.{decl_view, function_view};
ghost use Rattle.c0_types.specs.Checks.{name_faults_of_unit, names_of_unit};
ghost use Rattle.c0_types.specs.SourceOrder.{comes_next};

use c0_name_check::met::Fault;
use c0_name_check::names::{Names, set_name};
use c0_name_check::spaces::{declare, twice_by_test_is_twice};
use c0_tree::{Decl, Function, Primitive};
use indexmap::IndexMap;
use std::alloc::{AllocError, Global};

/// The numbers of the globals, of the functions and of the primitives of each name, each among its own.
#[derive(Drop)]
pub struct UnitNames {
    pub globals: Names,
    pub functions: Names,
    pub primitives: Names,
}

/// What has a name, and what contracts see of it.
pub trait Named {
    ghost Seen: { Type 0 };

    ghost seen: { Self → Seen };

    ghost spelled: { Seen → List ℕ };

    /// The bytes of the name.
    fn text(&self) -> &[u8]
        ensures { result.now ≡ spelled (seen self.now) };
}

impl Named for Decl {
    ghost Seen = { CDecl };

    ghost seen = { decl_view };

    ghost spelled = { λ d. d.name.text };

    fn text(&self) -> &[u8] {
        self.name.bytes.as_slice()
    }
}

impl Named for Function {
    ghost Seen = { CFunction };

    ghost seen = { function_view };

    ghost spelled = { λ f. f.name.text };

    fn text(&self) -> &[u8] {
        self.name.bytes.as_slice()
    }
}

impl Named for Primitive {
    ghost Seen = { CPrimitive };

    ghost seen = { primitive_view };

    ghost spelled = { λ p. p.name };

    fn text(&self) -> &[u8] {
        self.name.as_bytes()
    }
}

// The number of each name, in order.
fn number_all<T: Named>(alloc: Global, list: &[T]) -> Result<Names, AllocError>
    requires { length list.now < 2 ^ 32 }
    ensures { IfOk result (λ n. (text : List ℕ) → look n text ≡ number_named T.spelled text 0 (map T.seen list.now)) }
{
    let mut names = IndexMap::new(alloc);
    let mut number = 0u32;
    for named in list {
        set_name(alloc, &mut names, named.text(), number)?;
        number += 1;
    }
    Ok(names)
}

// Whether a function's name comes next in source order, where these globals and functions are left.
fn is_function_next(globals: &[Decl], functions: &[Function]) -> bool
    ensures { result ≡ comes_next (map (λ d. d.name) (map decl_view globals.now)) (map (λ f. f.name) (map function_view functions.now)) }
{
    match functions.first() {
        None => false,
        Some(function) => match globals.first() {
            None => true,
            Some(global) => function.name.span.start < global.name.span.start,
        },
    }
}

// Meets the names of globals and functions that are set before, in source order.
fn meet_twice(
    alloc: Global,
    space: &mut Names,
    globals: &[Decl],
    functions: &[Function],
    least: &mut Option<Fault>,
) -> Result<(), AllocError>
    ensures { OnOk result (Meets least.old least.new (twice_by (λ q. is_some (look space.old q)) (names_of_unit globals.now functions.now))) }
{
    let mut global = 0usize;
    let mut function = 0usize;
    while global < globals.len() || function < functions.len() {
        if is_function_next(&globals[global..], &functions[function..]) {
            declare(alloc, space, &functions[function].name, 0, least)?;
            function += 1;
        } else {
            declare(alloc, space, &globals[global].name, 0, least)?;
            global += 1;
        }
    }
    Ok(())
}

/// Gives the globals, functions and primitives of each name their numbers, and meets the names that are set before in the space that they
/// share. The one error is want of memory.
pub fn name_unit(
    alloc: Global,
    primitives: &[Primitive],
    globals: &[Decl],
    functions: &[Function],
    least: &mut Option<Fault>,
) -> Result<UnitNames, AllocError>
    requires few_primitives { length primitives.now < 2 ^ 32 }
    requires few_globals { length globals.now < 2 ^ 32 }
    requires few_functions { length functions.now < 2 ^ 32 }
    ensures globals { IfOk result (λ n. (text : List ℕ) → look n.globals text ≡ number_named (λ d. d.name.text) text 0 (map decl_view globals.now)) }
    ensures functions { IfOk result (λ n. (text : List ℕ) → look n.functions text ≡ number_named (λ f. f.name.text) text 0 (map function_view functions.now)) }
    ensures primitives { IfOk result (λ n. (text : List ℕ) → look n.primitives text ≡ number_named (λ p. p.name) text 0 (map primitive_view primitives.now)) }
    ensures met { OnOk result (Meets least.old least.new (name_faults_of_unit primitives.now globals.now functions.now)) }
{
    twice_by_test_is_twice();
    let mut space = number_all(alloc, primitives)?;
    meet_twice(alloc, &mut space, globals, functions, least)?;
    let globals = number_all(alloc, globals)?;
    let functions = number_all(alloc, functions)?;
    let primitives = number_all(alloc, primitives)?;
    Ok(UnitNames {
        globals,
        functions,
        primitives,
    })
}
