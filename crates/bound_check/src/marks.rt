// What is told of each function: whether it reaches a loop of calls, and if not, how many words the longest chain from it has.

ghost use Rattle.std.specs.Prelude.{◌≡◌, ◌<◌, ◌≤◌, ◌*◌, ◌^◌, false, IfOk, length, map, get_or, replicate};
ghost use Rattle.c0_tree.specs.View.{unit_view};
ghost use Rattle.c0_meaning.specs.CallChain.{frame_at};
ghost use Rattle.c0_struct_sizes.specs.Graph.{IsOrder};
ghost use Rattle.bound_check.specs.Calls as spec;
ghost use Rattle.bound_check.specs.Marks as tells;
ghost use Rattle.bound_check.specs.declared.marks.Mark.TheVariants.{Unseen};
ghost use Rattle.bound_check.specs.Marks.{mark_by, mark_of, most, told_words, AreTold, IsGraph, IsToldOf, MAX_FRAME};

use crate::calls::calls_of;
use c0_meaning::{Measured, frame_words};
use c0_struct_sizes::{Order, edges_of, order_of};
use std::alloc::{AllocError, Global};

/// What is told of a function.
#[derive(Clone, Copy)]
pub(crate) enum Mark {
    /// Nothing yet.
    Unseen,
    /// It reaches no loop, and of the chains that begin with it the longest has so many words.
    Ends(u64),
    /// It reaches a loop.
    Loops,
}

// The words that are told of a function: 0 where none are.
pub(crate) fn words_told(marks: &[Mark], function: u32) -> u64
    ensures { result ≡ told_words (mark_of marks.now function) }
{
    match marks.get(function as usize) {
        Some(Mark::Ends(words)) => *words,
        _ => 0,
    }
}

// The most words that are told of functions.
fn most_told(marks: &[Mark], functions: &[u32]) -> u64
    ensures { result ≡ most marks.now functions.now }
{
    let mut words = 0;
    for function in functions {
        words = words_told(marks, *function).max(words);
    }
    words
}

// Whether it is told of a function that it reaches no loop.
fn is_end(marks: &[Mark], function: u32) -> bool
    ensures { result ≡ tells.tells_no_loop (mark_of marks.now function) }
{
    match marks.get(function as usize) {
        Some(Mark::Ends(_)) => true,
        _ => false,
    }
}

// Whether it is told of each of these functions that it reaches no loop.
fn all_end(marks: &[Mark], functions: &[u32]) -> bool
    ensures { result ≡ tells.all_end marks.now functions.now }
{
    for function in functions {
        if !is_end(marks, *function) {
            return false;
        }
    }
    true
}

// What is to be told of a function by what is told of those that it calls: one that calls itself on some way reaches a loop.
fn mark_for(unit: &Measured<'_>, marks: &[Mark], calls: &[u32], function: u32, turns: bool) -> Mark
    requires there { function < length unit.now.functions.items }
    requires frame { frame_at (unit_view unit.now) function ≤ MAX_FRAME }
    requires small { most marks.now calls.now ≤ 2 ^ 32 * MAX_FRAME }
    ensures { result ≡ mark_by turns (frame_at (unit_view unit.now) function) marks.now calls.now }
{
    if turns {
        return Mark::Loops;
    }
    if all_end(marks, calls) {
        Mark::Ends(frame_of(unit, function) + most_told(marks, calls))
    } else {
        Mark::Loops
    }
}

// Whether a function calls itself on some way.
fn turns_at(turning: &[bool], function: u32) -> bool
    ensures { result ≡ get_or turning.now function false }
{
    turning.get(function as usize).copied().unwrap_or(false)
}

// The words of the frame of the function of a number.
pub(crate) fn frame_of(unit: &Measured<'_>, function: u32) -> u64
    requires { function < length unit.now.functions.items }
    ensures { result ≡ frame_at (unit_view unit.now) function }
{
    frame_words(unit, function)
}

// Nothing is told yet.
fn none_told(alloc: Global, count: usize) -> Result<Vec<Mark>, AllocError>
    ensures { IfOk result (λ marks. marks.items ≡ replicate count Unseen) }
{
    let mut marks = Vec::new(alloc);
    marks.resize(count, Mark::Unseen)?;
    Ok(marks)
}

// An order of the functions in which callees come first, and which of them call themselves on some way.
fn callees_first(
    alloc: Global,
    unit: &Measured<'_>,
    graph: &[Vec<u32>],
) -> Result<Order, AllocError>
    requires graph { IsGraph (unit_view unit.now) }
    requires calls { map (λ x. x.items) graph.now ≡ spec.all_called (unit_view unit.now) }
    ensures { IfOk result (λ o. IsOrder (spec.callees (unit_view unit.now)) (length (unit_view unit.now).functions) o.nodes.items o.turning.items) }
{
    order_of(alloc, graph)
}

// What is told of all functions, where callees come first in the order.
fn marks_in_order(
    alloc: Global,
    unit: &Measured<'_>,
    graph: &[Vec<u32>],
    nodes: &[u32],
    turning: &[bool],
) -> Result<Vec<Mark>, AllocError>
    requires graph { IsGraph (unit_view unit.now) }
    requires calls { map (λ x. x.items) graph.now ≡ spec.all_called (unit_view unit.now) }
    requires order { IsOrder (spec.callees (unit_view unit.now)) (length (unit_view unit.now).functions) nodes.now turning.now }
    ensures all { IfOk result (λ marks. length marks.items ≡ length (unit_view unit.now).functions) }
    ensures told { IfOk result (λ marks. AreTold (spec.callees (unit_view unit.now)) (frame_at (unit_view unit.now)) turning.now nodes.now marks.items) }
{
    let mut marks = none_told(alloc, graph.len())?;
    for function in nodes {
        let turns = turns_at(turning, *function);
        let calls = edges_of(graph, *function);
        marks[*function as usize] = mark_for(unit, &marks, calls, *function, turns);
    }
    Ok(marks)
}

// What is told of all functions.
pub(crate) fn marks_of(alloc: Global, unit: &Measured<'_>) -> Result<Vec<Mark>, AllocError>
    requires { IsGraph (unit_view unit.now) }
    ensures { IfOk result (λ marks. IsToldOf (unit_view unit.now) marks.items) }
{
    let graph = calls_of(alloc, unit)?;
    let order = callees_first(alloc, unit, &graph)?;
    let marks = marks_in_order(alloc, unit, &graph, &order.nodes, &order.turning)?;
    Ok(marks)
}
