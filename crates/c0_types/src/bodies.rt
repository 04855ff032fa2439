// The bodies of functions.

ghost use Rattle.std.specs.Prelude.{◌≡◌, ◌<◌, ◌+◌, ◌-◌, ◌^◌, ◌++◌, true, IsTrue, Some, None, [], IfOk, IfSome, OnOk, is_some, length, map, min};
ghost use Rattle.std.specs.Option.{option_or};
ghost use Rattle.c0_asm_text.specs.AsmText.{bad_line, text_words};
ghost use Rattle.c0_body_check.specs.Scope.{MapTells, typed_view};
ghost use Rattle.c0_body_check.specs.Stmts.{code_faults, resolved_of_stmts};
ghost use Rattle.c0_meaning.specs.Asm.{are_allowed_words};
ghost use Rattle.c0_meaning.specs.DeclaredTypes.{declared_faults};
ghost use Rattle.c0_meaning.specs.Expression.{resolved};
ghost use Rattle.c0_meaning.specs.Fault.{kept_all};
ghost use Rattle.c0_meaning.specs.Limits.{words_held};
ghost use Rattle.c0_meaning.specs.Names.{decl_name_faults};
ghost use Rattle.c0_meaning.specs.Resolved.{resolved_decls};
ghost use Rattle.c0_name_check.specs.Met.{Meets, met_view};
ghost use Rattle.c0_tree.specs.Plain.{is_plain_body};
ghost use Rattle.c0_tree.specs.Size.{nodes, stmts_nodes};
ghost use Rattle.c0_tree.specs.Tree.{code};
ghost use Rattle.c0_tree.specs.View.{body_view, decl_view, expr_view, stmts_view, type_view};
ghost use Rattle.c0_types.specs.Checks.{checked_as_body, faults_as_body, faults_as_text};
ghost use Rattle.c0_types.specs.Known.{KnowsUnit};
ghost use Rattle.c0_types.specs.Parts.{nodes_with};
ghost use Rattle.c0_types.specs.Source.{asm_line_fault, read_body};

use crate::decls::check_decls;
use crate::space::UnitNames;
use crate::structs::KnownStructs;
use c0_asm_text::{AsmReading, read_asm};
use c0_body_check::body::check_code;
use c0_body_check::scope::Scope;
use c0_meaning::nodes::{expr_nodes, stmts_nodes_of};
use c0_name_check::met::{Fault, Mistake, meet, meet_if};
use c0_name_check::names::Names;
use c0_name_check::spaces::{declare_all, twice_by_test_is_twice};
use c0_tree::{AsmText, Body, Code, Decl, Expr, Function, Kind, Primitive, Span, Stmt, StructDef};
use indexmap::IndexMap;
use std::alloc::{AllocError, Global};

/// How many nodes a function has at most.
const MAX_FUNCTION_NODES: u32 = 2000;

/// The declarations of a unit but for its functions, and the numbers of all names.
#[derive(Clone, Copy)]
pub struct Declared<'a> {
    /// The structs.
    pub structs: &'a [StructDef],
    /// What is known of the structs.
    pub known: &'a KnownStructs,
    /// The globals.
    pub globals: &'a [Decl],
    /// The primitives.
    pub primitives: &'a [Primitive],
    /// The numbers of the globals, functions and primitives of each name.
    pub names: &'a UnitNames,
}

// The numbers of the names of parameters and, after them, of locals; names that are set before are met. Where there are 2^32 of them or
// more they can't have their numbers, and that is answered as want of memory.
fn name_locals(
    alloc: Global,
    params: &[Decl],
    locals: &[Decl],
    least: &mut Option<Fault>,
) -> Result<Names, AllocError>
    requires { length params.now < 2 ^ 32 }
    ensures names { IfOk result (λ n. MapTells (λ d. d.name.text) n (map decl_view params.now ++ map decl_view locals.now)) }
    ensures met { OnOk result (met_view least.new ≡ kept_all (met_view least.old) (decl_name_faults (map decl_view params.now ++ map decl_view locals.now))) }
    ensures few { OnOk result (length params.now + length locals.now < 2 ^ 32) }
{
    twice_by_test_is_twice();
    let count = params.len();
    if locals.len() > u32::MAX as usize - count {
        return Err(AllocError);
    }
    let mut names = IndexMap::new(alloc);
    declare_all(alloc, &mut names, params, 0, least)?;
    declare_all(alloc, &mut names, locals, count as u32, least)?;
    Ok(names)
}

// The nodes of a function with so many parameters and a body of statements, up to 2^32 - 1.
fn code_nodes(params: usize, locals: usize, stmts: &[Stmt], answer: &Expr) -> u32
    requires { params + locals < 2 ^ 32 }
    ensures { result ≡ min (1 + params + (locals + stmts_nodes (stmts_view stmts.now) + nodes (expr_view answer.now))) (2 ^ 32 - 1) }
{
    ((params + locals) as u32)
        .saturating_add(1)
        .saturating_add(stmts_nodes_of(stmts))
        .saturating_add(expr_nodes(answer))
}

// Checks a body of statements of a function, and answers the function's nodes, up to 2^32 - 1.
fn check_statements(
    alloc: Global,
    declared: &Declared<'_>,
    functions: &[Function],
    function: &Function,
    code: &mut Code,
    least: &mut Option<Fault>,
) -> Result<u32, AllocError>
    requires knows { KnowsUnit declared.now functions.now }
    requires params { length function.now.params.items < 2 ^ 32 }
    ensures nodes { IfOk result (λ n. n ≡ min (nodes_with (length function.now.params.items) (body_view (Body.Code code.old))) (2 ^ 32 - 1)) }
    ensures met { OnOk result (Meets least.old least.new (faults_as_body declared.now functions.now function.now (body_view (Body.Code code.old)))) }
    ensures resolved { OnOk result (body_view (Body.Code code.new) ≡ checked_as_body declared.now functions.now function.now (body_view (Body.Code code.old))) }
{
    let names = name_locals(alloc, &function.params, &code.locals, least)?;
    let count = function.params.len();
    check_decls(
        &declared.known.names,
        &declared.known.words,
        Kind::Local,
        count as u32,
        &mut code.locals,
        least,
    );
    let nodes = code_nodes(count, code.locals.len(), &code.stmts, &code.answer);
    meet_if(
        least,
        nodes > MAX_FUNCTION_NODES,
        Mistake::TooManyNodes,
        function.name.span,
    );
    let scope = Scope {
        structs: declared.structs,
        struct_names: &declared.known.names,
        struct_words: &declared.known.words,
        field_names: &declared.known.field_names,
        globals: declared.globals,
        global_names: &declared.names.globals,
        functions,
        function_names: &declared.names.functions,
        primitives: declared.primitives,
        primitive_names: &declared.names.primitives,
        params: &function.params,
        locals: &code.locals,
        local_names: &names,
    };
    check_code(
        &scope,
        &function.answer,
        &mut code.stmts,
        &mut code.answer,
        least,
    );
    Ok(nodes)
}

// The nodes of a function with so many parameters and words of an asm text, up to 2^32 - 1.
fn asm_nodes(params: usize, words: usize) -> u32
    requires { params < 2 ^ 32 }
    ensures { result ≡ min (1 + params + words) (2 ^ 32 - 1) }
{
    let room = u32::MAX as usize - params;
    if words < room {
        (1 + params + words) as u32
    } else {
        u32::MAX
    }
}

// Meets a line of an asm text that isn't allowed, if there is one.
fn meet_line(least: &mut Option<Fault>, line: Option<u64>, span: Span)
    requires { IfSome line (λ n. n < 2 ^ 32) }
    ensures { met_view least.new ≡ kept_all (met_view least.old) (asm_line_fault line span) }
{
    match line {
        None => {}
        Some(line) => {
            let line = line as u32;
            meet(least, Fault::BadLine { span, line });
        }
    }
}

// Checks an asm body of a function: its words are put into it. Answers the function's nodes, up to 2^32 - 1.
fn check_text(
    alloc: Global,
    function: &Function,
    text: &mut AsmText,
    least: &mut Option<Fault>,
) -> Result<u32, AllocError>
    requires params { length function.now.params.items < 2 ^ 32 }
    requires text { length text.old.bytes.items < 2 ^ 32 }
    ensures nodes { IfOk result (λ n. n ≡ min (nodes_with (length function.now.params.items) (read_body (body_view (Body.Asm text.old)))) (2 ^ 32 - 1)) }
    ensures met { OnOk result (Meets least.old least.new (faults_as_text function.now text.old)) }
    ensures read { OnOk result (body_view (Body.Asm text.new) ≡ read_body (body_view (Body.Asm text.old))) }
    ensures allowed { OnOk result (IsTrue (are_allowed_words text.new.words.items)) }
{
    let _names = name_locals(alloc, &function.params, &[], least)?;
    let AsmReading { words, bad_line } = read_asm(alloc, &text.bytes)?;
    let nodes = asm_nodes(function.params.len(), words.len());
    meet_if(
        least,
        nodes > MAX_FUNCTION_NODES,
        Mistake::TooManyNodes,
        function.name.span,
    );
    meet_line(least, bad_line, text.span);
    text.words = words;
    Ok(nodes)
}

/// Checks the body of a function whose heading is checked: its faults are met, its names are resolved, and an asm body gets its words.
/// Answers the function's nodes, up to 2^32 - 1. The one error is want of memory: so answer also 2^32 parameters and locals or more,
/// which can't have their numbers.
pub fn check_body(
    alloc: Global,
    declared: &Declared<'_>,
    functions: &[Function],
    function: &Function,
    body: &mut Body,
    least: &mut Option<Fault>,
) -> Result<u32, AllocError>
    requires knows { KnowsUnit declared.now functions.now }
    requires params { length function.now.params.items < 2 ^ 32 }
    requires plain { is_plain_body (body_view body.old) ≡ true }
    ensures nodes { IfOk result (λ n. n ≡ min (nodes_with (length function.now.params.items) (read_body (body_view body.old))) (2 ^ 32 - 1)) }
    ensures met { OnOk result (Meets least.old least.new (faults_as_body declared.now functions.now function.now (body_view body.old))) }
    ensures resolved { OnOk result (body_view body.new ≡ checked_as_body declared.now functions.now function.now (body_view body.old)) }
    ensures allowed { OnOk result (IsTrue (are_allowed_words (words_held (body_view body.new)))) }
{
    match body {
        Body::Code(code) => check_statements(alloc, declared, functions, function, code, least),
        Body::Asm(text) => check_text(alloc, function, text, least),
    }
}
