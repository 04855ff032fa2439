// The names that a body is checked with.

ghost use Rattle.std.specs.Prelude.{◌≡◌, ◌<◌, ℕ, List, IfSome, length, map};
ghost use Rattle.std.specs.Option.{option_map};
ghost use Rattle.c0_meaning.specs.Env.{Shape, Signature, Typed, callee_named, field_named, first_named, variable_named};
ghost use Rattle.c0_body_check.specs.Scope.{Knows, MapTells, callee_view, env_view, found_in, typed_view, variable_view};
ghost use Rattle.c0_body_check.specs.Scope.{primitive_signature_view, shape_view, signature_view};

use c0_name_check::names::Names;
use c0_tree::{CType, Decl, Function, Kind, Primitive, StructDef};

/// The lists of a unit and of a function, and maps that tell which of a list a name stands for.
#[derive(Clone, Copy)]
pub struct Scope<'a> {
    /// The structs of the unit.
    pub structs: &'a [StructDef],
    /// The number of the struct of each name.
    pub struct_names: &'a Names,
    /// The words of each struct, up to one more than it may have.
    pub struct_words: &'a [u32],
    /// For each struct the number of the field of each name.
    pub field_names: &'a [Names],
    /// The globals of the unit.
    pub globals: &'a [Decl],
    /// The number of the global of each name.
    pub global_names: &'a Names,
    /// The functions of the unit; their bodies don't count.
    pub functions: &'a [Function],
    /// The number of the function of each name.
    pub function_names: &'a Names,
    /// The primitives.
    pub primitives: &'a [Primitive],
    /// The number of the primitive of each name.
    pub primitive_names: &'a Names,
    /// The parameters of the function.
    pub params: &'a [Decl],
    /// The locals of the function.
    pub locals: &'a [Decl],
    /// The number of the parameter or local of each name: its place among the parameters followed by the locals.
    pub local_names: &'a Names,
}

/// A variable: what it is, its number, and its type.
#[derive(Clone, Copy)]
pub struct Variable<'a> {
    /// A local or a global.
    pub kind: Kind,
    /// Its number: its place among the parameters followed by the locals, or among the globals.
    pub number: u32,
    /// Its type.
    pub ty: &'a CType,
}

/// What is called, with its number.
#[derive(Clone, Copy)]
pub enum Callee<'a> {
    /// A primitive.
    Primitive(u32, &'a Primitive),
    /// A function.
    Function(u32, &'a Function),
}

/// What contracts see of the elements of a list in which names are looked up, and the name of each.
pub trait Listed {
    ghost Seen: { Type 0 };

    ghost seen: { Self → Seen };

    ghost spelled: { Seen → List ℕ };
}

impl Listed for Decl {
    ghost Seen = { Typed };

    ghost seen = { typed_view };

    ghost spelled = { λ v. v.text };
}

impl Listed for StructDef {
    ghost Seen = { Shape };

    ghost seen = { shape_view };

    ghost spelled = { λ s. s.text };
}

impl Listed for Primitive {
    ghost Seen = { Signature };

    ghost seen = { primitive_signature_view };

    ghost spelled = { λ s. s.text };
}

impl Listed for Function {
    ghost Seen = { Signature };

    ghost seen = { signature_view };

    ghost spelled = { λ s. s.text };
}

/// The first element of a name, with its number.
pub fn find<'a, T: Listed>(names: &Names, list: &'a [T], text: &[u8]) -> Option<(u32, &'a T)>
    requires { MapTells T.spelled names.now (map T.seen list.now) }
    ensures found { found_in T.seen result ≡ first_named T.spelled text.now 0 (map T.seen list.now) }
    ensures within { IfSome result (λ p. p.0 < length list.now) }
{
    match names.get(text) {
        None => None,
        Some(number) => Some((*number, &list[*number as usize])),
    }
}

// The first parameter or local of a name, with its number.
fn find_local<'a>(scope: &Scope<'a>, text: &[u8]) -> Option<(u32, &'a Decl)>
    requires { Knows scope.now }
    ensures { found_in typed_view result ≡ first_named (λ v. v.text) text.now 0 (env_view scope.now).locals }
{
    match scope.local_names.get(text) {
        None => None,
        Some(number) => {
            let place = *number as usize;
            let count = scope.params.len();
            if place < count {
                Some((*number, &scope.params[place]))
            } else {
                Some((*number, &scope.locals[place - count]))
            }
        }
    }
}

/// The variable of a name: parameters and locals hide globals.
pub fn find_variable<'a>(scope: &Scope<'a>, text: &[u8]) -> Option<Variable<'a>>
    requires { Knows scope.now }
    ensures { option_map variable_view result ≡ variable_named (env_view scope.now) text.now }
{
    if let Some((number, decl)) = find_local(scope, text) {
        return Some(Variable {
            kind: Kind::Local,
            number,
            ty: &decl.ty,
        });
    }
    match find(scope.global_names, scope.globals, text) {
        None => None,
        Some((number, decl)) => Some(Variable {
            kind: Kind::Global,
            number,
            ty: &decl.ty,
        }),
    }
}

/// What a name before `(` stands for: a primitive comes before a function of its name.
pub fn find_callee<'a>(scope: &Scope<'a>, text: &[u8]) -> Option<Callee<'a>>
    requires { Knows scope.now }
    ensures { option_map callee_view result ≡ callee_named (env_view scope.now) text.now }
{
    match find(scope.primitive_names, scope.primitives, text) {
        Some((number, primitive)) => Some(Callee::Primitive(number, primitive)),
        None => match find(scope.function_names, scope.functions, text) {
            None => None,
            Some((number, function)) => Some(Callee::Function(number, function)),
        },
    }
}

/// The field of a name in the struct of a name.
pub fn find_field<'a>(scope: &Scope<'a>, owner: &[u8], text: &[u8]) -> Option<(u32, &'a Decl)>
    requires { Knows scope.now }
    ensures { found_in typed_view result ≡ field_named (env_view scope.now) owner.now text.now }
{
    match scope.struct_names.get(owner) {
        None => None,
        Some(number) => {
            let place = *number as usize;
            let names = &scope.field_names[place];
            let found = &scope.structs[place];
            find(names, found.fields.as_slice(), text)
        }
    }
}
