// The rule of each kind of expression: from the types of its parts to its own type or fault.

ghost use Rattle.std.specs.Prelude.{◌≡◌, IfNone, IfSome, false, IsTrue, if◌then◌else◌, is_none};
ghost use Rattle.c0_meaning.specs.Env.{variable_named};
ghost use Rattle.c0_meaning.specs.Expression as spec;
ghost use Rattle.c0_meaning.specs.Fault.{fault};
ghost use Rattle.c0_meaning.specs.Ty.{bool, int, is_scalar};
ghost use Rattle.c0_tree.specs.View.{name_view};
ghost use Rattle.c0_meaning.specs.Form.{form_view, found_view, is_declared};
ghost use Rattle.c0_body_check.specs.Check.{IsByRule, by_both, by_one};
ghost use Rattle.c0_name_check.specs.Met.{mistake_number};
ghost use Rattle.c0_body_check.specs.Scope.{Knows, env_view, found_in, typed_view};

use crate::scope::{Scope, find_field, find_variable};
use c0_meaning::form::{Form, Found, form_of, same_form};
use c0_name_check::met::{Fault, Mistake, meet_at};
use c0_tree::{BinaryOp, Decl, Kind, Name, Span, UnaryOp};

/// A mistake leaves no type.
pub fn wrong<'a>(least: &mut Option<Fault>, mistake: Mistake, span: Span) -> Found<'a>
    ensures settles { IsByRule result least.old least.new (spec.wrong (fault (mistake_number mistake) span)) }
    ensures declared { IsTrue (is_declared result) }
{
    meet_at(least, mistake, span);
    Found::Nothing
}

/// `e[i]` where e is a place.
pub fn element<'a>(
    span: Span,
    part: Form<'a>,
    index: Form<'_>,
    least: &mut Option<Fault>,
) -> Found<'a>
    ensures settles { IsByRule result least.old least.new (by_both part.entry index.entry (spec.element_rule span)) }
    ensures declared { IsTrue (is_declared result) }
{
    match index {
        Form::Nothing => Found::Nothing,
        Form::Int => match part {
            Form::Nothing => Found::Nothing,
            Form::Array(element, _) => Found::Of(element),
            _ => wrong(least, Mistake::WrongType, span),
        },
        _ => match part {
            Form::Nothing => Found::Nothing,
            _ => wrong(least, Mistake::WrongType, span),
        },
    }
}

/// Whether there is no type.
pub fn is_nothing(form: Form<'_>) -> bool
    ensures { result ≡ is_none (form_view form.entry) }
{
    match form {
        Form::Nothing => true,
        _ => false,
    }
}

/// `e[i]`: whether e is a place and where it stands, and the types of e and i.
pub fn index<'a>(
    span: Span,
    place: bool,
    at: Span,
    part: Form<'a>,
    index: Form<'_>,
    least: &mut Option<Fault>,
) -> Found<'a>
    ensures settles { IsByRule result least.old least.new (by_both part.entry index.entry (spec.index_rule span place at)) }
    ensures declared { IsTrue (is_declared result) }
{
    if place {
        element(span, part, index, least)
    } else if is_nothing(part) || is_nothing(index) {
        Found::Nothing
    } else {
        wrong(least, Mistake::NotAPlace, at)
    }
}

/// The field of a name, where the type is a struct.
pub fn member<'a>(scope: &Scope<'a>, form: Form<'_>, text: &[u8]) -> Option<(u32, &'a Decl)>
    requires { Knows scope.now }
    ensures { found_in typed_view result ≡ spec.member (env_view scope.now) (form_view form.entry) text.now }
{
    match form {
        Form::Nothing => None,
        Form::Int => None,
        Form::Bool => None,
        Form::Pointer(_) => None,
        Form::Struct(owner) => find_field(scope, owner, text),
        Form::Array(_, _) => None,
    }
}

/// The type behind a pointer.
pub fn target<'a>(form: Form<'a>) -> Form<'a>
    ensures { form_view result ≡ spec.target (form_view form.entry) }
{
    match form {
        Form::Nothing => Form::Nothing,
        Form::Int => Form::Nothing,
        Form::Bool => Form::Nothing,
        Form::Pointer(target) => form_of(target),
        Form::Struct(_) => Form::Nothing,
        Form::Array(_, _) => Form::Nothing,
    }
}

/// Gives a field's name its number.
pub fn number_field(name: &mut Name, found: Option<(u32, &Decl)>)
    ensures { name_view name.new ≡ spec.numbered_field (name_view name.old) (found_in typed_view found.entry) }
{
    match found {
        None => {}
        Some((number, _)) => {
            name.kind = Kind::Field;
            name.number = number;
        }
    }
}

// A field that was sought.
fn sought<'a>(at: Span, found: Option<(u32, &'a Decl)>, least: &mut Option<Fault>) -> Found<'a>
    ensures settles { IsByRule result least.old least.new (spec.sought_rule at (found_in typed_view found.entry)) }
    ensures declared { IsTrue (is_declared result) }
{
    match found {
        None => wrong(least, Mistake::UnknownName, at),
        Some((_, decl)) => Found::Of(&decl.ty),
    }
}

// A field of a value of a type.
fn field<'a>(
    span: Span,
    at: Span,
    found: Option<(u32, &'a Decl)>,
    part: Form<'_>,
    least: &mut Option<Fault>,
) -> Found<'a>
    ensures settles { IsByRule result least.old least.new (by_one part.entry (spec.field_rule span at (found_in typed_view found.entry))) }
    ensures declared { IsTrue (is_declared result) }
{
    match part {
        Form::Nothing => Found::Nothing,
        Form::Struct(_) => sought(at, found, least),
        _ => wrong(least, Mistake::WrongType, span),
    }
}

/// `e.f`: whether e is a place and where it stands, where f stands and what it is, and the type of e.
pub fn place_field<'a>(
    span: Span,
    place: bool,
    at: Span,
    name: Span,
    found: Option<(u32, &'a Decl)>,
    part: Form<'_>,
    least: &mut Option<Fault>,
) -> Found<'a>
    ensures settles { IsByRule result least.old least.new (by_one part.entry (spec.place_field_rule span place at name (found_in typed_view found.entry))) }
    ensures declared { IsTrue (is_declared result) }
{
    if place {
        field(span, name, found, part, least)
    } else if is_nothing(part) {
        Found::Nothing
    } else {
        wrong(least, Mistake::NotAPlace, at)
    }
}

/// `e->f`: where f stands and what it is, and the type of e.
pub fn arrow<'a>(
    span: Span,
    name: Span,
    found: Option<(u32, &'a Decl)>,
    part: Form<'_>,
    least: &mut Option<Fault>,
) -> Found<'a>
    ensures settles { IsByRule result least.old least.new (by_one part.entry (spec.arrow_rule span name (found_in typed_view found.entry))) }
    ensures declared { IsTrue (is_declared result) }
{
    match part {
        Form::Nothing => Found::Nothing,
        Form::Pointer(target) => field(span, name, found, form_of(target), least),
        _ => wrong(least, Mistake::WrongType, span),
    }
}

/// `*e`.
pub fn deref<'a>(span: Span, part: Form<'a>, least: &mut Option<Fault>) -> Found<'a>
    ensures settles { IsByRule result least.old least.new (spec.rule_on_one (form_view part.entry) (spec.deref_rule span)) }
    ensures declared { IsTrue (is_declared result) }
{
    match part {
        Form::Nothing => Found::Nothing,
        Form::Pointer(target) => Found::Of(target),
        _ => wrong(least, Mistake::WrongType, span),
    }
}

/// `&e`: whether e is a place, whether it is local, where it stands, and its type.
pub fn address<'a>(
    place: bool,
    local: bool,
    at: Span,
    part: Found<'a>,
    least: &mut Option<Fault>,
) -> Found<'a>
    requires { IsTrue place → IsTrue (is_declared part) }
    ensures { IsByRule result least.old least.new (spec.rule_on_one (found_view part.entry) (spec.address_rule place local at)) }
{
    match part {
        Found::Nothing => Found::Nothing,
        Found::Int => wrong(least, Mistake::NotAPlace, at),
        Found::Bool => wrong(least, Mistake::NotAPlace, at),
        Found::To(_) => wrong(least, Mistake::NotAPlace, at),
        Found::Of(ty) => {
            if !place {
                wrong(least, Mistake::NotAPlace, at)
            } else if local {
                wrong(least, Mistake::LocalAddress, at)
            } else {
                Found::To(ty)
            }
        }
    }
}

/// `-e` and `!e`.
pub fn unary<'a>(span: Span, op: UnaryOp, part: Form<'_>, least: &mut Option<Fault>) -> Found<'a>
    ensures { IsByRule result least.old least.new (spec.rule_on_one (form_view part.entry) (spec.unary_rule span op)) }
{
    match op {
        UnaryOp::Negate => match part {
            Form::Nothing => Found::Nothing,
            Form::Int => Found::Int,
            _ => wrong(least, Mistake::WrongType, span),
        },
        UnaryOp::Not => match part {
            Form::Nothing => Found::Nothing,
            Form::Bool => Found::Bool,
            _ => wrong(least, Mistake::WrongType, span),
        },
    }
}

// Two ints, that give a bool or an int.
fn ints<'a>(
    span: Span,
    ordered: bool,
    left: Form<'_>,
    right: Form<'_>,
    least: &mut Option<Fault>,
) -> Found<'a>
    ensures { IsByRule result least.old least.new (by_both left.entry right.entry (spec.ints_rule span (if ordered then bool else int))) }
{
    match left {
        Form::Nothing => Found::Nothing,
        Form::Int => match right {
            Form::Nothing => Found::Nothing,
            Form::Int => { if ordered { Found::Bool } else { Found::Int } }
            _ => wrong(least, Mistake::WrongType, span),
        },
        _ => {
            if is_nothing(right) {
                Found::Nothing
            } else {
                wrong(least, Mistake::WrongType, span)
            }
        }
    }
}

// Two bools.
fn bools<'a>(span: Span, left: Form<'_>, right: Form<'_>, least: &mut Option<Fault>) -> Found<'a>
    ensures { IsByRule result least.old least.new (by_both left.entry right.entry (spec.bools_rule span)) }
{
    match left {
        Form::Nothing => Found::Nothing,
        Form::Bool => match right {
            Form::Nothing => Found::Nothing,
            Form::Bool => Found::Bool,
            _ => wrong(least, Mistake::WrongType, span),
        },
        _ => {
            if is_nothing(right) {
                Found::Nothing
            } else {
                wrong(least, Mistake::WrongType, span)
            }
        }
    }
}

/// Whether there is a type, and it is an int, a bool or a pointer.
pub fn is_scalar_form(form: Form<'_>) -> bool
    ensures scalar { IfSome (form_view form.entry) (λ t. result ≡ is_scalar t) }
    ensures nothing { IfNone (form_view form.entry) (result ≡ false) }
{
    match form {
        Form::Nothing => false,
        Form::Int => true,
        Form::Bool => true,
        Form::Pointer(_) => true,
        Form::Struct(_) => false,
        Form::Array(_, _) => false,
    }
}

// Two values of one scalar type.
fn alike<'a>(span: Span, left: Form<'_>, right: Form<'_>, least: &mut Option<Fault>) -> Found<'a>
    ensures { IsByRule result least.old least.new (by_both left.entry right.entry (spec.alike_rule span)) }
{
    if is_nothing(left) || is_nothing(right) {
        Found::Nothing
    } else if is_scalar_form(left) && same_form(left, right) {
        Found::Bool
    } else {
        wrong(least, Mistake::WrongType, span)
    }
}

/// An operator between two operands.
pub fn binary<'a>(
    span: Span,
    op: BinaryOp,
    left: Form<'_>,
    right: Form<'_>,
    least: &mut Option<Fault>,
) -> Found<'a>
    ensures { IsByRule result least.old least.new (by_both left.entry right.entry (spec.binary_rule span op)) }
{
    match op {
        BinaryOp::Add => ints(span, false, left, right, least),
        BinaryOp::Sub => ints(span, false, left, right, least),
        BinaryOp::Mul => ints(span, false, left, right, least),
        BinaryOp::Div => ints(span, false, left, right, least),
        BinaryOp::Rem => ints(span, false, left, right, least),
        BinaryOp::Lt => ints(span, true, left, right, least),
        BinaryOp::Le => ints(span, true, left, right, least),
        BinaryOp::Gt => ints(span, true, left, right, least),
        BinaryOp::Ge => ints(span, true, left, right, least),
        BinaryOp::Eq => alike(span, left, right, least),
        BinaryOp::Ne => alike(span, left, right, least),
        BinaryOp::And => bools(span, left, right, least),
        BinaryOp::Or => bools(span, left, right, least),
    }
}

/// A variable; its name gets what it stands for.
pub fn variable<'a>(scope: &Scope<'a>, name: &mut Name, least: &mut Option<Fault>) -> Found<'a>
    requires { Knows scope.now }
    ensures settles { IsByRule result least.old least.new (spec.variable_rule (name_view name.old) (variable_named (env_view scope.now) name.old.bytes.items)) }
    ensures named { name_view name.new ≡ spec.numbered_variable (name_view name.old) (variable_named (env_view scope.now) name.old.bytes.items) }
    ensures declared { IsTrue (is_declared result) }
{
    match find_variable(scope, name.bytes.as_slice()) {
        None => wrong(least, Mistake::UnknownName, name.span),
        Some(variable) => {
            name.kind = variable.kind;
            name.number = variable.number;
            Found::Of(variable.ty)
        }
    }
}
