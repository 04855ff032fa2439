// Types by their outermost part, and their equality.

ghost use Rattle.std.specs.Prelude.{◌≡◌};
ghost use Rattle.c0_meaning.specs.Expression.{is_pointer};
ghost use Rattle.c0_meaning.specs.Ty.{same_ty};
ghost use Rattle.c0_meaning.specs.Form.{form_view, found_view, same_types, ty_view};

use c0_tree::CType;

/// The type of an expression, if it has one.
#[derive(Clone, Copy)]
pub enum Found<'a> {
    /// A part is faulty.
    Nothing,
    /// An int.
    Int,
    /// A bool.
    Bool,
    /// A pointer to a value of the type.
    To(&'a CType),
    /// A value of the type, as it is declared.
    Of(&'a CType),
}

/// The outermost part of a type, if there is one.
#[derive(Clone, Copy)]
pub enum Form<'a> {
    /// No type.
    Nothing,
    /// An int.
    Int,
    /// A bool.
    Bool,
    /// A pointer to a value of the type.
    Pointer(&'a CType),
    /// The struct of this name.
    Struct(&'a [u8]),
    /// An array of so many elements of the type.
    Array(&'a CType, u32),
}

/// The outermost part of a declared type.
pub fn form_of<'a>(ty: &'a CType) -> Form<'a>
    ensures { form_view result ≡ Some (ty_view ty.now) }
{
    match ty {
        CType::Int => Form::Int,
        CType::Bool => Form::Bool,
        CType::Pointer(target) => Form::Pointer(target),
        CType::Named(name) => Form::Struct(name.bytes.as_slice()),
        CType::Array(element, size) => Form::Array(element, *size),
    }
}

impl<'a> Found<'a> {
    /// The outermost part of the type.
    pub fn form(self) -> Form<'a>
        ensures { form_view result ≡ found_view self.entry }
    {
        match self {
            Found::Nothing => Form::Nothing,
            Found::Int => Form::Int,
            Found::Bool => Form::Bool,
            Found::To(target) => Form::Pointer(target),
            Found::Of(ty) => form_of(ty),
        }
    }
}

/// Whether two declared types are written the same.
pub fn same_type(one: &CType, other: &CType) -> bool
    ensures { result ≡ same_ty (ty_view one.now) (ty_view other.now) }
{
    match one {
        CType::Int => match other {
            CType::Int => true,
            CType::Bool => false,
            CType::Pointer(_) => false,
            CType::Named(_) => false,
            CType::Array(_, _) => false,
        },
        CType::Bool => match other {
            CType::Int => false,
            CType::Bool => true,
            CType::Pointer(_) => false,
            CType::Named(_) => false,
            CType::Array(_, _) => false,
        },
        CType::Pointer(target) => match other {
            CType::Int => false,
            CType::Bool => false,
            CType::Pointer(next) => same_type(target, next),
            CType::Named(_) => false,
            CType::Array(_, _) => false,
        },
        CType::Named(name) => match other {
            CType::Int => false,
            CType::Bool => false,
            CType::Pointer(_) => false,
            CType::Named(next) => name.bytes == next.bytes,
            CType::Array(_, _) => false,
        },
        CType::Array(element, size) => match other {
            CType::Int => false,
            CType::Bool => false,
            CType::Pointer(_) => false,
            CType::Named(_) => false,
            CType::Array(next, count) => *size == *count && same_type(element, next),
        },
    }
}

/// Whether two types that are there are the same.
pub fn same_form(one: Form<'_>, other: Form<'_>) -> bool
    ensures { result ≡ same_types (form_view one.entry) (form_view other.entry) }
{
    match one {
        Form::Nothing => false,
        Form::Int => match other {
            Form::Int => true,
            _ => false,
        },
        Form::Bool => match other {
            Form::Bool => true,
            _ => false,
        },
        Form::Pointer(target) => match other {
            Form::Pointer(next) => same_type(target, next),
            _ => false,
        },
        Form::Struct(name) => match other {
            Form::Struct(next) => name == next,
            _ => false,
        },
        Form::Array(element, size) => match other {
            Form::Array(next, count) => size == count && same_type(element, next),
            _ => false,
        },
    }
}

/// Whether it is a pointer.
pub fn is_pointer_form(form: Form<'_>) -> bool
    ensures { result ≡ is_pointer (form_view form.entry) }
{
    match form {
        Form::Nothing => false,
        Form::Int => false,
        Form::Bool => false,
        Form::Pointer(_) => true,
        Form::Struct(_) => false,
        Form::Array(_, _) => false,
    }
}
