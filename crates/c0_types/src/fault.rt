// The faults of a unit.

ghost use Rattle.c0_types.specs.declared.fault.TypeFault.TheVariants.{Memory as NoMemory};
ghost use Rattle.std.specs.Prelude.{◌≡◌, Some};
ghost use Rattle.c0_name_check.specs.Met.{fault_view, mistake_number};
ghost use Rattle.c0_types.specs.Answer.{type_fault_view, type_fault_number, type_fault_span, type_fault_line};
ghost use Rattle.c0_meaning.specs.Fault.{fault};

use c0_name_check::met::{Fault, Mistake};
use c0_tree::Span;
use std::alloc::AllocError;
use thiserror::Error;

/// Why a unit is not typed: the fault whose span starts first and, among those, the one of the least number. Spans are in bytes of the
/// source.
#[derive(Clone, Copy, Debug, PartialEq, Eq, Error)]
pub enum TypeFault {
    /// No such name.
    #[error("no such name (bytes {} to {})", .0.start, .0.end)]
    UnknownName(Span),
    /// A name set before in its space.
    #[error("the name is set before (bytes {} to {})", .0.start, .0.end)]
    NameTwice(Span),
    /// Another type than is asked.
    #[error("the type is another than is asked (bytes {} to {})", .0.start, .0.end)]
    WrongType(Span),
    /// Another number of arguments than of parameters.
    #[error("the number of arguments is another than that of parameters (bytes {} to {})", .0.start, .0.end)]
    WrongCount(Span),
    /// No place where one is asked.
    #[error("no place (bytes {} to {})", .0.start, .0.end)]
    NotAPlace(Span),
    /// The address of a local place.
    #[error("the address of a local place (bytes {} to {})", .0.start, .0.end)]
    LocalAddress(Span),
    /// A struct that holds itself other than through a pointer.
    #[error("the struct holds itself (bytes {} to {})", .0.start, .0.end)]
    StructHoldsItself(Span),
    /// An expression that needs more than 12 registers.
    #[error("more than 12 registers are needed (bytes {} to {})", .0.start, .0.end)]
    TooDeep(Span),
    /// A function of more than 2,000 nodes.
    #[error("more than 2000 nodes in a function (bytes {} to {})", .0.start, .0.end)]
    TooManyNodes(Span),
    /// A unit of more than 100,000 nodes.
    #[error("more than 100000 nodes in the unit (bytes {} to {})", .0.start, .0.end)]
    UnitTooLarge(Span),
    /// Globals of more than 262,144 words.
    #[error("more than 262144 words of globals (bytes {} to {})", .0.start, .0.end)]
    GlobalsTooLarge(Span),
    /// No function `int dispatch(int, int, int)` with a code body, of a kernel.
    #[error("no function int dispatch(int, int, int) (bytes {} to {})", .0.start, .0.end)]
    NoDispatch(Span),
    /// A line of an asm text that isn't allowed: the first of that text, where the line of its brace is 1.
    #[error("line {line} of the asm text is not allowed (bytes {} to {})", .span.start, .span.end)]
    AsmNotAllowed { span: Span, line: u64 },
    /// More than 8 parameters, or 4 of an asm function.
    #[error("too many parameters (bytes {} to {})", .0.start, .0.end)]
    TooManyParameters(Span),
    /// A type of more than 1,048,576 words.
    #[error("more than 1048576 words in a type (bytes {} to {})", .0.start, .0.end)]
    TypeTooLarge(Span),
    /// An array of length 0.
    #[error("an array of length 0 (bytes {} to {})", .0.start, .0.end)]
    EmptyArray(Span),
    /// No function `int main()` with a code body, of a user program.
    #[error("no function int main() (bytes {} to {})", .0.start, .0.end)]
    NoMain(Span),
    /// Want of memory.
    #[error("out of memory")]
    Memory,
}

impl TypeFault {
    /// The number that is printed for it: 20 to 36, or 39 for want of memory.
    pub fn number(&self) -> u32
        ensures { result ≡ type_fault_number self.now }
    {
        match self {
            TypeFault::UnknownName(_) => 20,
            TypeFault::NameTwice(_) => 21,
            TypeFault::WrongType(_) => 22,
            TypeFault::WrongCount(_) => 23,
            TypeFault::NotAPlace(_) => 24,
            TypeFault::LocalAddress(_) => 25,
            TypeFault::StructHoldsItself(_) => 26,
            TypeFault::TooDeep(_) => 27,
            TypeFault::TooManyNodes(_) => 28,
            TypeFault::UnitTooLarge(_) => 29,
            TypeFault::GlobalsTooLarge(_) => 30,
            TypeFault::NoDispatch(_) => 31,
            TypeFault::AsmNotAllowed { .. } => 32,
            TypeFault::TooManyParameters(_) => 33,
            TypeFault::TypeTooLarge(_) => 34,
            TypeFault::EmptyArray(_) => 35,
            TypeFault::NoMain(_) => 36,
            TypeFault::Memory => 39,
        }
    }

    /// Where it stands in the source; want of memory stands nowhere.
    pub fn span(&self) -> Option<Span>
        ensures { result ≡ type_fault_span self.now }
    {
        match self {
            TypeFault::UnknownName(span) => Some(*span),
            TypeFault::NameTwice(span) => Some(*span),
            TypeFault::WrongType(span) => Some(*span),
            TypeFault::WrongCount(span) => Some(*span),
            TypeFault::NotAPlace(span) => Some(*span),
            TypeFault::LocalAddress(span) => Some(*span),
            TypeFault::StructHoldsItself(span) => Some(*span),
            TypeFault::TooDeep(span) => Some(*span),
            TypeFault::TooManyNodes(span) => Some(*span),
            TypeFault::UnitTooLarge(span) => Some(*span),
            TypeFault::GlobalsTooLarge(span) => Some(*span),
            TypeFault::NoDispatch(span) => Some(*span),
            TypeFault::AsmNotAllowed { span, .. } => Some(*span),
            TypeFault::TooManyParameters(span) => Some(*span),
            TypeFault::TypeTooLarge(span) => Some(*span),
            TypeFault::EmptyArray(span) => Some(*span),
            TypeFault::NoMain(span) => Some(*span),
            TypeFault::Memory => None,
        }
    }

    /// The line of an asm text that is not allowed, where that is the fault.
    pub fn line(&self) -> Option<u64>
        ensures { result ≡ type_fault_line self.now }
    {
        match self {
            TypeFault::UnknownName(_) => None,
            TypeFault::NameTwice(_) => None,
            TypeFault::WrongType(_) => None,
            TypeFault::WrongCount(_) => None,
            TypeFault::NotAPlace(_) => None,
            TypeFault::LocalAddress(_) => None,
            TypeFault::StructHoldsItself(_) => None,
            TypeFault::TooDeep(_) => None,
            TypeFault::TooManyNodes(_) => None,
            TypeFault::UnitTooLarge(_) => None,
            TypeFault::GlobalsTooLarge(_) => None,
            TypeFault::NoDispatch(_) => None,
            TypeFault::AsmNotAllowed { line, .. } => Some(*line),
            TypeFault::TooManyParameters(_) => None,
            TypeFault::TypeTooLarge(_) => None,
            TypeFault::EmptyArray(_) => None,
            TypeFault::NoMain(_) => None,
            TypeFault::Memory => None,
        }
    }
}

impl From<AllocError> for TypeFault {
    ghost from_gives = { λ _ e. e ≡ NoMemory };

    fn from(_error: AllocError) -> Self {
        TypeFault::Memory
    }
}

// What is answered of a mistake at a span.
fn named(mistake: Mistake, span: Span) -> TypeFault
    ensures { type_fault_view result ≡ Some (fault (mistake_number mistake) span) }
{
    match mistake {
        Mistake::UnknownName => TypeFault::UnknownName(span),
        Mistake::NameTwice => TypeFault::NameTwice(span),
        Mistake::WrongType => TypeFault::WrongType(span),
        Mistake::WrongCount => TypeFault::WrongCount(span),
        Mistake::NotAPlace => TypeFault::NotAPlace(span),
        Mistake::LocalAddress => TypeFault::LocalAddress(span),
        Mistake::StructHoldsItself => TypeFault::StructHoldsItself(span),
        Mistake::TooDeep => TypeFault::TooDeep(span),
        Mistake::TooManyNodes => TypeFault::TooManyNodes(span),
        Mistake::UnitTooLarge => TypeFault::UnitTooLarge(span),
        Mistake::GlobalsTooLarge => TypeFault::GlobalsTooLarge(span),
        Mistake::NoDispatch => TypeFault::NoDispatch(span),
        Mistake::TooManyParameters => TypeFault::TooManyParameters(span),
        Mistake::TypeTooLarge => TypeFault::TypeTooLarge(span),
        Mistake::EmptyArray => TypeFault::EmptyArray(span),
        Mistake::NoMain => TypeFault::NoMain(span),
    }
}

/// What is answered of a fault that was met.
pub fn answer_of(fault: Fault) -> TypeFault
    ensures { type_fault_view result ≡ Some (fault_view fault) }
{
    match fault {
        Fault::Wrong { mistake, span } => named(mistake, span),
        Fault::BadLine { span, line } => TypeFault::AsmNotAllowed {
            span,
            line: u64::from(line),
        },
    }
}
