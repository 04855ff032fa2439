// What was met on the way: faults, and the least of them.

ghost use Rattle.std.specs.Prelude.{◌≡◌};
ghost use Rattle.c0_meaning.specs.DeclaredTypes.{fault_if};
ghost use Rattle.c0_meaning.specs.Fault as spec;
ghost use Rattle.c0_name_check.specs.Met.{fault_view, met_view, mistake_number};

use c0_tree::Span;

/// What is wrong, other than with a line of an asm text.
#[derive(Clone, Copy, PartialEq, Eq, Debug, Drop)]
pub enum Mistake {
    /// No such name.
    UnknownName,
    /// A name set before in its space.
    NameTwice,
    /// Another type than is asked.
    WrongType,
    /// Another number of arguments than of parameters.
    WrongCount,
    /// No place where one is asked.
    NotAPlace,
    /// The address of a local place.
    LocalAddress,
    /// A struct that holds itself other than through a pointer.
    StructHoldsItself,
    /// An expression that needs more than 12 registers.
    TooDeep,
    /// A function of more than 2,000 nodes.
    TooManyNodes,
    /// A unit of more than 100,000 nodes.
    UnitTooLarge,
    /// Globals of more than 262,144 words.
    GlobalsTooLarge,
    /// No function `int dispatch(int, int, int)` with a code body.
    NoDispatch,
    /// More than 8 parameters, or 4 of an asm function.
    TooManyParameters,
    /// A type of more than 1,048,576 words.
    TypeTooLarge,
    /// An array of length 0.
    EmptyArray,
    /// No function `int main()` with a code body.
    NoMain,
}

/// What is wrong, and where.
#[derive(Clone, Copy, PartialEq, Eq, Debug, Drop)]
pub enum Fault {
    /// A mistake at a span.
    Wrong { mistake: Mistake, span: Span },
    /// A line of the asm text at a span that isn't allowed; the line of the text's brace is 1.
    BadLine { span: Span, line: u32 },
}

impl Mistake {
    /// The number that is printed: 20 to 31, or 33 to 36.
    pub fn number(self) -> u32
        ensures { result ≡ mistake_number self }
    {
        match self {
            Mistake::UnknownName => 20,
            Mistake::NameTwice => 21,
            Mistake::WrongType => 22,
            Mistake::WrongCount => 23,
            Mistake::NotAPlace => 24,
            Mistake::LocalAddress => 25,
            Mistake::StructHoldsItself => 26,
            Mistake::TooDeep => 27,
            Mistake::TooManyNodes => 28,
            Mistake::UnitTooLarge => 29,
            Mistake::GlobalsTooLarge => 30,
            Mistake::NoDispatch => 31,
            Mistake::TooManyParameters => 33,
            Mistake::TypeTooLarge => 34,
            Mistake::EmptyArray => 35,
            Mistake::NoMain => 36,
        }
    }
}

impl Fault {
    /// The number that is printed, 20 to 36.
    pub fn number(&self) -> u32
        ensures { result ≡ (fault_view self.now).number }
    {
        match self {
            Fault::Wrong { mistake, .. } => mistake.number(),
            Fault::BadLine { .. } => 32,
        }
    }

    /// Where it is wrong.
    pub fn span(&self) -> Span
        ensures { result ≡ (fault_view self.now).span }
    {
        match self {
            Fault::Wrong { span, .. } => *span,
            Fault::BadLine { span, .. } => *span,
        }
    }

    // The line of an asm text that isn't allowed, from 1; else 0.
    fn line(&self) -> u32
        ensures { result ≡ (fault_view self.now).line }
    {
        match self {
            Fault::Wrong { .. } => 0,
            Fault::BadLine { line, .. } => *line,
        }
    }

    /// Whether it comes before another: by the first byte of its span, then by its number.
    pub fn comes_before(&self, other: &Fault) -> bool
        ensures { result ≡ spec.comes_before (fault_view self.now) (fault_view other.now) }
    {
        let start = self.span().start;
        let limit = other.span().start;
        start < limit || (start == limit && self.is_lower(other))
    }

    // Whether it comes before another that starts at the same byte.
    fn is_lower(&self, other: &Fault) -> bool
        ensures { result ≡ spec.comes_lower (fault_view self.now) (fault_view other.now) }
    {
        let number = self.number();
        let limit = other.number();
        number < limit || (number == limit && self.is_shorter(other))
    }

    // Whether it comes before another of the same first byte and number.
    fn is_shorter(&self, other: &Fault) -> bool
        ensures { result ≡ spec.comes_shorter (fault_view self.now) (fault_view other.now) }
    {
        let end = self.span().end;
        let limit = other.span().end;
        end < limit || (end == limit && self.line() < other.line())
    }
}

/// Keeps the least of the faults met before and this one.
pub fn meet(least: &mut Option<Fault>, new: Fault)
    ensures { met_view least.new ≡ spec.kept (met_view least.old) (fault_view new) }
{
    match *least {
        None => *least = Some(new),
        Some(old) => {
            if new.comes_before(&old) {
                *least = Some(new);
            }
        }
    }
}

/// Keeps the least of the faults met before and a mistake at this span.
pub fn meet_at(least: &mut Option<Fault>, mistake: Mistake, span: Span)
    ensures { met_view least.new ≡ spec.kept (met_view least.old) (spec.fault (mistake_number mistake) span) }
{
    meet(least, Fault::Wrong { mistake, span });
}

/// Keeps the least of the faults met before and, where something is wrong, a mistake at this span.
pub fn meet_if(least: &mut Option<Fault>, wrong: bool, mistake: Mistake, span: Span)
    ensures { met_view least.new ≡ spec.kept_all (met_view least.old) (fault_if wrong (mistake_number mistake) span) }
{
    if wrong {
        meet_at(least, mistake, span);
    }
}
