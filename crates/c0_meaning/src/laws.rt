// The laws of the definitions: each function says one, and does nothing.

ghost use Rattle.c0_meaning.specs.Fault.{KeptIsLeast, LeastIsThere, MeetingIsFree, MeetingJoins, OrderIsTotal};
ghost use Rattle.c0_meaning.specs.Judgement.{FaultlessIsTyped, HasOneType, TypedIsFaultless};
ghost use Rattle.c0_meaning.specs.Numbered.{NumbersTell};
ghost use Rattle.c0_meaning.specs.Offsets.{OffsetsAreThose};
ghost use Rattle.c0_meaning.specs.OpenTy.{SizeIsWords};
ghost use Rattle.c0_meaning.specs.Rules.{StatementsAreFaultless, TestedIsFaultless};
ghost use Rattle.c0_meaning.specs.Sizes.{UnitsAreSized};
ghost use Rattle.c0_meaning.specs.Stable.{ResolvingIsStable};
ghost use Rattle.c0_meaning.specs.Ty.{TypesEqualAsWritten};
ghost use Rattle.c0_meaning.specs.Typed.{ProgramsAreFaultless, UnitsAreFaultless};
ghost use Rattle.c0_meaning.specs.Unit.{AllowedAsTested, FaultlessIsChecked};
ghost use Rattle.c0_meaning.specs.Words.{HoldsAsTested, WordsAreThose};

/// Types are equal where they are written the same.
pub fn types_are_equal_as_written()
    ensures { TypesEqualAsWritten }
{}

/// Of two faults one comes first.
pub fn fault_order_is_total()
    ensures { OrderIsTotal }
{}

/// Where faults stand there is one that answers, and no second.
pub fn least_fault_is_there()
    ensures { LeastIsThere }
{}

/// The running minimum over a list is its least fault.
pub fn kept_fault_is_least()
    ensures { KeptIsLeast }
{}

/// The running minimum doesn't depend on the order in which faults are met.
pub fn meeting_is_free_of_order()
    ensures free { MeetingIsFree }
    ensures joins { MeetingJoins }
{}

/// Whether a struct holds another is found by the test.
pub fn holding_is_as_tested()
    ensures { HoldsAsTested }
{}

/// The words of a type by the words of its parts.
pub fn words_are_those_of_the_parts()
    ensures { WordsAreThose }
{}

/// What has a type by the rules is exactly what no fault stands in, and it has one type.
pub fn expressions_are_typed_or_faulty()
    ensures typed { TypedIsFaultless }
    ensures faultless { FaultlessIsTyped }
    ensures unique { HasOneType }
{}

/// Statements, conditions and returned expressions are typed by the rules exactly where no fault stands in them.
pub fn statements_are_typed_or_faulty()
    ensures statements { StatementsAreFaultless }
    ensures tested { TestedIsFaultless }
{}

/// A unit of a kernel or a user program in which no fault stands, its names resolved, is one that can be kept as checked.
pub fn faultless_units_are_checked()
    ensures { FaultlessIsChecked }
{}

/// Whether asm bodies hold allowed words alone is found by the test.
pub fn words_are_allowed_as_tested()
    ensures { AllowedAsTested }
{}

/// A unit is typed by the rules exactly where no fault stands in it.
pub fn units_are_typed_or_faulty()
    ensures { UnitsAreFaultless }
{}

/// So is a kernel's unit, which needs a `dispatch`, and a user program's, which needs a `main`.
pub fn programs_are_typed_or_faulty()
    ensures { ProgramsAreFaultless }
{}

/// Resolving the names of a unit changes none of its faults, and resolving them again changes nothing.
pub fn resolving_is_stable()
    ensures { ResolvingIsStable }
{}

/// In a well formed unit the number of each name tells what it stands for: its bodies are typed by numbers.
pub fn numbers_tell()
    ensures { NumbersTell }
{}

/// Values one after another begin each behind the words of those before it.
pub fn offsets_are_those()
    ensures { OffsetsAreThose }
{}

/// A type with its structs written out has as many words.
pub fn written_out_types_have_their_words()
    ensures { SizeIsWords }
{}

/// In a well formed unit each declared type has few words, and its names are resolved.
pub fn well_formed_units_are_sized()
    ensures { UnitsAreSized }
{}
