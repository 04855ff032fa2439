// The refusals, with the row and the status of each.
ghost use Rattle.std.specs.Prelude.{◌≡◌, ◌≢◌, ◌≤◌, ◌+◌, ◌++◌, [], ◌∷◌, length, decimal};
ghost use Rattle.c0_types.specs.declared.source_fault.SourceFault.TheVariants.{Reading, Typing};
ghost use Rattle.run_scripts.specs.Refusal.{refusal_text, refusal_status, field_text, signed_field_text, span_start, span_end};
ghost use Rattle.run_scripts.specs.Refusal.{text_fault_row, source_fault_row, object_fault_row, schedule_fault_row};
ghost use Rattle.run_scripts.specs.Refusal as rows;
ghost use Rattle.cvm_shell.specs.Views.{refusal_view};

use arrayvec::ArrayString;
use c0_parser::ReadFault;
use c0_tree::Span;
use c0_types::{SourceFault, TypeFault};
use cvm_text::{decimal, decimal_u64};
use kernel_linker::{AcceptFault, LinkFault};
use mips_asm::AsmFault;
use object_file::ObjectFault;
use run_scripts::Status;
use saved_file::SaveFault;
use schedule_file::ScheduleFault;
use system_files::FileFault;
use thiserror::Error;
use user_c0::UserFault;

/// A fault that an image, a schedule, a source or a user's text has. Places are bytes, counted from
/// 0, and lines are counted from 1.
#[derive(Clone, Copy, Debug, PartialEq, Eq, Error)]
pub enum Refusal {
    /// A user's text has no words.
    #[error("{0}")]
    BadText(AsmFault),
    /// The source of a kernel or a user program has no tree, or its tree is not typed.
    #[error("{0}")]
    BadSource(SourceFault),
    /// The image of a user program is too large.
    #[error("{0}")]
    BadProgram(UserFault),
    /// A file is no object.
    #[error("{0}")]
    BadObject(ObjectFault),
    /// A text has no parameters, or a user's file no words.
    #[error("{0}")]
    BadFile(FileFault),
    /// An object, parameters and users are not linked.
    #[error("{0}")]
    Unlinked(LinkFault),
    /// An image is not accepted.
    #[error("{0}")]
    Unaccepted(AcceptFault),
    /// A text is no schedule.
    #[error("{0}")]
    BadSchedule(ScheduleFault),
    /// A file of a saved machine is not taken up, or may be too long to be made.
    #[error("{0}")]
    BadSave(SaveFault),
    /// The disk has fewer sectors than the users' pages need.
    #[error("{need} sectors are needed, and the disk has {have}")]
    SmallDisk { need: u32, have: u32 },
    /// The user of a trace is none of the users.
    #[error("user {user} of {users} users")]
    NoSuchUser { user: u32, users: u32 },
    /// A file has more than 67,108,864 bytes.
    #[error("a file has more than 67,108,864 bytes")]
    TooLong,
}

impl Refusal {
    /// The row that is printed.
    pub fn row(&self) -> ArrayString<128>
        ensures { result.bytes ≡ refusal_text (refusal_view self.now) }
    {
        match self {
            Refusal::BadText(fault) => text_row(*fault),
            Refusal::BadSource(fault) => source_row(*fault),
            Refusal::BadProgram(fault) => numbers_row(fault.number(), &fault.fields()),
            Refusal::BadObject(fault) => object_row(*fault),
            Refusal::BadFile(fault) => numbers_row(fault.number(), &fault.fields()),
            Refusal::Unlinked(fault) => numbers_row(fault.number(), &fault.fields()),
            Refusal::Unaccepted(fault) => numbers_row(fault.number(), &fault.fields()),
            Refusal::BadSchedule(fault) => schedule_row(*fault),
            Refusal::BadSave(fault) => numbers_row(fault.number(), &fault.fields()),
            Refusal::SmallDisk { need, have } => two_row(90, *need, *have),
            Refusal::NoSuchUser { user, users } => two_row(96, *user, *users),
            Refusal::TooLong => plain_row("refused 81\n"),
        }
    }

    /// The status beside the row: `Shelf` where a file is too long, `Disk` where the disk is too small, else `Refused`.
    pub fn status(&self) -> Status
        ensures is { result ≡ refusal_status (refusal_view self.now) }
        ensures row { result ≢ Status.Sink }
    {
        match self {
            Refusal::SmallDisk { .. } => Status::Disk,
            Refusal::TooLong => Status::Shelf,
            _ => Status::Refused,
        }
    }
}

// A text as a row.
fn plain_row(text: &str) -> ArrayString<128>
    requires { length text.now ≤ 16 }
    ensures { result.bytes ≡ text.now }
{
    let mut row = ArrayString::new();
    row.push_str(text);
    row
}

// Appends a field, if there is one.
fn put_field(row: &mut ArrayString<128>, field: Option<u64>)
    requires { length row.old.bytes ≤ 100 }
    ensures bytes { row.new.bytes ≡ row.old.bytes ++ field_text field }
    ensures few { length row.new.bytes ≤ length row.old.bytes + 21 }
{
    if let Some(number) = field {
        let digits = decimal_u64(number);
        row.push_str(" ");
        row.push_str(digits.as_str());
    }
}

// A row of numbers: the refusal's, and those behind it.
fn numbers_row(number: u32, fields: &[u64]) -> ArrayString<128>
    requires { length fields.now ≤ 4 }
    ensures { result.bytes ≡ rows.numbers_row number fields.now }
{
    let number = decimal_u64(u64::from(number));
    let mut row = ArrayString::new();
    row.push_str("refused ");
    row.push_str(number.as_str());
    for field in fields {
        put_field(&mut row, Some(*field));
    }
    row.push_str("\n");
    row
}

// A row with two numbers.
fn two_row(number: u32, first: u32, second: u32) -> ArrayString<128>
    ensures { result.bytes ≡ rows.numbers_row number (first ∷ second ∷ []) }
{
    numbers_row(number, &[u64::from(first), u64::from(second)])
}

// The row of a fault of a schedule.
fn schedule_row(fault: ScheduleFault) -> ArrayString<128>
    ensures { result.bytes ≡ schedule_fault_row fault }
{
    let number = decimal_u64(u64::from(fault.number()));
    let mut row = ArrayString::new();
    row.push_str("refused ");
    row.push_str(number.as_str());
    put_field(&mut row, fault.line());
    put_field(&mut row, fault.value());
    row.push_str("\n");
    row
}

// The row of a fault of an object.
fn object_row(fault: ObjectFault) -> ArrayString<128>
    ensures { result.bytes ≡ object_fault_row fault }
{
    let number = decimal_u64(u64::from(fault.number()));
    let mut row = ArrayString::new();
    row.push_str("refused ");
    row.push_str(number.as_str());
    put_field(&mut row, fault.at());
    put_field(&mut row, fault.value());
    row.push_str("\n");
    row
}

// Appends a field with a sign, if there is one.
fn put_signed_field(row: &mut ArrayString<128>, field: Option<i64>)
    requires { length row.old.bytes ≤ 100 }
    ensures bytes { row.new.bytes ≡ row.old.bytes ++ signed_field_text field }
    ensures few { length row.new.bytes ≤ length row.old.bytes + 21 }
{
    if let Some(number) = field {
        let digits = decimal(number);
        row.push_str(" ");
        row.push_str(digits.as_str());
    }
}

// The row of a fault of a user's text.
fn text_row(fault: AsmFault) -> ArrayString<128>
    ensures { result.bytes ≡ text_fault_row fault }
{
    let number = decimal_u64(u64::from(fault.number()));
    let mut row = ArrayString::new();
    row.push_str("refused ");
    row.push_str(number.as_str());
    put_field(&mut row, fault.at());
    put_field(&mut row, fault.line());
    put_signed_field(&mut row, fault.value());
    row.push_str("\n");
    row
}

// The row of a fault of a kernel's source.
fn source_row(fault: SourceFault) -> ArrayString<128>
    ensures { result.bytes ≡ source_fault_row fault }
{
    match fault {
        SourceFault::Reading(fault) => reading_row(fault),
        SourceFault::Typing(fault) => typing_row(fault),
    }
}

// The row of a source that has no tree.
fn reading_row(fault: ReadFault) -> ArrayString<128>
    ensures { result.bytes ≡ source_fault_row (Reading fault) }
{
    let number = decimal_u64(u64::from(fault.number()));
    let mut row = ArrayString::new();
    row.push_str("refused ");
    row.push_str(number.as_str());
    put_field(&mut row, fault.at());
    row.push_str("\n");
    row
}

// The row of a source whose tree is not typed.
fn typing_row(fault: TypeFault) -> ArrayString<128>
    ensures { result.bytes ≡ source_fault_row (Typing fault) }
{
    let number = decimal_u64(u64::from(fault.number()));
    let mut row = ArrayString::new();
    row.push_str("refused ");
    row.push_str(number.as_str());
    put_span(&mut row, fault.span());
    put_field(&mut row, fault.line());
    row.push_str("\n");
    row
}

// Appends the two ends of a span, if there is one.
fn put_span(row: &mut ArrayString<128>, span: Option<Span>)
    requires { length row.old.bytes ≤ 58 }
    ensures bytes { row.new.bytes ≡ row.old.bytes ++ field_text (span_start span) ++ field_text (span_end span) }
    ensures few { length row.new.bytes ≤ length row.old.bytes + 42 }
{
    if let Some(span) = span {
        put_field(row, Some(u64::from(span.start)));
        put_field(row, Some(u64::from(span.end)));
    }
}
