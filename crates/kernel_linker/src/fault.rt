// The faults of linking and of accepting.

ghost use Rattle.std.specs.Prelude.{◌≡◌, ◌≤◌, ◌∷◌, [], ◌++◌, length};
ghost use Rattle.kernel_linker.specs.Fault.{accept_difference, accept_fault_fields, accept_fault_number, accept_file_fault, accept_source_fault};
ghost use Rattle.kernel_linker.specs.Fault.{field_number, image_fields, link_difference, link_fault_fields, link_fault_number, link_source_fault};
ghost use Rattle.kernel_linker.specs.Fault.{read_fields, span_fields, type_fields};
ghost use Rattle.kernel_linker.specs.declared.fault.LinkFault.TheVariants as link;
ghost use Rattle.kernel_linker.specs.declared.fault.AcceptFault.TheVariants as accept;

use crate::difference::Difference;
use arrayvec::ArrayVec;
use boot_image::ImageFault;
use c0_parser::ReadFault;
use c0_tree::Span;
use c0_types::{SourceFault, TypeFault};
use std::alloc::AllocError;
use thiserror::Error;

/// Why an object, parameters and users are not linked. Users are counted from 1, words from 0.
#[derive(Clone, Copy, Debug, PartialEq, Eq, Error)]
pub enum LinkFault {
    /// There are more than 64 users.
    #[error("{users} users, more than 64")]
    UserCount {
        users: u64,
    },
    /// A user has more than 65,536 words, or more than the pages of the parameters have.
    #[error("user {user} has {words} words, more than fit")]
    UserTooLong {
        user: u64,
        words: u64,
    },
    /// A parameter is out of its range: 1 the pages, 2 the frames, 3 the heap, 4 the stack.
    #[error("parameter {which} is {value}, which is out of range")]
    Parameter {
        which: u32,
        value: u64,
    },
    /// The object's source has no tree. Want of memory is no such fault.
    #[error("the object's source: {0}")]
    ObjectSource(ReadFault),
    /// The object's source is not typed. Want of memory is no such fault.
    #[error("the object's source: {0}")]
    ObjectTypes(TypeFault),
    /// The object has another number of words than its source is compiled to.
    #[error("the object has {stored} words, and its source is compiled to {made}")]
    ObjectForgedCount {
        stored: u64,
        made: u64,
    },
    /// The first word of the object that differs from what its source is compiled to.
    #[error("word {position} of the object is {stored}, and its source is compiled to {made}")]
    ObjectForged {
        position: u64,
        stored: u32,
        made: u32,
    },
    /// Want of memory.
    #[error("out of memory")]
    Memory,
}

/// Why an image is not accepted. Words are counted from 0.
#[derive(Clone, Copy, Debug, PartialEq, Eq, Error)]
pub enum AcceptFault {
    /// The bytes are no image. Want of memory is no such fault.
    #[error("{0}")]
    File(ImageFault),
    /// The image's source has no tree. Want of memory is no such fault.
    #[error("the image's source: {0}")]
    Source(ReadFault),
    /// The image's source is not typed. Want of memory is no such fault.
    #[error("the image's source: {0}")]
    Types(TypeFault),
    /// The image has another number of linked words than its source, parameters and users are linked to.
    #[error("the image has {stored} linked words, and {made} are made")]
    ForgedCount {
        stored: u64,
        made: u64,
    },
    /// The first linked word that differs from what the source, the parameters and the users are linked to.
    #[error("linked word {position} of the image is {stored}, and {made} is made")]
    Forged {
        position: u64,
        stored: u32,
        made: u32,
    },
    /// Want of memory.
    #[error("out of memory")]
    Memory,
}

// Adds a number, if there is one.
fn put(fields: &mut ArrayVec<u64, 4>, number: Option<u64>)
    requires { length fields.old.items ≤ 3 }
    ensures { fields.new.items ≡ fields.old.items ++ field_number number }
{
    if let Some(number) = number {
        fields.push(number);
    }
}

// Adds the ends of a span, if there is one.
fn put_span(fields: &mut ArrayVec<u64, 4>, span: Option<Span>)
    requires { length fields.old.items ≤ 2 }
    ensures { fields.new.items ≡ fields.old.items ++ span_fields span }
{
    if let Some(span) = span {
        fields.push(u64::from(span.start));
        fields.push(u64::from(span.end));
    }
}

// The number of a fault of reading, and the byte that it names.
fn fields_of_reading(fault: ReadFault) -> ArrayVec<u64, 4>
    ensures { result.items ≡ read_fields fault }
{
    let mut fields = ArrayVec::new();
    fields.push(u64::from(fault.number()));
    put(&mut fields, fault.at());
    fields
}

// The number of a fault of typing, its span, and the line of an asm text.
fn fields_of_typing(fault: TypeFault) -> ArrayVec<u64, 4>
    ensures { result.items ≡ type_fields fault }
{
    let mut fields = ArrayVec::new();
    fields.push(u64::from(fault.number()));
    put_span(&mut fields, fault.span());
    put(&mut fields, fault.line());
    fields
}

// What an image's fault names.
fn fields_of_file(fault: ImageFault) -> ArrayVec<u64, 4>
    ensures { result.items ≡ image_fields fault }
{
    let mut fields = ArrayVec::new();
    put(&mut fields, fault.at());
    put(&mut fields, fault.which());
    put(&mut fields, fault.value());
    fields
}

// Two numbers.
fn two(first: u64, second: u64) -> ArrayVec<u64, 4>
    ensures { result.items ≡ first ∷ second ∷ [] }
{
    let mut fields = ArrayVec::new();
    fields.push(first);
    fields.push(second);
    fields
}

// Three numbers.
fn three(first: u64, second: u64, third: u64) -> ArrayVec<u64, 4>
    ensures { result.items ≡ first ∷ second ∷ third ∷ [] }
{
    let mut fields = two(first, second);
    fields.push(third);
    fields
}

// One number.
fn one(number: u64) -> ArrayVec<u64, 4>
    ensures { result.items ≡ number ∷ [] }
{
    let mut fields = ArrayVec::new();
    fields.push(number);
    fields
}

impl LinkFault {
    /// The number that is printed for it: 60 to 63 and 67 to 69, or 64 for want of memory.
    pub fn number(&self) -> u32
        ensures { result ≡ link_fault_number self.now }
    {
        match self {
            LinkFault::UserCount { .. } => 60,
            LinkFault::UserTooLong { .. } => 61,
            LinkFault::Parameter { .. } => 62,
            LinkFault::ObjectForged { .. } => 63,
            LinkFault::Memory => 64,
            LinkFault::ObjectForgedCount { .. } => 67,
            LinkFault::ObjectSource(_) => 68,
            LinkFault::ObjectTypes(_) => 69,
        }
    }

    /// The numbers that are printed behind it.
    pub fn fields(&self) -> ArrayVec<u64, 4>
        ensures { result.items ≡ link_fault_fields self.now }
    {
        match self {
            LinkFault::UserCount { users } => one(*users),
            LinkFault::UserTooLong { user, words } => two(*user, *words),
            LinkFault::Parameter { which, value } => two(u64::from(*which), *value),
            LinkFault::ObjectForged {
                position,
                stored,
                made,
            } => three(*position, u64::from(*stored), u64::from(*made)),
            LinkFault::Memory => ArrayVec::new(),
            LinkFault::ObjectForgedCount { stored, made } => two(*stored, *made),
            LinkFault::ObjectSource(fault) => fields_of_reading(*fault),
            LinkFault::ObjectTypes(fault) => fields_of_typing(*fault),
        }
    }
}

impl AcceptFault {
    /// The number that is printed for it: 50 to 56 and 58, or 57 for want of memory.
    pub fn number(&self) -> u32
        ensures { result ≡ accept_fault_number self.now }
    {
        match self {
            AcceptFault::File(fault) => fault.number(),
            AcceptFault::Source(_) => 54,
            AcceptFault::Types(_) => 55,
            AcceptFault::Forged { .. } => 56,
            AcceptFault::Memory => 57,
            AcceptFault::ForgedCount { .. } => 58,
        }
    }

    /// The numbers that are printed behind it.
    pub fn fields(&self) -> ArrayVec<u64, 4>
        ensures { result.items ≡ accept_fault_fields self.now }
    {
        match self {
            AcceptFault::File(fault) => fields_of_file(*fault),
            AcceptFault::Source(fault) => fields_of_reading(*fault),
            AcceptFault::Types(fault) => fields_of_typing(*fault),
            AcceptFault::Forged {
                position,
                stored,
                made,
            } => three(*position, u64::from(*stored), u64::from(*made)),
            AcceptFault::Memory => ArrayVec::new(),
            AcceptFault::ForgedCount { stored, made } => two(*stored, *made),
        }
    }
}

impl From<AllocError> for LinkFault {
    ghost from_gives = { λ _ e. e ≡ link.Memory };

    fn from(_error: AllocError) -> Self {
        LinkFault::Memory
    }
}

impl From<SourceFault> for LinkFault {
    ghost from_gives = { λ f e. e ≡ link_source_fault f };

    fn from(fault: SourceFault) -> Self {
        match fault {
            SourceFault::Reading(ReadFault::Memory) => LinkFault::Memory,
            SourceFault::Reading(fault) => LinkFault::ObjectSource(fault),
            SourceFault::Typing(TypeFault::Memory) => LinkFault::Memory,
            SourceFault::Typing(fault) => LinkFault::ObjectTypes(fault),
        }
    }
}

impl From<Difference> for LinkFault {
    ghost from_gives = { λ d e. e ≡ link_difference d };

    fn from(difference: Difference) -> Self {
        match difference {
            Difference::Count { stored, made } => LinkFault::ObjectForgedCount { stored, made },
            Difference::Word {
                position,
                stored,
                made,
            } => LinkFault::ObjectForged {
                position,
                stored,
                made,
            },
        }
    }
}

impl From<AllocError> for AcceptFault {
    ghost from_gives = { λ _ e. e ≡ accept.Memory };

    fn from(_error: AllocError) -> Self {
        AcceptFault::Memory
    }
}

impl From<ImageFault> for AcceptFault {
    ghost from_gives = { λ f e. e ≡ accept_file_fault f };

    fn from(fault: ImageFault) -> Self {
        match fault {
            ImageFault::Memory => AcceptFault::Memory,
            fault => AcceptFault::File(fault),
        }
    }
}

impl From<SourceFault> for AcceptFault {
    ghost from_gives = { λ f e. e ≡ accept_source_fault f };

    fn from(fault: SourceFault) -> Self {
        match fault {
            SourceFault::Reading(ReadFault::Memory) => AcceptFault::Memory,
            SourceFault::Reading(fault) => AcceptFault::Source(fault),
            SourceFault::Typing(TypeFault::Memory) => AcceptFault::Memory,
            SourceFault::Typing(fault) => AcceptFault::Types(fault),
        }
    }
}

impl From<Difference> for AcceptFault {
    ghost from_gives = { λ d e. e ≡ accept_difference d };

    fn from(difference: Difference) -> Self {
        match difference {
            Difference::Count { stored, made } => AcceptFault::ForgedCount { stored, made },
            Difference::Word {
                position,
                stored,
                made,
            } => AcceptFault::Forged {
                position,
                stored,
                made,
            },
        }
    }
}
