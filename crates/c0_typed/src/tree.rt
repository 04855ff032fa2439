// The typed tree. Bytes are counted modulo 2^32.

use crate::sorted::Plain;
use c0_tree::Kind;

/// The elements of an array.
#[derive(Clone, Copy, Debug, Drop)]
pub struct Elements {
    /// How many there are.
    pub count: u32,
    /// The words of one, up to 1,048,577.
    pub words: u32,
    /// The bytes of one, modulo 2^32.
    pub bytes: u32,
}

/// A local of a function.
#[derive(Clone, Copy, Debug, Drop)]
pub struct LocalType {
    /// Its words.
    pub words: u32,
    /// Whether it is an int, a bool or a pointer.
    pub scalar: bool,
}

/// An expression: first the places, then the values that are none.
#[derive(Drop)]
pub enum TypedExpr {
    /// The global so many bytes behind the first one.
    Global(u32),
    /// The parameter or local of a number, so many words behind the first one.
    Local(u32, u64),
    /// What stands so many bytes further than a place: a field, or an element whose index needs no test.
    Part(Box<TypedExpr>, u32),
    /// An element of an array that stands at a place; its index is tested.
    Element(Box<TypedExpr>, Box<TypedExpr>, Elements),
    /// What a pointer points to.
    Target(Box<TypedExpr>),
    /// A word that is known.
    Constant(u32),
    /// The address of a place.
    Address(Box<TypedExpr>),
    /// `-e`
    Negative(Box<TypedExpr>),
    /// `!e`
    Negation(Box<TypedExpr>),
    /// An operator whose code is instructions on two registers, and its operands, left and right.
    Plain(Plain, Box<TypedExpr>, Box<TypedExpr>),
    /// `a / b`
    Quotient(Box<TypedExpr>, Box<TypedExpr>),
    /// `a % b`
    Remainder(Box<TypedExpr>, Box<TypedExpr>),
    /// `a && b`
    Both(Box<TypedExpr>, Box<TypedExpr>),
    /// `a || b`
    Either(Box<TypedExpr>, Box<TypedExpr>),
}

/// A statement.
#[derive(Drop)]
pub enum TypedStmt {
    /// A value goes to a place.
    Assign {
        place: TypedExpr,
        value: TypedExpr,
    },
    /// The function or primitive of a number is called with these arguments, and its answer goes to a place.
    Call {
        kind: Kind,
        number: u32,
        args: Vec<TypedExpr>,
        place: TypedExpr,
    },
    /// An object of so many words is made, and its address goes to a place.
    New {
        words: u32,
        place: TypedExpr,
    },
    /// One of two branches.
    If {
        test: TypedExpr,
        yes: Vec<TypedStmt>,
        no: Vec<TypedStmt>,
    },
    /// A loop.
    While {
        test: TypedExpr,
        body: Vec<TypedStmt>,
    },
}

/// A body of locals and statements.
#[derive(Drop)]
pub struct TypedCode {
    /// The locals.
    pub locals: Vec<LocalType>,
    /// The statements.
    pub stmts: Vec<TypedStmt>,
    /// The expression that is returned.
    pub answer: TypedExpr,
}

/// The body of a function.
#[derive(Drop)]
pub enum TypedBody {
    /// Locals and statements.
    Code(TypedCode),
    /// The words of instructions.
    Asm(Vec<u32>),
}

/// A function.
#[derive(Drop)]
pub struct TypedFunction {
    /// How many parameters it has.
    pub params: u32,
    /// The words of its frame.
    pub frame: u64,
    /// Whether it keeps its variables in registers.
    pub in_registers: bool,
    /// Whether its code writes the return register: it calls something, or makes an object.
    pub calling: bool,
    /// What it does.
    pub body: TypedBody,
}
