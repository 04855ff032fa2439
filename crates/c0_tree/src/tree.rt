// The tree of a C0 source.

/// A part of the source: from the first byte of its first token to the byte after its last token.
#[derive(Clone, Copy, PartialEq, Eq, Debug, Drop)]
pub struct Span {
    /// The first byte, from 0.
    pub start: u32,
    /// The byte after the last one.
    pub end: u32,
}

/// What a name stands for.
#[derive(Clone, Copy, PartialEq, Eq, Debug, Drop)]
pub enum Kind {
    /// It is not known yet: so each name is read.
    Unresolved,
    /// A struct; its number is its place among the structs.
    Struct,
    /// A field; its number is its place among the fields of its struct.
    Field,
    /// A global; its number is its place among the globals.
    Global,
    /// A parameter or a local; its number is its place among the parameters followed by the locals.
    Local,
    /// A function; its number is its place among the functions.
    Function,
    /// A primitive; its number is its place in the table of primitives.
    Primitive,
}

/// A name in the source, and what it stands for.
#[derive(Drop)]
pub struct Name {
    /// The name as the source has it.
    pub bytes: Vec<u8>,
    /// Where it stands.
    pub span: Span,
    /// What it stands for.
    pub kind: Kind,
    /// Which of that kind it stands for, from 0 on; 0 where that is not known yet.
    pub number: u32,
}

/// A type, as it is written.
#[derive(Drop)]
pub enum CType {
    /// 32 bits, two's complement.
    Int,
    /// `true` or `false`.
    Bool,
    /// A pointer to a value of the type.
    Pointer(Box<CType>),
    /// The struct of this name.
    Named(Name),
    /// An array of so many elements of the type, at most 2147483647.
    Array(Box<CType>, u32),
}

/// A global, a field, a parameter or a local.
#[derive(Drop)]
pub struct Decl {
    /// The type of its values.
    pub ty: CType,
    /// Where the type stands.
    pub ty_span: Span,
    /// Its name.
    pub name: Name,
}

/// A struct.
#[derive(Drop)]
pub struct StructDef {
    /// Its name.
    pub name: Name,
    /// Its fields.
    pub fields: Vec<Decl>,
}

/// A whole source.
#[derive(Drop)]
pub struct Unit {
    /// How many bytes the source has.
    pub length: u32,
    /// The structs.
    pub structs: Vec<StructDef>,
    /// The globals.
    pub globals: Vec<Decl>,
    /// The functions.
    pub functions: Vec<Function>,
}

/// A function.
#[derive(Drop)]
pub struct Function {
    /// The type of its result.
    pub answer: CType,
    /// Where that type stands.
    pub answer_span: Span,
    /// Its name.
    pub name: Name,
    /// Its parameters.
    pub params: Vec<Decl>,
    /// What it does.
    pub body: Body,
}

/// The body of a function.
#[derive(Drop)]
pub enum Body {
    /// Declarations and statements.
    Code(Code),
    /// Instructions.
    Asm(AsmText),
}

/// A body of declarations and statements.
#[derive(Drop)]
pub struct Code {
    /// The locals.
    pub locals: Vec<Decl>,
    /// The statements.
    pub stmts: Vec<Stmt>,
    /// The expression that is returned, which stands last.
    pub answer: Expr,
}

/// A body of instructions.
#[derive(Drop)]
pub struct AsmText {
    /// The bytes between the braces.
    pub bytes: Vec<u8>,
    /// Where the text stands, its braces taken in.
    pub span: Span,
    /// The words of its instructions; none as the source is read.
    pub words: Vec<u32>,
}

/// A statement.
#[derive(Drop)]
pub enum Stmt {
    /// `place = value;`
    Assign {
        span: Span,
        place: Expr,
        value: Expr,
    },
    /// `place = function(args);`
    Call {
        span: Span,
        place: Expr,
        call_span: Span,
        function: Name,
        args: Vec<Expr>,
    },
    /// `place = new ty;`
    New {
        span: Span,
        place: Expr,
        ty: CType,
        ty_span: Span,
    },
    /// `if (test) { yes } else { no }`; without `else` there is no statement in `no`.
    If {
        span: Span,
        test: Expr,
        yes: Vec<Stmt>,
        no: Vec<Stmt>,
    },
    /// `while (test) { body }`
    While {
        span: Span,
        test: Expr,
        body: Vec<Stmt>,
    },
}

/// An operator before its operand.
#[derive(Clone, Copy, PartialEq, Eq, Debug, Drop)]
pub enum UnaryOp {
    /// `-`
    Negate,
    /// `!`
    Not,
}

/// An operator between two operands.
#[derive(Clone, Copy, PartialEq, Eq, Debug, Drop)]
pub enum BinaryOp {
    /// `+`
    Add,
    /// `-`
    Sub,
    /// `*`
    Mul,
    /// `/`
    Div,
    /// `%`
    Rem,
    /// `<`
    Lt,
    /// `<=`
    Le,
    /// `>`
    Gt,
    /// `>=`
    Ge,
    /// `==`
    Eq,
    /// `!=`
    Ne,
    /// `&&`
    And,
    /// `||`
    Or,
}

/// An expression. Its span leaves out parentheses around the whole of it.
#[derive(Drop)]
pub enum Expr {
    /// A number, at most 2147483647.
    Num(Span, u32),
    /// `true`
    True(Span),
    /// `false`
    False(Span),
    /// `null`
    Null(Span),
    /// A variable.
    Var(Name),
    /// `e.f`
    Field(Span, Box<Expr>, Name),
    /// `e->f`
    Arrow(Span, Box<Expr>, Name),
    /// `e[i]`
    Index(Span, Box<Expr>, Box<Expr>),
    /// `*e`
    Deref(Span, Box<Expr>),
    /// `&e`
    AddressOf(Span, Box<Expr>),
    /// `-e` or `!e`
    Unary(Span, UnaryOp, Box<Expr>),
    /// An operator and its operands, left and right.
    Binary(Span, BinaryOp, Box<Expr>, Box<Expr>),
}
