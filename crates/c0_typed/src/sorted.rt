// The operators between two operands, sorted by the code that they have.

/// An order.
#[derive(Clone, Copy, Debug, Drop)]
pub enum Order {
    /// `<`.
    Less,
    /// `<=`.
    LessOrEqual,
    /// `>`.
    Greater,
    /// `>=`.
    GreaterOrEqual,
}

/// An operator whose code is instructions on two registers.
#[derive(Clone, Copy, Debug, Drop)]
pub enum Plain {
    /// `+`.
    Sum,
    /// `-`.
    Difference,
    /// `*`.
    Product,
    /// `<`, `<=`, `>` or `>=`.
    Order(Order),
    /// `==`.
    Equal,
    /// `!=`.
    Different,
}
