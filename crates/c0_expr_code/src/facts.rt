// What is known of variables at a place of the code.

ghost use Rattle.std.specs.Prelude.{◌≡◌, ◌<◌, slice_set};
ghost use Rattle.c0_typed.specs.View.{typed_expr_view};
ghost use Rattle.c0_expr_code.specs.Facts as spec;

use crate::register::Register;
use c0_typed::{Plain, TypedExpr};
use masm::registers::{ANSWER, ARGUMENTS};

/// What is known of a function's variables at a place of its code.
#[derive(Clone, Copy, Debug)]
pub struct Facts {
    /// Which parameters in the frame stand in their argument registers too, 20 to 27 for the numbers 0 to 7.
    pub params: [bool; 8],
    /// The variable in the frame whose word register 2 has.
    pub answer: Option<u32>,
    /// Which of the first 64 variables surely aren't null.
    pub sure: [bool; 64],
}

// Whether an expression is written as 0, `false` or `null`.
fn is_zero(expr: &TypedExpr) -> bool
    ensures { result ≡ spec.is_zero (typed_expr_view expr.now) }
{
    match expr {
        TypedExpr::Global(_) => false,
        TypedExpr::Local(_, _) => false,
        TypedExpr::Part(_, _) => false,
        TypedExpr::Element(_, _, _) => false,
        TypedExpr::Target(_) => false,
        TypedExpr::Constant(word) => *word == 0,
        TypedExpr::Address(_) => false,
        TypedExpr::Negative(_) => false,
        TypedExpr::Negation(_) => false,
        TypedExpr::Plain(_, _, _) => false,
        TypedExpr::Quotient(_, _) => false,
        TypedExpr::Remainder(_, _) => false,
        TypedExpr::Both(_, _) => false,
        TypedExpr::Either(_, _) => false,
    }
}

// The variable that an expression is.
fn variable(expr: &TypedExpr) -> Option<u32>
    ensures { result ≡ spec.variable_in (typed_expr_view expr.now) }
{
    match expr {
        TypedExpr::Global(_) => None,
        TypedExpr::Local(number, _) => Some(*number),
        TypedExpr::Part(_, _) => None,
        TypedExpr::Element(_, _, _) => None,
        TypedExpr::Target(_) => None,
        TypedExpr::Constant(_) => None,
        TypedExpr::Address(_) => None,
        TypedExpr::Negative(_) => None,
        TypedExpr::Negation(_) => None,
        TypedExpr::Plain(_, _, _) => None,
        TypedExpr::Quotient(_, _) => None,
        TypedExpr::Remainder(_, _) => None,
        TypedExpr::Both(_, _) => None,
        TypedExpr::Either(_, _) => None,
    }
}

// Whether the sides of an operator differ where it came out so.
fn tells_difference(op: Plain, outcome: bool) -> bool
    ensures { result ≡ spec.tells_difference op outcome }
{
    match op {
        Plain::Sum => false,
        Plain::Difference => false,
        Plain::Product => false,
        Plain::Order(_) => false,
        Plain::Equal => !outcome,
        Plain::Different => outcome,
    }
}

impl Facts {
    /// What is known at a function's begin: its first eight parameters came in registers 20 to 27, where it doesn't keep its variables there.
    pub fn at_start(in_registers: bool, params: u32) -> Facts
        ensures { result ≡ spec.start_facts in_registers params }
    {
        let params = if in_registers { 0 } else { params };
        Facts {
            params: [
                0 < params,
                1 < params,
                2 < params,
                3 < params,
                4 < params,
                5 < params,
                6 < params,
                7 < params,
            ],
            answer: None,
            sure: [false; 64],
        }
    }

    // Whether the answer is the variable of this number.
    fn holds_answer(&self, number: u32) -> bool
        ensures { result ≡ spec.holds_answer self.now.answer number }
    {
        match self.answer {
            Some(answer) => answer == number,
            None => false,
        }
    }

    // Whether the variable of this number is a parameter that stands in its argument's register.
    fn holds_param(&self, number: u32) -> bool
        ensures { result ≡ spec.holds_param self.now number }
    {
        number < 8 && self.params[number as usize]
    }

    /// The register that has the word of a variable in the frame: 2, or one from 20 to 27.
    pub fn register_holding(&self, number: u32) -> Option<Register>
        ensures { result ≡ spec.register_holding self.now number }
    {
        if self.holds_answer(number) {
            return Some(Register::new(ANSWER));
        }
        if self.holds_param(number) {
            return Some(Register::new(ARGUMENTS + number));
        }
        None
    }

    // Whether the variable of this number surely isn't null; known of the numbers 0 to 63.
    fn is_sure(&self, number: u32) -> bool
        ensures { result ≡ spec.is_not_null self.now number }
    {
        number < 64 && self.sure[number as usize]
    }

    /// Whether a pointer is a variable, one of the first 64, that surely isn't null.
    pub fn is_sure_pointer(&self, pointer: &TypedExpr) -> bool
        ensures { result ≡ spec.is_sure_pointer self.now (typed_expr_view pointer.now) }
    {
        match variable(pointer) {
            Some(number) => self.is_sure(number),
            None => false,
        }
    }

    // With a variable sure or not, if it is one of those of which this is known, the numbers 0 to 63.
    fn marked(self, number: u32, sure: bool) -> Facts
        ensures { result ≡ record { params = self.params; answer = self.answer; sure = slice_set self.sure number sure } }
    {
        let mut facts = self;
        if number < 64 {
            facts.sure[number as usize] = sure;
        }
        facts
    }

    /// Once the argument of this number went to its register, 20 plus the number; nothing is known of registers behind 27.
    pub fn overwritten(self, number: u32) -> Facts
        ensures { result ≡ spec.overwritten self number }
    {
        let mut facts = self;
        if number < 8 {
            facts.params[number as usize] = false;
        }
        facts
    }

    /// Once the variable of this number was assigned to: one of 0 to 7 isn't in its register any more, and one of 0 to 63 may be null.
    pub fn assigned_to(self, number: u32) -> Facts
        ensures { result ≡ spec.assigned_to self number }
    {
        let mut facts = self.overwritten(number).marked(number, false);
        if self.holds_answer(number) {
            facts.answer = None;
        }
        facts
    }

    /// Once a call was made: registers 2 and 20 to 27 are changed.
    pub fn called(self) -> Facts
        ensures { result ≡ spec.facts_called self }
    {
        let none = [false; 8];
        let mut facts = self;
        facts.params = none;
        facts.answer = None;
        facts
    }

    /// Once an object was made, whose address is in register 2.
    pub fn renewed(self) -> Facts
        ensures { result ≡ spec.renewed self }
    {
        let mut facts = self;
        facts.answer = None;
        facts
    }

    /// Once the answer, in register 2, went to the variable of this number.
    pub fn answered(self, number: u32) -> Facts
        ensures { result ≡ spec.facts_answered self number }
    {
        let mut facts = self;
        facts.answer = Some(number);
        facts
    }

    // With the variable that an expression is sure, if it is one.
    fn with_sure(self, expr: &TypedExpr) -> Facts
        ensures { result ≡ spec.with_sure self (spec.variable_in (typed_expr_view expr.now)) }
    {
        match variable(expr) {
            Some(number) => self.marked(number, true),
            None => self,
        }
    }

    /// Once an expression has a value or a place.
    pub fn followed(self, expr: &TypedExpr) -> Facts
        ensures { result ≡ spec.facts_followed (typed_expr_view expr.now) self }
    {
        match expr {
            TypedExpr::Global(_) => self,
            TypedExpr::Local(_, _) => self,
            TypedExpr::Part(place, _) => self.followed(place),
            TypedExpr::Element(place, index, _) => self.followed(place).followed(index),
            TypedExpr::Target(pointer) => self.followed(pointer).with_sure(pointer),
            TypedExpr::Constant(_) => self,
            TypedExpr::Address(place) => self.followed(place),
            TypedExpr::Negative(operand) => self.followed(operand),
            TypedExpr::Negation(operand) => self.followed(operand),
            TypedExpr::Plain(_, left, right) => self.followed(left).followed(right),
            TypedExpr::Quotient(left, right) => self.followed(left).followed(right),
            TypedExpr::Remainder(left, right) => self.followed(left).followed(right),
            TypedExpr::Both(left, _) => self.followed(left),
            TypedExpr::Either(left, _) => self.followed(left),
        }
    }

    // Once an operator on two registers came out so, as a test.
    fn compared(self, op: Plain, left: &TypedExpr, right: &TypedExpr, outcome: bool) -> Facts
        ensures { result ≡ spec.facts_compared op (typed_expr_view left.now) (typed_expr_view right.now) outcome self }
    {
        let facts = self.followed(left).followed(right);
        if tells_difference(op, outcome) && is_zero(right) {
            facts.with_sure(left)
        } else {
            facts
        }
    }

    /// Once a test came out so.
    pub fn told(self, expr: &TypedExpr, outcome: bool) -> Facts
        ensures { result ≡ spec.facts_told (typed_expr_view expr.now) outcome self }
    {
        match expr {
            TypedExpr::Global(_) => self.followed(expr),
            TypedExpr::Local(_, _) => self.followed(expr),
            TypedExpr::Part(_, _) => self.followed(expr),
            TypedExpr::Element(_, _, _) => self.followed(expr),
            TypedExpr::Target(_) => self.followed(expr),
            TypedExpr::Constant(_) => self.followed(expr),
            TypedExpr::Address(_) => self.followed(expr),
            TypedExpr::Negative(_) => self.followed(expr),
            TypedExpr::Negation(operand) => self.told(operand, !outcome),
            TypedExpr::Plain(op, left, right) => self.compared(*op, left, right, outcome),
            TypedExpr::Quotient(_, _) => self.followed(expr),
            TypedExpr::Remainder(_, _) => self.followed(expr),
            TypedExpr::Both(left, right) => {
                if outcome {
                    self.told(left, true).told(right, true)
                } else {
                    self.followed(left)
                }
            }
            TypedExpr::Either(left, right) => {
                if outcome {
                    self.followed(left)
                } else {
                    self.told(left, false).told(right, false)
                }
            }
        }
    }
}
