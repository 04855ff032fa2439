// The primitives: the functions that a source calls without defining them.

ghost use Rattle.std.specs.Prelude.{◌≡◌, map, IsTrue};
ghost use Rattle.c0_tree.specs.Primitives as table;
ghost use Rattle.c0_tree.specs.Primitives.{primitive_view, kernel_primitives, names_apart};

/// What a source is the program of: which primitives it may call, and with which function its run begins.
#[derive(Clone, Copy, PartialEq, Eq, Debug, Drop)]
pub enum Program {
    /// A kernel, whose run begins with `dispatch`.
    Kernel,
    /// A user program, whose run begins with `main`.
    User,
}

/// The types that primitives take and answer.
#[derive(Clone, Copy, PartialEq, Eq, Debug)]
pub enum Scalar {
    /// A word, with a sign.
    Int,
    /// `true` or `false`.
    Bool,
}

/// A row of the table of primitives. The number of a primitive is the place of its row, from 0 on.
#[derive(Clone, Copy)]
pub struct Primitive {
    /// Its name.
    pub name: &'static str,
    /// The types of its arguments.
    pub args: &'static [Scalar],
    /// The type of its result.
    pub answer: Scalar,
}

// A row.
const fn row(name: &'static str, args: &'static [Scalar], answer: Scalar) -> Primitive
    ensures { primitive_view result ≡ record { name = name.now; args = args.now; answer = answer } }
{
    Primitive { name, args, answer }
}

/// The primitives of a kernel: it reads and changes the registers and the memory of the user machines, and the console.
pub fn primitives() -> [Primitive; 10]
    ensures rows { map primitive_view result ≡ kernel_primitives }
    ensures names { IsTrue (names_apart kernel_primitives) }
{
    use Scalar::{Bool, Int};
    [
        row("vm_get", &[Int, Int], Int),
        row("vm_set", &[Int, Int, Int], Bool),
        row("vm_size", &[Int], Int),
        row("vm_resize", &[Int, Int], Bool),
        row("vm_word", &[Int, Int], Int),
        row("vm_put", &[Int, Int, Int], Bool),
        row("vm_copy", &[Int, Int, Int, Int, Int], Bool),
        row("con_put", &[Int], Bool),
        row("con_get", &[], Int),
        row("con_left", &[], Int),
    ]
}

/// The one primitive of a user program: it asks the kernel with a number, and answers the number that the kernel gives back.
pub fn user_primitives() -> [Primitive; 1]
    ensures { map primitive_view result ≡ table.user_primitives }
{
    [row("trap", &[Scalar::Int], Scalar::Int)]
}
