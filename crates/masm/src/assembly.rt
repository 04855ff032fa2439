// The words of a block, written as an assembler reads them: one instruction a line, with its operands in the manual's order.
ghost use Rattle.std.specs.Prelude.{◌≡◌, ◌+◌, ◌<◌, ◌≤◌, ◌++◌, length, map as each, All};
ghost use Rattle.mips_table.specs.Encoding.{InRange, encoding};
ghost use Rattle.masm.specs.Blocks.{load_immediate_code};

use crate::block;
use crate::block::{Block, Code};
use mips_table::Inst;

/// Appends instructions to a block.
pub fn extend<const CAP: usize>(code: &mut Block<CAP>, insts: &[Inst])
    requires room { length code.old + length insts.now ≤ CAP }
    requires range { All InRange insts.now }
    ensures { code.new ≡ code.old ++ each encoding insts.now }
{
    for inst in insts {
        code.push(*inst);
    }
}

/// Code after which `register`, below 32, is `value`.
pub fn load_immediate(register: u32, value: u32) -> Code
    requires { register < 32 }
    ensures { result ≡ each encoding (load_immediate_code register value) }
{
    block! {
        lui register, value / 65536;
        ori register, register, value % 65536;
    }
}

/// A block of the lines between the braces, in order. Its room is that of the type that is wanted, [`Code`](crate::Code) mostly.
///
/// A line is an instruction with its operands, `then` a block whose words come next, `code` a list of [`code!`](crate::code), or `when` a register
/// (1 to 31) isn't 0 a block, which is either given or stands in braces, or `while` it isn't 0 a block.
///
/// ```text
/// block! {
///     lw T0, CURRENT(ZERO);
///     addiu T0, T0, -1;
///     then load_immediate(T1, map.page_tables());
///     when T0, remove_mapping(map);
///     when T0 {
///         addiu FILL, ZERO, 0;
///         sw T0, 0(ENTRY);
///     }
/// }
/// ```
#[macro_export]
macro_rules! block {
    ($($lines:tt)*) => {{
        let mut code = $crate::Block::new();
        $crate::lines! { (code) $($lines)* }
        code
    }};
}

/// A list of instructions, one a line: the value of a constant, that code and definitions both name.
#[macro_export]
macro_rules! code {
    ($($lines:tt)*) => { $crate::lines! { [] $($lines)* } };
}

/// Lines, for the block that is named first, or behind the instructions that are listed first.
#[macro_export]
macro_rules! lines {
    (($code:ident)) => {};
    ([$($done:expr),*]) => { [$($done),*] };
    (($code:ident) then $next:expr; $($rest:tt)*) => {
        $code.then(&$next);
        $crate::lines! { ($code) $($rest)* }
    };
    (($code:ident) code $list:expr; $($rest:tt)*) => {
        $crate::extend(&mut $code, &$list);
        $crate::lines! { ($code) $($rest)* }
    };
    (($code:ident) when $reg:ident { $($body:tt)* } $($rest:tt)*) => {
        let mut inside = $crate::Code::new();
        $crate::lines! { (inside) $($body)* }
        $code.when($reg, &inside);
        $crate::lines! { ($code) $($rest)* }
    };
    (($code:ident) when $reg:expr, $body:expr; $($rest:tt)*) => {
        $code.when($reg, &$body);
        $crate::lines! { ($code) $($rest)* }
    };
    (($code:ident) while $reg:expr, $body:expr; $($rest:tt)*) => {
        let test = $crate::Block::<0>::new();
        $code.loop_while(&test, $reg, &$body);
        $crate::lines! { ($code) $($rest)* }
    };
    ($to:tt $name:ident $rt:expr, $imm:tt($rs:expr); $($rest:tt)*) => {
        $crate::line! { $to $crate::instruction!($name $rt, $imm($rs)); $($rest)* }
    };
    ($to:tt $name:ident $rt:expr, $rs:expr, -$n:tt; $($rest:tt)*) => {
        $crate::line! { $to $crate::instruction!($name $rt, $rs, -$n); $($rest)* }
    };
    ($to:tt $name:ident $($operand:expr),*; $($rest:tt)*) => {
        $crate::line! { $to $crate::instruction!($name $($operand),*); $($rest)* }
    };
}

/// An instruction, and the lines behind it.
#[macro_export]
macro_rules! line {
    (($code:ident) $inst:expr; $($rest:tt)*) => {
        $code.push($inst);
        $crate::lines! { ($code) $($rest)* }
    };
    ([$($done:expr),*] $inst:expr; $($rest:tt)*) => {
        $crate::lines! { [$($done,)* $inst] $($rest)* }
    };
}

/// An instruction with its operands in the manual's order.
#[macro_export]
macro_rules! instruction {
    (sll $rd:expr, $rt:expr, $sa:expr) => { $crate::Inst::Sll { rd: $rd, rt: $rt, sa: $sa } };
    (srl $rd:expr, $rt:expr, $sa:expr) => { $crate::Inst::Srl { rd: $rd, rt: $rt, sa: $sa } };
    (sra $rd:expr, $rt:expr, $sa:expr) => { $crate::Inst::Sra { rd: $rd, rt: $rt, sa: $sa } };
    (sllv $rd:expr, $rt:expr, $rs:expr) => { $crate::Inst::Sllv { rd: $rd, rt: $rt, rs: $rs } };
    (srlv $rd:expr, $rt:expr, $rs:expr) => { $crate::Inst::Srlv { rd: $rd, rt: $rt, rs: $rs } };
    (srav $rd:expr, $rt:expr, $rs:expr) => { $crate::Inst::Srav { rd: $rd, rt: $rt, rs: $rs } };
    (jr $rs:expr) => { $crate::Inst::Jr { rs: $rs } };
    (jalr $rd:expr, $rs:expr) => { $crate::Inst::Jalr { rd: $rd, rs: $rs } };
    (syscall $code:expr) => { $crate::Inst::Syscall { code: $code } };
    (add $rd:expr, $rs:expr, $rt:expr) => { $crate::Inst::Add { rd: $rd, rs: $rs, rt: $rt } };
    (addu $rd:expr, $rs:expr, $rt:expr) => { $crate::Inst::Addu { rd: $rd, rs: $rs, rt: $rt } };
    (sub $rd:expr, $rs:expr, $rt:expr) => { $crate::Inst::Sub { rd: $rd, rs: $rs, rt: $rt } };
    (subu $rd:expr, $rs:expr, $rt:expr) => { $crate::Inst::Subu { rd: $rd, rs: $rs, rt: $rt } };
    (and $rd:expr, $rs:expr, $rt:expr) => { $crate::Inst::And { rd: $rd, rs: $rs, rt: $rt } };
    (or $rd:expr, $rs:expr, $rt:expr) => { $crate::Inst::Or { rd: $rd, rs: $rs, rt: $rt } };
    (xor $rd:expr, $rs:expr, $rt:expr) => { $crate::Inst::Xor { rd: $rd, rs: $rs, rt: $rt } };
    (nor $rd:expr, $rs:expr, $rt:expr) => { $crate::Inst::Nor { rd: $rd, rs: $rs, rt: $rt } };
    (slt $rd:expr, $rs:expr, $rt:expr) => { $crate::Inst::Slt { rd: $rd, rs: $rs, rt: $rt } };
    (sltu $rd:expr, $rs:expr, $rt:expr) => { $crate::Inst::Sltu { rd: $rd, rs: $rs, rt: $rt } };
    (bltz $rs:expr, $imm:expr) => { $crate::Inst::Bltz { rs: $rs, imm: $imm } };
    (bgez $rs:expr, $imm:expr) => { $crate::Inst::Bgez { rs: $rs, imm: $imm } };
    (j $index:expr) => { $crate::Inst::J { index: $index } };
    (jal $index:expr) => { $crate::Inst::Jal { index: $index } };
    (beq $rs:expr, $rt:expr, -$n:tt) => { $crate::Inst::Beq { rs: $rs, rt: $rt, imm: 65536 - $n } };
    (beq $rs:expr, $rt:expr, $imm:expr) => { $crate::Inst::Beq { rs: $rs, rt: $rt, imm: $imm } };
    (bne $rs:expr, $rt:expr, -$n:tt) => { $crate::Inst::Bne { rs: $rs, rt: $rt, imm: 65536 - $n } };
    (bne $rs:expr, $rt:expr, $imm:expr) => { $crate::Inst::Bne { rs: $rs, rt: $rt, imm: $imm } };
    (blez $rs:expr, $imm:expr) => { $crate::Inst::Blez { rs: $rs, imm: $imm } };
    (bgtz $rs:expr, $imm:expr) => { $crate::Inst::Bgtz { rs: $rs, imm: $imm } };
    (addi $rt:expr, $rs:expr, $imm:expr) => { $crate::Inst::Addi { rt: $rt, rs: $rs, imm: $imm } };
    (addiu $rt:expr, $rs:expr, -$n:tt) => { $crate::Inst::Addiu { rt: $rt, rs: $rs, imm: 65536 - $n } };
    (addiu $rt:expr, $rs:expr, $imm:expr) => { $crate::Inst::Addiu { rt: $rt, rs: $rs, imm: $imm } };
    (slti $rt:expr, $rs:expr, $imm:expr) => { $crate::Inst::Slti { rt: $rt, rs: $rs, imm: $imm } };
    (sltiu $rt:expr, $rs:expr, $imm:expr) => { $crate::Inst::Sltiu { rt: $rt, rs: $rs, imm: $imm } };
    (andi $rt:expr, $rs:expr, $imm:expr) => { $crate::Inst::Andi { rt: $rt, rs: $rs, imm: $imm } };
    (ori $rt:expr, $rs:expr, $imm:expr) => { $crate::Inst::Ori { rt: $rt, rs: $rs, imm: $imm } };
    (xori $rt:expr, $rs:expr, $imm:expr) => { $crate::Inst::Xori { rt: $rt, rs: $rs, imm: $imm } };
    (lui $rt:expr, $imm:expr) => { $crate::Inst::Lui { rt: $rt, imm: $imm } };
    (mfc0 $rt:expr, $special:expr) => { $crate::Inst::Mfc0 { rt: $rt, special: $special } };
    (mtc0 $rt:expr, $special:expr) => { $crate::Inst::Mtc0 { rt: $rt, special: $special } };
    (eret) => { $crate::Inst::Eret };
    (lw $rt:expr, $imm:tt($rs:expr)) => { $crate::Inst::Lw { rt: $rt, rs: $rs, imm: $imm } };
    (sw $rt:expr, $imm:tt($rs:expr)) => { $crate::Inst::Sw { rt: $rt, rs: $rs, imm: $imm } };
    (mult $rs:expr, $rt:expr) => { $crate::Inst::Mult { rs: $rs, rt: $rt } };
    (multu $rs:expr, $rt:expr) => { $crate::Inst::Multu { rs: $rs, rt: $rt } };
    (div $rs:expr, $rt:expr) => { $crate::Inst::Div { rs: $rs, rt: $rt } };
    (divu $rs:expr, $rt:expr) => { $crate::Inst::Divu { rs: $rs, rt: $rt } };
    (mfhi $rd:expr) => { $crate::Inst::Mfhi { rd: $rd } };
    (mthi $rs:expr) => { $crate::Inst::Mthi { rs: $rs } };
    (mflo $rd:expr) => { $crate::Inst::Mflo { rd: $rd } };
    (mtlo $rs:expr) => { $crate::Inst::Mtlo { rs: $rs } };
}
