// The instructions as texts have them, each on one line: the instruction, what is read for its operands, and what is written
// for them. Its mnemonic and its word come from the instruction table. `rows!` hands the lines to another macro, which makes
// the table of forms or the arms of a function.
macro_rules! rows {
    ($make:ident $(, $input:expr)*) => {
        $make! {
            $($input,)*
            Sll { rd, rt, sa }, RD_RT_SA, [Register(rd), Register(rt), Number(sa)];
            Srl { rd, rt, sa }, RD_RT_SA, [Register(rd), Register(rt), Number(sa)];
            Sra { rd, rt, sa }, RD_RT_SA, [Register(rd), Register(rt), Number(sa)];
            Sllv { rd, rt, rs }, RD_RT_RS, [Register(rd), Register(rt), Register(rs)];
            Srlv { rd, rt, rs }, RD_RT_RS, [Register(rd), Register(rt), Register(rs)];
            Srav { rd, rt, rs }, RD_RT_RS, [Register(rd), Register(rt), Register(rs)];
            Jr { rs }, RS, [Register(rs)];
            Jalr { rd, rs }, RD_RS, [Register(rd), Register(rs)];
            Syscall { code }, CODE, [Number(code)] unless code == 0;
            Add { rd, rs, rt }, RD_RS_RT, [Register(rd), Register(rs), Register(rt)];
            Addu { rd, rs, rt }, RD_RS_RT, [Register(rd), Register(rs), Register(rt)];
            Sub { rd, rs, rt }, RD_RS_RT, [Register(rd), Register(rs), Register(rt)];
            Subu { rd, rs, rt }, RD_RS_RT, [Register(rd), Register(rs), Register(rt)];
            And { rd, rs, rt }, RD_RS_RT, [Register(rd), Register(rs), Register(rt)];
            Or { rd, rs, rt }, RD_RS_RT, [Register(rd), Register(rs), Register(rt)];
            Xor { rd, rs, rt }, RD_RS_RT, [Register(rd), Register(rs), Register(rt)];
            Nor { rd, rs, rt }, RD_RS_RT, [Register(rd), Register(rs), Register(rt)];
            Slt { rd, rs, rt }, RD_RS_RT, [Register(rd), Register(rs), Register(rt)];
            Sltu { rd, rs, rt }, RD_RS_RT, [Register(rd), Register(rs), Register(rt)];
            Bltz { rs, imm }, RS_BRANCH, [Register(rs), Signed(imm)];
            Bgez { rs, imm }, RS_BRANCH, [Register(rs), Signed(imm)];
            J { index }, JUMP, [Number(index)];
            Jal { index }, JUMP, [Number(index)];
            Beq { rs, rt, imm }, RS_RT_BRANCH, [Register(rs), Register(rt), Signed(imm)];
            Bne { rs, rt, imm }, RS_RT_BRANCH, [Register(rs), Register(rt), Signed(imm)];
            Blez { rs, imm }, RS_BRANCH, [Register(rs), Signed(imm)];
            Bgtz { rs, imm }, RS_BRANCH, [Register(rs), Signed(imm)];
            Addi { rt, rs, imm }, RT_RS_SIGNED, [Register(rt), Register(rs), Signed(imm)];
            Addiu { rt, rs, imm }, RT_RS_SIGNED, [Register(rt), Register(rs), Signed(imm)];
            Slti { rt, rs, imm }, RT_RS_SIGNED, [Register(rt), Register(rs), Signed(imm)];
            Sltiu { rt, rs, imm }, RT_RS_SIGNED, [Register(rt), Register(rs), Signed(imm)];
            Andi { rt, rs, imm }, RT_RS_UNSIGNED, [Register(rt), Register(rs), Number(imm)];
            Ori { rt, rs, imm }, RT_RS_UNSIGNED, [Register(rt), Register(rs), Number(imm)];
            Xori { rt, rs, imm }, RT_RS_UNSIGNED, [Register(rt), Register(rs), Number(imm)];
            Lui { rt, imm }, RT_UNSIGNED, [Register(rt), Number(imm)];
            Mfc0 { rt, special }, RT_SPECIAL, [Register(rt), Special(special)];
            Mtc0 { rt, special }, RT_SPECIAL, [Register(rt), Special(special)];
            Eret, NONE, [];
            Lw { rt, rs, imm }, RT_MEMORY, [Register(rt), Address(imm, rs)];
            Sw { rt, rs, imm }, RT_MEMORY, [Register(rt), Address(imm, rs)];
            Mult { rs, rt }, RS_RT, [Register(rs), Register(rt)];
            Multu { rs, rt }, RS_RT, [Register(rs), Register(rt)];
            Div { rs, rt }, RS_RT, [Register(rs), Register(rt)];
            Divu { rs, rt }, RS_RT, [Register(rs), Register(rt)];
            Mfhi { rd }, RD, [Register(rd)];
            Mthi { rs }, RS, [Register(rs)];
            Mflo { rd }, RD, [Register(rd)];
            Mtlo { rs }, RS, [Register(rs)];
        }
    };
}

pub(crate) use rows;
