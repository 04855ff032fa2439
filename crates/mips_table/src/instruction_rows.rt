// What is said of each instruction, on one line in each of three lists: its row, its place and its effect. Each list is a
// macro that hands its lines to another macro, which makes the arms of a function or the rows of a table.

// The rows of the instruction table: the instruction, its mnemonic, the mask and the value that its words have under it,
// and its word by its fields.
macro_rules! rows {
    ($make:ident $(, $input:expr)?) => {
        $make! {
            $($input,)?
            Inst::Sll { rd, rt, sa }, "sll", 0xffe0_003f, 0x0000_0000, register_word(0, 0, rt, rd, sa, 0x00);
            Inst::Srl { rd, rt, sa }, "srl", 0xffe0_003f, 0x0000_0002, register_word(0, 0, rt, rd, sa, 0x02);
            Inst::Sra { rd, rt, sa }, "sra", 0xffe0_003f, 0x0000_0003, register_word(0, 0, rt, rd, sa, 0x03);
            Inst::Sllv { rd, rt, rs }, "sllv", 0xfc00_07ff, 0x0000_0004, register_word(0, rs, rt, rd, 0, 0x04);
            Inst::Srlv { rd, rt, rs }, "srlv", 0xfc00_07ff, 0x0000_0006, register_word(0, rs, rt, rd, 0, 0x06);
            Inst::Srav { rd, rt, rs }, "srav", 0xfc00_07ff, 0x0000_0007, register_word(0, rs, rt, rd, 0, 0x07);
            Inst::Jr { rs }, "jr", 0xfc1f_ffff, 0x0000_0008, register_word(0, rs, 0, 0, 0, 0x08);
            Inst::Jalr { rd, rs }, "jalr", 0xfc1f_07ff, 0x0000_0009, register_word(0, rs, 0, rd, 0, 0x09);
            Inst::Syscall { code }, "syscall", 0xfc00_003f, 0x0000_000c, coded_word(code, 0x0c);
            Inst::Add { rd, rs, rt }, "add", 0xfc00_07ff, 0x0000_0020, register_word(0, rs, rt, rd, 0, 0x20);
            Inst::Addu { rd, rs, rt }, "addu", 0xfc00_07ff, 0x0000_0021, register_word(0, rs, rt, rd, 0, 0x21);
            Inst::Sub { rd, rs, rt }, "sub", 0xfc00_07ff, 0x0000_0022, register_word(0, rs, rt, rd, 0, 0x22);
            Inst::Subu { rd, rs, rt }, "subu", 0xfc00_07ff, 0x0000_0023, register_word(0, rs, rt, rd, 0, 0x23);
            Inst::And { rd, rs, rt }, "and", 0xfc00_07ff, 0x0000_0024, register_word(0, rs, rt, rd, 0, 0x24);
            Inst::Or { rd, rs, rt }, "or", 0xfc00_07ff, 0x0000_0025, register_word(0, rs, rt, rd, 0, 0x25);
            Inst::Xor { rd, rs, rt }, "xor", 0xfc00_07ff, 0x0000_0026, register_word(0, rs, rt, rd, 0, 0x26);
            Inst::Nor { rd, rs, rt }, "nor", 0xfc00_07ff, 0x0000_0027, register_word(0, rs, rt, rd, 0, 0x27);
            Inst::Slt { rd, rs, rt }, "slt", 0xfc00_07ff, 0x0000_002a, register_word(0, rs, rt, rd, 0, 0x2a);
            Inst::Sltu { rd, rs, rt }, "sltu", 0xfc00_07ff, 0x0000_002b, register_word(0, rs, rt, rd, 0, 0x2b);
            Inst::Bltz { rs, imm }, "bltz", 0xfc1f_0000, 0x0400_0000, immediate_word(1, rs, 0, imm);
            Inst::Bgez { rs, imm }, "bgez", 0xfc1f_0000, 0x0401_0000, immediate_word(1, rs, 1, imm);
            Inst::J { index }, "j", 0xfc00_0000, 0x0800_0000, jump_word(2, index);
            Inst::Jal { index }, "jal", 0xfc00_0000, 0x0c00_0000, jump_word(3, index);
            Inst::Beq { rs, rt, imm }, "beq", 0xfc00_0000, 0x1000_0000, immediate_word(4, rs, rt, imm);
            Inst::Bne { rs, rt, imm }, "bne", 0xfc00_0000, 0x1400_0000, immediate_word(5, rs, rt, imm);
            Inst::Blez { rs, imm }, "blez", 0xfc1f_0000, 0x1800_0000, immediate_word(6, rs, 0, imm);
            Inst::Bgtz { rs, imm }, "bgtz", 0xfc1f_0000, 0x1c00_0000, immediate_word(7, rs, 0, imm);
            Inst::Addi { rt, rs, imm }, "addi", 0xfc00_0000, 0x2000_0000, immediate_word(8, rs, rt, imm);
            Inst::Addiu { rt, rs, imm }, "addiu", 0xfc00_0000, 0x2400_0000, immediate_word(9, rs, rt, imm);
            Inst::Slti { rt, rs, imm }, "slti", 0xfc00_0000, 0x2800_0000, immediate_word(10, rs, rt, imm);
            Inst::Sltiu { rt, rs, imm }, "sltiu", 0xfc00_0000, 0x2c00_0000, immediate_word(11, rs, rt, imm);
            Inst::Andi { rt, rs, imm }, "andi", 0xfc00_0000, 0x3000_0000, immediate_word(12, rs, rt, imm);
            Inst::Ori { rt, rs, imm }, "ori", 0xfc00_0000, 0x3400_0000, immediate_word(13, rs, rt, imm);
            Inst::Xori { rt, rs, imm }, "xori", 0xfc00_0000, 0x3800_0000, immediate_word(14, rs, rt, imm);
            Inst::Lui { rt, imm }, "lui", 0xffe0_0000, 0x3c00_0000, immediate_word(15, 0, rt, imm);
            Inst::Mfc0 { rt, special }, "mfc0", 0xffe0_07ff, 0x4000_0000, register_word(16, 0, rt, special, 0, 0x00);
            Inst::Mtc0 { rt, special }, "mtc0", 0xffe0_07ff, 0x4080_0000, register_word(16, 4, rt, special, 0, 0x00);
            Inst::Eret, "eret", 0xffff_ffff, 0x4200_0018, register_word(16, 16, 0, 0, 0, 0x18);
            Inst::Lw { rt, rs, imm }, "lw", 0xfc00_0000, 0x8c00_0000, immediate_word(35, rs, rt, imm);
            Inst::Sw { rt, rs, imm }, "sw", 0xfc00_0000, 0xac00_0000, immediate_word(43, rs, rt, imm);
            Inst::Mult { rs, rt }, "mult", 0xfc00_ffff, 0x0000_0018, register_word(0, rs, rt, 0, 0, 0x18);
            Inst::Multu { rs, rt }, "multu", 0xfc00_ffff, 0x0000_0019, register_word(0, rs, rt, 0, 0, 0x19);
            Inst::Div { rs, rt }, "div", 0xfc00_ffff, 0x0000_001a, register_word(0, rs, rt, 0, 0, 0x1a);
            Inst::Divu { rs, rt }, "divu", 0xfc00_ffff, 0x0000_001b, register_word(0, rs, rt, 0, 0, 0x1b);
            Inst::Mfhi { rd }, "mfhi", 0xffff_07ff, 0x0000_0010, register_word(0, 0, 0, rd, 0, 0x10);
            Inst::Mthi { rs }, "mthi", 0xfc1f_ffff, 0x0000_0011, register_word(0, rs, 0, 0, 0, 0x11);
            Inst::Mflo { rd }, "mflo", 0xffff_07ff, 0x0000_0012, register_word(0, 0, 0, rd, 0, 0x12);
            Inst::Mtlo { rs }, "mtlo", 0xfc1f_ffff, 0x0000_0013, register_word(0, rs, 0, 0, 0, 0x13);
        }
    };
}

// Where each instruction is told from the others: by a value of one field of its word, and a test that the fields it
// doesn't use are 0. There are four places, and each instruction stands in one of them, on a line of its own. `places!`
// hands the lines of a place to another macro, after its input, the fields and the field that tells.
macro_rules! places {
    // Opcode 0: the function number.
    (funct, $make:ident, $($input:tt)*) => {
        $make! {
            ($($input)*) Fields { rs, rt, rd, sa, funct, code, .. }, funct;
            0x00 if rs == 0 => Inst::Sll { rd, rt, sa };
            0x02 if rs == 0 => Inst::Srl { rd, rt, sa };
            0x03 if rs == 0 => Inst::Sra { rd, rt, sa };
            0x04 if sa == 0 => Inst::Sllv { rd, rt, rs };
            0x06 if sa == 0 => Inst::Srlv { rd, rt, rs };
            0x07 if sa == 0 => Inst::Srav { rd, rt, rs };
            0x08 if rt == 0 && rd == 0 && sa == 0 => Inst::Jr { rs };
            0x09 if rt == 0 && sa == 0 => Inst::Jalr { rd, rs };
            0x0c => Inst::Syscall { code };
            0x10 if rs == 0 && rt == 0 && sa == 0 => Inst::Mfhi { rd };
            0x11 if rt == 0 && rd == 0 && sa == 0 => Inst::Mthi { rs };
            0x12 if rs == 0 && rt == 0 && sa == 0 => Inst::Mflo { rd };
            0x13 if rt == 0 && rd == 0 && sa == 0 => Inst::Mtlo { rs };
            0x18 if rd == 0 && sa == 0 => Inst::Mult { rs, rt };
            0x19 if rd == 0 && sa == 0 => Inst::Multu { rs, rt };
            0x1a if rd == 0 && sa == 0 => Inst::Div { rs, rt };
            0x1b if rd == 0 && sa == 0 => Inst::Divu { rs, rt };
            0x20 if sa == 0 => Inst::Add { rd, rs, rt };
            0x21 if sa == 0 => Inst::Addu { rd, rs, rt };
            0x22 if sa == 0 => Inst::Sub { rd, rs, rt };
            0x23 if sa == 0 => Inst::Subu { rd, rs, rt };
            0x24 if sa == 0 => Inst::And { rd, rs, rt };
            0x25 if sa == 0 => Inst::Or { rd, rs, rt };
            0x26 if sa == 0 => Inst::Xor { rd, rs, rt };
            0x27 if sa == 0 => Inst::Nor { rd, rs, rt };
            0x2a if sa == 0 => Inst::Slt { rd, rs, rt };
            0x2b if sa == 0 => Inst::Sltu { rd, rs, rt };
        }
    };
    // Opcode 1: the number in the place of a register.
    (sign, $make:ident, $($input:tt)*) => {
        $make! {
            ($($input)*) Fields { rs, rt, imm, .. }, rt;
            0 => Inst::Bltz { rs, imm };
            1 => Inst::Bgez { rs, imm };
        }
    };
    // Opcode 10, hexadecimal: the number in the place of another register.
    (system, $make:ident, $($input:tt)*) => {
        $make! {
            ($($input)*) Fields { rs, rt, rd, sa, funct, .. }, rs;
            0 if sa == 0 && funct == 0 && rd <= 8 => Inst::Mfc0 { rt, special: rd };
            4 if sa == 0 && funct == 0 && rd <= 8 => Inst::Mtc0 { rt, special: rd };
            16 if rt == 0 && rd == 0 && sa == 0 && funct == 0x18 => Inst::Eret;
        }
    };
    // All others: the opcode.
    (opcode, $make:ident, $($input:tt)*) => {
        $make! {
            ($($input)*) Fields { opcode, rs, rt, imm, index, .. }, opcode;
            0x02 => Inst::J { index };
            0x03 => Inst::Jal { index };
            0x04 => Inst::Beq { rs, rt, imm };
            0x05 => Inst::Bne { rs, rt, imm };
            0x06 if rt == 0 => Inst::Blez { rs, imm };
            0x07 if rt == 0 => Inst::Bgtz { rs, imm };
            0x08 => Inst::Addi { rt, rs, imm };
            0x09 => Inst::Addiu { rt, rs, imm };
            0x0a => Inst::Slti { rt, rs, imm };
            0x0b => Inst::Sltiu { rt, rs, imm };
            0x0c => Inst::Andi { rt, rs, imm };
            0x0d => Inst::Ori { rt, rs, imm };
            0x0e => Inst::Xori { rt, rs, imm };
            0x0f if rs == 0 => Inst::Lui { rt, imm };
            0x23 => Inst::Lw { rt, rs, imm };
            0x2b => Inst::Sw { rt, rs, imm };
        }
    };
}

// What each instruction does: its effect at a pc, by the registers, hi and lo. `effects!` hands its lines to another
// macro, after the instruction.
macro_rules! effects {
    ($make:ident, $inst:expr, $pc:ident, $regs:ident, $hi:ident, $lo:ident) => {
        $make! {
            $inst,
            Inst::Sll { rd, rt, sa }, set(rd, shifted_left(read($regs, rt), sa), $pc);
            Inst::Srl { rd, rt, sa }, set(rd, shifted_right(read($regs, rt), sa), $pc);
            Inst::Sra { rd, rt, sa }, set(rd, shifted_signed(read($regs, rt), sa), $pc);
            Inst::Sllv { rd, rt, rs }, set(rd, shifted_left(read($regs, rt), amount($regs, rs)), $pc);
            Inst::Srlv { rd, rt, rs }, set(rd, shifted_right(read($regs, rt), amount($regs, rs)), $pc);
            Inst::Srav { rd, rt, rs }, set(rd, shifted_signed(read($regs, rt), amount($regs, rs)), $pc);
            Inst::Jr { rs }, goes(read($regs, rs));
            Inst::Jalr { rd, rs }, link(rd, read($regs, rs), $pc);
            Inst::Syscall { .. }, Effect::Call;
            Inst::Add { rd, rs, rt }, set_sum(rd, read($regs, rs), read($regs, rt), $pc);
            Inst::Addu { rd, rs, rt }, set(rd, sum(read($regs, rs), read($regs, rt)), $pc);
            Inst::Sub { rd, rs, rt }, set_difference(rd, read($regs, rs), read($regs, rt), $pc);
            Inst::Subu { rd, rs, rt }, set(rd, difference(read($regs, rs), read($regs, rt)), $pc);
            Inst::And { rd, rs, rt }, set(rd, read($regs, rs) & read($regs, rt), $pc);
            Inst::Or { rd, rs, rt }, set(rd, read($regs, rs) | read($regs, rt), $pc);
            Inst::Xor { rd, rs, rt }, set(rd, read($regs, rs) ^ read($regs, rt), $pc);
            Inst::Nor { rd, rs, rt }, set(rd, nor(read($regs, rs), read($regs, rt)), $pc);
            Inst::Slt { rd, rs, rt }, set(rd, flag(less(read($regs, rs), read($regs, rt))), $pc);
            Inst::Sltu { rd, rs, rt }, set(rd, flag(read($regs, rs) < read($regs, rt)), $pc);
            Inst::Bltz { rs, imm }, goes(branch($pc, imm, is_negative(read($regs, rs))));
            Inst::Bgez { rs, imm }, goes(branch($pc, imm, !is_negative(read($regs, rs))));
            Inst::J { index }, goes(jump($pc, index));
            Inst::Jal { index }, link(31, jump($pc, index), $pc);
            Inst::Beq { rs, rt, imm }, goes(branch($pc, imm, read($regs, rs) == read($regs, rt)));
            Inst::Bne { rs, rt, imm }, goes(branch($pc, imm, read($regs, rs) != read($regs, rt)));
            Inst::Blez { rs, imm }, goes(branch($pc, imm, !is_positive(read($regs, rs))));
            Inst::Bgtz { rs, imm }, goes(branch($pc, imm, is_positive(read($regs, rs))));
            Inst::Addi { rt, rs, imm }, set_sum(rt, read($regs, rs), extended(imm), $pc);
            Inst::Addiu { rt, rs, imm }, set(rt, sum(read($regs, rs), extended(imm)), $pc);
            Inst::Slti { rt, rs, imm }, set(rt, flag(less(read($regs, rs), extended(imm))), $pc);
            Inst::Sltiu { rt, rs, imm }, set(rt, flag(read($regs, rs) < extended(imm)), $pc);
            Inst::Andi { rt, rs, imm }, set(rt, read($regs, rs) & imm, $pc);
            Inst::Ori { rt, rs, imm }, set(rt, read($regs, rs) | imm, $pc);
            Inst::Xori { rt, rs, imm }, set(rt, read($regs, rs) ^ imm, $pc);
            Inst::Lui { rt, imm }, set(rt, imm << 16, $pc);
            Inst::Mfc0 { .. }, Effect::System;
            Inst::Mtc0 { .. }, Effect::System;
            Inst::Eret, Effect::System;
            Inst::Lw { rt, rs, imm }, load(rt, sum(read($regs, rs), extended(imm)));
            Inst::Sw { rt, rs, imm }, store(sum(read($regs, rs), extended(imm)), read($regs, rt));
            Inst::Mult { rs, rt }, set_halves(signed_product(read($regs, rs), read($regs, rt)), $pc);
            Inst::Multu { rs, rt }, set_halves(u64::from(read($regs, rs)) * u64::from(read($regs, rt)), $pc);
            Inst::Div { rs, rt }, divide(read($regs, rs), read($regs, rt), $pc, $hi, $lo);
            Inst::Divu { rs, rt }, divide_unsigned(read($regs, rs), read($regs, rt), $pc, $hi, $lo);
            Inst::Mfhi { rd }, set(rd, $hi, $pc);
            Inst::Mthi { rs }, set_wide(read($regs, rs), $lo, $pc);
            Inst::Mflo { rd }, set(rd, $lo, $pc);
            Inst::Mtlo { rs }, set_wide($hi, read($regs, rs), $pc);
        }
    };
}

pub(crate) use effects;
pub(crate) use places;
pub(crate) use rows;
