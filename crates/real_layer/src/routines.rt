// The routines behind the layer's entries, with the entries.
ghost use Rattle.std.specs.Prelude.{◌≡◌, List, [], ◌∷◌, ◌++◌, map as each, IfOk, OnOk};
ghost use Rattle.mips_table.specs.declared.inst.Inst.{Inst as Instruction};
ghost use Rattle.mips_table.specs.Encoding.{encoding};
ghost use Rattle.page_model.specs.TableLayout.{table_layout};
ghost use Rattle.page_fault.specs.Code.{handle_page_code};
ghost use Rattle.trap_entry.specs.Code.{act_on_answer_code};
ghost use Rattle.cvm_model.specs.declared.kernel_fault.KernelFault.TheVariants.{NullUse, Bounds, DivZero, StackOut};
ghost use Rattle.cvm_primitives.specs.RegisterCode.{con_put_code, con_get_code, con_left_code};
ghost use Rattle.cvm_primitives.specs.Code.{vm_word_code, vm_put_code, vm_copy_code, vm_resize_code};
ghost use Rattle.real_layer.specs.Image.{returning, fault_exit, entries, code_joined, routines};
ghost use Rattle.real_layer.specs.Laid.{Lays, memory_routines, register_routines};

use cvm_model::KernelFault;
use cvm_primitives::{
    con_get, con_left, con_put, vm_copy, vm_get, vm_put, vm_resize, vm_set, vm_size, vm_word,
};
use layer_map::{LEAVE, Map};
use masm::instruction;
use masm::registers::RETURN;
use mips_table::encode;
use std::alloc::{AllocError, Global};
use trap_entry::{act_on_answer, exit_with};

/// The word behind the last entry: the routines stand from there on.
pub const ENTRIES_END: u32 = LEAVE / 4 + 1;

/// Routines one after another, and the jumps to them.
#[derive(Drop)]
pub struct Routines {
    pub entries: Vec<u32>,
    pub words: Vec<u32>,
}

impl Routines {
    // Appends a routine.
    fn put(&mut self, words: &[u32]) -> Result<(), AllocError>
        ensures { (is : List Instruction) → words.now ≡ each encoding is → OnOk result (Lays self.old self.new (is ∷ [])) }
    {
        let word = ENTRIES_END as usize + self.words.len();
        let index = (word % 0x400_0000) as u32; // a jump names its target by 26 bits
        self.entries.push(encode(&instruction!(j index)))?;
        self.words.extend_from_slice(words)
    }

    // Appends a routine that returns.
    fn put_returning(&mut self, words: &[u32]) -> Result<(), AllocError>
        ensures { (is : List Instruction) → words.now ≡ each encoding is → OnOk result (Lays self.old self.new (returning is ∷ [])) }
    {
        self.put(words)?;
        self.words.push(encode(&instruction!(jr RETURN)))?;
        Ok(())
    }

    // Appends the primitives that use no page and not the console.
    fn put_registers(&mut self, map: &Map) -> Result<(), AllocError>
        ensures { OnOk result (Lays self.old self.new (register_routines map.now.users)) }
    {
        self.put_returning(vm_get(map).words())?;
        self.put_returning(vm_set(map).words())?;
        self.put_returning(vm_size(map).words())
    }

    // Appends the primitives on memory.
    fn put_memory(&mut self, map: &Map) -> Result<(), AllocError>
        ensures { OnOk result (Lays self.old self.new (memory_routines map.now)) }
    {
        self.put_returning(vm_resize(map).words())?;
        self.put_returning(vm_word(map).words())?;
        self.put_returning(vm_put(map).words())?;
        self.put_returning(vm_copy(map).words())
    }

    // Appends the primitives on the console.
    fn put_console(&mut self) -> Result<(), AllocError>
        ensures { OnOk result (Lays self.old self.new (returning con_put_code ∷ returning con_get_code ∷ returning con_left_code ∷ [])) }
    {
        self.put_returning(con_put().words())?;
        self.put_returning(con_get().words())?;
        self.put_returning(con_left().words())
    }

    // Appends the exits of the four faults.
    fn put_exits(&mut self) -> Result<(), AllocError>
        ensures { OnOk result (Lays self.old self.new (fault_exit NullUse ∷ fault_exit Bounds ∷ fault_exit DivZero ∷ fault_exit StackOut ∷ [])) }
    {
        self.put(exit_with(KernelFault::NullUse.power()).words())?;
        self.put(exit_with(KernelFault::Bounds.power()).words())?;
        self.put(exit_with(KernelFault::DivZero.power()).words())?;
        self.put(exit_with(KernelFault::StackOut.power()).words())
    }
}

/// The routines of a layer for a map, and its entries.
pub fn lay_routines(alloc: Global, map: &Map) -> Result<Routines, AllocError>
    ensures entries { IfOk result (λ r. r.entries.items ≡ each encoding (entries map.now)) }
    ensures words { IfOk result (λ r. r.words.items ≡ each encoding (code_joined (routines map.now))) }
{
    let mut laid = Routines {
        entries: Vec::new(alloc),
        words: Vec::new(alloc),
    };
    laid.put_registers(map)?;
    laid.put_memory(map)?;
    laid.put_console()?;
    laid.put_exits()?;
    laid.put(act_on_answer(map).words())?;
    Ok(laid)
}
