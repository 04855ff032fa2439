// The world of a kernel's primitives.

ghost use Rattle.cvm_model.specs.Kernel.{Changes};
ghost use Rattle.cvm_model.specs.KernelMeaning.{Machines, kernel_primitive};

use c0_meaning::world::World;

/// The world of a kernel's primitives: the users' machines and the console, and as its journal what each call changed.
#[derive(Clone, Copy)]
pub struct KernelWorld;

impl World for KernelWorld {
    ghost Standing = { Machines };

    ghost Entry = { Changes };

    ghost meaning = { kernel_primitive };
}
