//! Causes of interrupts that the layer's code tells apart, by their numbers.

ghost use Rattle.std.specs.Prelude.{◌≡◌};
ghost use Rattle.mips_table.specs.declared.cause.Cause.TheVariants.{FetchFault, DataFault};
ghost use Rattle.mips_table.specs.Machine.{cause_number};

/// Translation refuses the pc.
pub const FETCH_FAULT: u32 = 3;

/// Translation refuses the address of a load or a store.
pub const DATA_FAULT: u32 = 8;

/// A law: the constants are the numbers of these causes.
pub fn causes_are_numbers()
    ensures fetch { FETCH_FAULT ≡ cause_number FetchFault }
    ensures data { DATA_FAULT ≡ cause_number DataFault }
{}
