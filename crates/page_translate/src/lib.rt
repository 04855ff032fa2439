//! Address translation by a page table of one level, as it is done in user mode.
//!
//! A page has 4,096 bytes. The page table has an entry, one word, for each page.
//! Bit 11 of an entry says that it is valid, bit 10 that the page is protected
//! from stores, and bits 31 to 12 are those of the page's physical address.
//!
//! Source: Paul, Baumann, Lutsyk, Schmaltz, "System Architecture", for
//! translation by one page table; the bits' numbers are this project's own.
#![tactic(auto)]

ghost use Rattle.std.specs.Prelude.{◌≡◌, ◌+◌, ◌*◌, ◌/◌, ◌%◌, IfSome};
ghost use Rattle.mips_table.specs.Machine.{pte_address as address_of_entry, translated, is_valid as is_valid_entry, is_protected as is_protected_entry};

use mips_table::{IS_PROTECTED, IS_VALID};

/// The size of a page, in bytes.
pub const PAGE_BYTES: u32 = 4096;

/// The address of the page table's entry for the page of `address`, where the
/// table stands at the physical address `pto`. Sums are modulo 2^32. The entry
/// is the word there, once the low two bits are dropped.
pub fn entry_address(address: u32, pto: u32) -> u32
    ensures { result ≡ address_of_entry address pto }
{
    pto.wrapping_add(4 * (address / PAGE_BYTES))
}

/// The physical address that stands for `address`, by the `entry` that stands
/// at `entry_address(address, pto)`, in a table of `ptl` pages; `store` says
/// whether the access is a store.
///
/// None where the page's number isn't below `ptl`, where the entry isn't valid,
/// and where a store meets a protected page.
pub fn translate(address: u32, pto: u32, ptl: u32, store: bool, entry: u32) -> Option<u32>
    ensures value { result ≡ translated address ptl store entry }
    ensures place { IfSome result (λ physical. physical % 4096 ≡ address % 4096) }
{
    let _ = pto;
    if address / PAGE_BYTES < ptl && is_valid(entry) && !(store && is_protected(entry)) {
        Some(physical(address, entry))
    } else {
        None
    }
}

// Whether an entry is valid.
fn is_valid(entry: u32) -> bool
    ensures { result ≡ is_valid_entry entry }
{
    entry / IS_VALID % 2 == 1
}

// Whether an entry's page is protected from stores.
fn is_protected(entry: u32) -> bool
    ensures { result ≡ is_protected_entry entry }
{
    entry / IS_PROTECTED % 2 == 1
}

// The page's physical address, with the place in the page.
fn physical(address: u32, entry: u32) -> u32
    ensures value { result ≡ entry / 4096 * 4096 + address % 4096 }
    ensures place { result % 4096 ≡ address % 4096 }
{
    entry / PAGE_BYTES * PAGE_BYTES + address % PAGE_BYTES
}
