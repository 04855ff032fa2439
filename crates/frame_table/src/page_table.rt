// Where the page tables are: the entry of a page.
ghost use Rattle.std.specs.Prelude.{◌≡◌, map as each};
ghost use Rattle.mips_table.specs.Encoding.{encoding};
ghost use Rattle.page_model.specs.TableLayout.{table_layout};
ghost use Rattle.frame_table.specs.Code.{walk_page_table_code};

use layer_map::Map;
use masm::roles::{ENTRY, FRAME, PAGE, T0, VALID};
use masm::{Code, block, code, load_immediate};
use mips_table::{Inst, VALID_BIT};

/// The entry's address, by that of the page tables in ENTRY, and its frame and valid bit.
const ENTRY_OF_PAGE: [Inst; 7] = code! {
    sll T0, PAGE, 2;                // an entry has four bytes
    addu ENTRY, ENTRY, T0;
    lw T0, 0(ENTRY);
    srl FRAME, T0, 12;              // the frame's number stands in bits 31 to 12
    srl VALID, T0, VALID_BIT;       // the valid bit comes to bit 0
    sll VALID, VALID, 31;           // and by two shifts all above it goes
    srl VALID, VALID, 31;
};

/// Code that finds the entry of the page in PAGE: ENTRY becomes its address, FRAME the frame in it, VALID its valid bit; T0 changes.
pub fn walk_page_table(map: &Map) -> Code
    ensures { result ≡ each encoding (walk_page_table_code (table_layout map.now)) }
{
    block! {
        then load_immediate(ENTRY, map.page_tables());
        code ENTRY_OF_PAGE;
    }
}
