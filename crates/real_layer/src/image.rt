// The layer's words for a map and for users of some sizes.
ghost use Rattle.std.specs.Prelude.{◌≡◌, List, [], ◌∷◌, ◌++◌, map as each, replicate, IfOk, OnOk};
ghost use Rattle.mips_table.specs.declared.inst.Inst.{Inst as Instruction};
ghost use Rattle.mips_table.specs.Encoding.{encoding};
ghost use Rattle.real_layer.specs.Image.{interrupt_code, zero_padded, layer_variables, block_words, blocks, second_code, layer_image};

use crate::routines::lay_routines;
use layer_map::{BLOCK_SIZE, BLOCK_WORDS, CURRENT, LAYER_WORDS, Map, PRIMITIVES, VARIABLES_END};
use masm::Code;
use masm::addresses::BLOCKS;
use std::alloc::{AllocError, Global};
use trap_entry::handle_interrupts;

/// The words of the image before the variables: the handler's.
const HANDLER_WORDS: u32 = CURRENT / 4;

/// The words of the variables, which follow.
const VARIABLE_WORDS: u32 = (VARIABLES_END - CURRENT) / 4;

/// The words of the entries and the routines, which follow these.
const ROUTINE_WORDS: u32 = (BLOCKS - PRIMITIVES) / 4;

/// The words of all control blocks, which are the last.
const ALL_BLOCKS_WORDS: u32 = LAYER_WORDS - BLOCKS / 4;

// Appends so many zeros.
fn put_zeros(words: &mut Vec<u32>, count: usize) -> Result<(), AllocError>
    ensures { OnOk result (words.new.items ≡ words.old.items ++ replicate count 0) }
{
    for done in 0..count {
        words.push(0)?;
    }
    Ok(())
}

// Appends a part, and zeros behind it, so many words in all.
fn put_filled(words: &mut Vec<u32>, count: usize, part: &[u32]) -> Result<(), AllocError>
    ensures { OnOk result (words.new.items ≡ words.old.items ++ zero_padded count part.now) }
{
    words.extend_from_slice(part)?;
    put_zeros(words, count.saturating_sub(part.len()))
}

// Appends the control block of a user of so many pages: BLOCK_WORDS words, of which one holds them.
fn put_block(words: &mut Vec<u32>, pages: u32) -> Result<(), AllocError>
    ensures { OnOk result (words.new.items ≡ words.old.items ++ block_words pages) }
{
    put_zeros(words, BLOCK_SIZE as usize)?;
    words.push(pages)?;
    put_zeros(words, (BLOCK_WORDS - 1 - BLOCK_SIZE) as usize)
}

// The control blocks of users of these sizes.
fn control_blocks(alloc: Global, sizes: &[u32]) -> Result<Vec<u32>, AllocError>
    ensures { IfOk result (λ v. v.items ≡ blocks sizes.now) }
{
    let mut words = Vec::new(alloc);
    for pages in sizes {
        put_block(&mut words, *pages)?;
    }
    Ok(words)
}

// The layer's variables from the current user on, as they are at load. The further ones are 0 then.
fn first_variables(map: &Map) -> [u32; 7]
    ensures { result ≡ layer_variables map.now }
{
    let params = map.params();
    [
        0,
        0,
        0,
        params.heap,
        map.heap(),
        map.stack(),
        map.stack_limit(),
    ]
}

// The handler of interrupts.
fn interrupts(map: &Map) -> Code
    ensures { result ≡ each encoding (interrupt_code map.now) }
{
    handle_interrupts(map)
}

// The entries, and the routines behind them.
fn second_part(alloc: Global, map: &Map) -> Result<Vec<u32>, AllocError>
    ensures { IfOk result (λ v. v.items ≡ each encoding (second_code map.now)) }
{
    let laid = lay_routines(alloc, map)?;
    let mut words = laid.entries;
    words.extend_from_slice(&laid.words)?;
    Ok(words)
}

/// The 16,384 words of the layer for a map, and for as many users as it has, of these sizes in pages. The one error is want of memory.
pub fn layer_words(alloc: Global, map: &Map, sizes: &[u32]) -> Result<Vec<u32>, AllocError>
    ensures { IfOk result (λ v. v.items ≡ layer_image map.now sizes.now) }
{
    let mut words = Vec::new(alloc);
    put_filled(&mut words, HANDLER_WORDS as usize, interrupts(map).words())?;
    put_filled(&mut words, VARIABLE_WORDS as usize, &first_variables(map))?;
    put_filled(
        &mut words,
        ROUTINE_WORDS as usize,
        &second_part(alloc, map)?,
    )?;
    put_filled(
        &mut words,
        ALL_BLOCKS_WORDS as usize,
        &control_blocks(alloc, sizes)?,
    )?;
    Ok(words)
}
