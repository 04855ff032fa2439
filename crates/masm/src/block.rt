// Blocks of machine code.
ghost use Rattle.std.specs.Prelude.{◌≡◌, ℕ, ◌+◌, ◌<◌, ◌≤◌, List, [], ◌∷◌, ◌++◌, length};
ghost use Rattle.mips_table.specs.Encoding.{InRange, encoding};
ghost use Rattle.masm.specs.Blocks.{when_words, loop_words};

use arrayvec::ArrayVec;
use mips_table::{Inst, encode};
use std::marker::Model;

/// Machine code of at most `CAP` words, and `CAP` is at most 16,384, so that each branch inside a block reaches.
/// Contracts see a block as the list of its words.
#[derive(Drop)]
pub struct Block<const CAP: usize> {
    words: ArrayVec<u32, CAP>,
}

/// Machine code of at most 512 words.
pub type Code = Block<512>;

impl<const CAP: usize> Model for Block<CAP> {
    ghost use Rattle.std.specs.Prelude.{List, ℕ, ◌≤◌, length};

    ghost Value = { List ℕ };

    ghost view = { λ b. b.words.items };

    ghost invariant = { λ b. (CAP ≤ 16384) × (length b.words.items ≤ CAP) };
}

impl<const CAP: usize> Block<CAP> {
    /// A block of no words.
    pub fn new() -> Block<CAP>
        requires { CAP ≤ 16384 }
        ensures { result ≡ [] }
    {
        Block {
            words: ArrayVec::new(),
        }
    }

    /// The number of words.
    pub fn len(&self) -> usize
        ensures value { result ≡ length self.now }
        ensures fits { result ≤ CAP }
        ensures bound { CAP ≤ 16384 }
    {
        self.words.len()
    }

    /// The words.
    pub fn words(&self) -> &[u32]
        ensures { result.now ≡ self.now }
    {
        self.words.as_slice()
    }

    /// Appends an instruction.
    pub fn push(&mut self, inst: Inst)
        requires room { length self.old < CAP }
        requires range { InRange inst }
        ensures { self.new ≡ self.old ++ encoding inst ∷ [] }
    {
        self.words.push(encode(&inst));
    }

    /// Appends the words of another block, which is run next.
    pub fn then<const B: usize>(&mut self, next: &Block<B>)
        requires room { length self.old + length next.now ≤ CAP }
        ensures { self.new ≡ self.old ++ next.now }
    {
        let _ = self.words.try_extend_from_slice(next.words());
    }

    /// Appends a body that is run where register `reg` (1 to 31) isn't 0.
    pub fn when<const B: usize>(&mut self, reg: u32, body: &Block<B>)
        requires room { length self.old + length body.now + 1 ≤ CAP }
        requires register { (1 ≤ reg) × (reg ≤ 31) }
        ensures { self.new ≡ self.old ++ when_words reg body.now }
    {
        self.push(Inst::Beq {
            rs: reg,
            rt: 0,
            imm: body.len() as u32,
        });
        self.then(body);
    }

    /// Appends a loop: the test is run, and then, as long as register `reg` (1 to 31) isn't 0, the body and the test.
    pub fn loop_while<const A: usize, const B: usize>(
        &mut self,
        test: &Block<A>,
        reg: u32,
        body: &Block<B>,
    )
        requires room { length self.old + length test.now + length body.now + 2 ≤ CAP }
        requires register { (1 ≤ reg) × (reg ≤ 31) }
        ensures { self.new ≡ self.old ++ loop_words test.now reg body.now }
    {
        let inside = (test.len() + body.len()) as u32;
        self.then(test);
        self.push(Inst::Beq {
            rs: reg,
            rt: 0,
            imm: body.len() as u32 + 1,
        });
        self.then(body);
        self.push(Inst::Beq {
            rs: 0,
            rt: 0,
            imm: 65536 - (inside + 2),
        });
    }
}
