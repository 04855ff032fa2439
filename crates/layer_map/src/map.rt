// The map, and the first address of each part.

ghost use Rattle.std.specs.Prelude.{◌≡◌, ◌+◌, ◌*◌, ◌≤◌};
ghost use Rattle.layer_map.specs.Map.{Map as Parts, ParamsInRange, MapInRange, PartsInOrder, PartsBeginPages, MemoryIsWhole, BlocksInOrder, TablesInOrder};
ghost use Rattle.layer_map.specs.Map.{next_page as next_page_of, code_at, globals_at, heap_at, stack_at};
ghost use Rattle.layer_map.specs.Map.{tables_at, frame_table_at, zero_frame_at, user_frames_at, memory_frames as frames_of_memory};

use crate::params::Params;
use crate::places::LAYER_WORDS;
use std::marker::Model;

/// The map of a system's memory. Its parts follow one another, each from the beginning of a page on.
#[derive(Clone, Copy)]
pub struct Map {
    params: Params,
    users: u32,
    code_words: u32,
    global_words: u32,
}

impl Model for Map {
    ghost use Rattle.layer_map.specs.Map.{Map as Parts, MapInRange};

    ghost Value = { Parts };

    ghost view = { λ m. record { params = m.params; users = m.users; code_words = m.code_words; global_words = m.global_words } };

    ghost invariant = { λ m. MapInRange (record { params = m.params; users = m.users; code_words = m.code_words; global_words = m.global_words }) };

    ghost inverse = { λ m. record { params = m.params; users = m.users; code_words = m.code_words; global_words = m.global_words } };
}

// The first multiple of a page's 1,024 words from a word on.
fn next_page(word: u32) -> u32
    requires { word ≤ 30000000 }
    ensures value { result ≡ next_page_of word }
    ensures far { result ≤ word + 1023 }
{
    (word + 1023) / 1024 * 1024
}

impl Map {
    /// The map of a system with `users` users, 0 to 64, whose kernel has `code_words` words of code, at most 4,177,920, and
    /// `global_words` words of globals, at most 262,144.
    pub fn of(params: &Params, users: u32, code_words: u32, global_words: u32) -> Map
        requires params { ParamsInRange params.now }
        requires users { users ≤ 64 }
        requires code { code_words ≤ 4177920 }
        requires globals { global_words ≤ 262144 }
        ensures { result ≡ record { params = params.now; users = users; code_words = code_words; global_words = global_words } }
    {
        Map {
            params: *params,
            users,
            code_words,
            global_words,
        }
    }

    /// The parameters.
    pub fn params(&self) -> Params
        ensures value { result ≡ self.now.params }
        ensures range { ParamsInRange result }
    {
        self.params
    }

    /// The number of users.
    pub fn users(&self) -> u32
        ensures value { result ≡ self.now.users }
        ensures most { result ≤ 64 }
    {
        self.users
    }

    /// The first address of the kernel's code, in bytes, as all addresses here.
    pub fn code(&self) -> u32
        ensures { result ≡ 4 * code_at self.now }
    {
        4 * LAYER_WORDS
    }

    /// The first address of the globals.
    pub fn globals(&self) -> u32
        ensures { result ≡ 4 * globals_at self.now }
    {
        4 * next_page(LAYER_WORDS + self.code_words)
    }

    /// The first address of the heap.
    pub fn heap(&self) -> u32
        ensures { result ≡ 4 * heap_at self.now }
    {
        4 * next_page(self.globals() / 4 + self.global_words)
    }

    /// The first address of the kernel's stack.
    pub fn stack(&self) -> u32
        ensures { result ≡ 4 * stack_at self.now }
    {
        4 * next_page(self.heap() / 4 + self.params.heap)
    }

    /// The first address behind the kernel's stack.
    pub fn stack_limit(&self) -> u32
        ensures { result ≡ 4 * (stack_at self.now + self.now.params.stack) }
    {
        self.stack() + 4 * self.params.stack
    }

    /// The first address of the page tables. They have a word for each page of each user.
    pub fn page_tables(&self) -> u32
        ensures { result ≡ 4 * tables_at self.now }
    {
        4 * next_page(self.stack() / 4 + self.params.stack)
    }

    /// The first address of the frame table. It has eight words for each user frame, and then for the zero frame.
    pub fn frame_table(&self) -> u32
        ensures { result ≡ 4 * frame_table_at self.now }
    {
        4 * next_page(self.page_tables() / 4 + self.users * self.params.pages)
    }

    /// The first address of the zero frame.
    pub fn zero_frame(&self) -> u32
        ensures { result ≡ 4 * zero_frame_at self.now }
    {
        4 * next_page(self.frame_table() / 4 + 8 * (self.params.frames + 1))
    }

    /// The first address of the user frames.
    pub fn user_frames(&self) -> u32
        ensures { result ≡ 4 * user_frames_at self.now }
    {
        let _in_range = &self.params;
        self.zero_frame() + 4096
    }

    /// The number of frames of memory, at most 22,210.
    pub fn memory_frames(&self) -> u32
        ensures value { result ≡ frames_of_memory self.now }
        ensures most { result ≤ 22210 }
    {
        self.user_frames() / 4096 + self.params.frames
    }
}

/// A law: each part ends before the next one begins.
pub fn parts_are_in_order()
    ensures { (m : Parts) → MapInRange m → PartsInOrder m }
{}

/// A law: each part begins a page.
pub fn parts_begin_pages()
    ensures { (m : Parts) → MapInRange m → PartsBeginPages m }
{}

/// A law: memory is whole frames, and ends below 100 MiB, far below the ports.
pub fn memory_is_whole()
    ensures { (m : Parts) → MapInRange m → MemoryIsWhole m }
{}

/// A law: the control blocks lie one after another in the layer's part, behind its variables.
pub fn blocks_are_in_order()
    ensures { BlocksInOrder }
{}

/// A law: the users' page tables lie one after another in the page tables.
pub fn tables_are_in_order()
    ensures { (m : Parts) → MapInRange m → TablesInOrder m }
{}
