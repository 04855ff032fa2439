// Tries the sources of files of cases, and prints what the crates of C0 answer to each. `case_file` says how a case is written; its kind
// says what is printed:
//
// - `tokens`, `last`: the tokens of the source, or the last one alone;
// - `tree`, `parts`: its tree as a text with brackets, or the place and the text of each part of it;
// - `check`: whether it is typed; `kernel`: whether it is with a `dispatch` behind it;
// - `user`: whether it is typed as a user program; `users`: whether it is with a `main` behind it;
// - `names`, `sizes`: its tree with what each name stands for, or the words of each function's frame; `user-names`: the tree of a user program;
// - `offsets`: where its globals, each function's parameters and locals, and each struct's fields begin, in words;
// - `structs`: the words of its structs, up to 1,048,577, and whether they hold themselves, typed or not;
// - `bound`, `count`: what `check` prints of a kernel beside 64 words of stack, or its first row and how many names the second has;
// - `asm`: the words of an asm text, and its first line that is not allowed.
//
// A source that is refused is answered by the refusal of docs/C0.md in place of that.
#![tactic(auto)]

mod answers;
mod bounds;
mod faults;
mod offsets;
mod structs;
mod tokens;
mod tree_spans;
mod tree_text;

use case_file::{Case, cases};
use std::alloc::{AllocError, Global};
use std::fmt::Write;
use std::{env, fs, io};

// What is printed of a case.
fn put_answer(alloc: Global, out: &mut String, case: &Case) -> Result<(), AllocError> {
    let source = case.source.as_slice();
    match case.kind.as_str() {
        "tokens" => tokens::put_tokens(alloc, out, source),
        "last" => tokens::put_last(alloc, out, source),
        "tree" => answers::put_tree(alloc, out, source),
        "parts" => answers::put_parts(alloc, out, source),
        "check" => answers::put_check(alloc, out, source),
        "kernel" => answers::put_kernel(alloc, out, source),
        "user" => answers::put_user(alloc, out, source),
        "users" => answers::put_users(alloc, out, source),
        "names" => answers::put_names(alloc, out, source),
        "user-names" => answers::put_user_names(alloc, out, source),
        "sizes" => answers::put_sizes(alloc, out, source),
        "offsets" => offsets::put_offsets(alloc, out, source),
        "structs" => structs::put_structs(alloc, out, source),
        "bound" | "count" => bounds::put_told(alloc, out, case.kind.as_str(), source),
        "asm" => answers::put_asm(alloc, out, source),
        _ => out.push_str("no such kind\n"),
    }
}

// A case, and what is answered.
fn put_case(alloc: Global, out: &mut String, case: &Case) -> Result<(), AllocError> {
    let kind = case.kind.as_str();
    let name = case.name.as_str();
    writeln!(out, "== {kind} {name}")?;
    put_answer(alloc, out, case)
}

// The words are the names of files, whose cases are tried.
fn main(rt: HostRuntime) -> io::Result<()> {
    let alloc = rt.alloc();
    let mut out = String::new(alloc);
    for file in env::args(&rt)?.skip(1) {
        let text = fs::read_to_string(&rt, file.as_str())?;
        for case in &cases(alloc, text.as_str())? {
            put_case(alloc, &mut out, case)?;
        }
    }
    rt.print(out)
}
