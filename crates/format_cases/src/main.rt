// Tries files of cases on what reads and makes the files of the project, and prints what each answers, or the refusal of docs/REFUSALS.md.
// `case_file` says how a case is written. Its kind says what is printed:
//
// - `text`: the words of a user's text in assembler, and the text that they are written as, and whether that is read as other words;
// - `object`: what an object file holds; `image`, `old`: what a boot image holds, or one of form 2; `params`, `user`: the parameters of a system,
//   and the words of a user;
// - `sample`, `checked`: the parts of the sample of a number, and whether they are read;
// - a number: what a file of a saved machine holds, for so many turns.
//
// In the files `links`, `accepted` and `migrated` the cases follow one another (links.rt). The file `schedules` has a schedule a line.
#![tactic(auto)]

mod desk;
mod images;
mod links;
mod objects;
mod samples;
mod saves;
mod schedules;
mod show;
mod texts;

use case_file::{Case, cases};
use std::alloc::{AllocError, Global};
use std::fmt::Write;
use std::{env, fs, io};

// What is answered of a case whose kind is a number of turns.
fn put_numbered(alloc: Global, out: &mut String, case: &Case) -> Result<(), AllocError> {
    match case.kind.as_str().parse::<u32>() {
        Ok(turns) => saves::put_saved(alloc, out, &case.source, turns),
        Err(_) => out.push_str("no such kind\n"),
    }
}

// The number of a sample, which is a case's name.
fn number_of(case: &Case) -> u32 {
    case.name.as_str().parse::<u32>().unwrap_or(0)
}

// A case, and what is answered.
fn put_case(alloc: Global, out: &mut String, case: &Case) -> Result<(), AllocError> {
    writeln!(out, "== {} {}", case.kind, case.name)?;
    match case.kind.as_str() {
        "text" => texts::put_text(alloc, out, &case.source),
        "object" => objects::put_object_file(alloc, out, &case.source),
        "image" => images::put_image_file(alloc, out, &case.source),
        "old" => images::put_old(alloc, out, &case.source),
        "params" => images::put_params(out, &case.source),
        "user" => images::put_user(alloc, out, &case.source),
        "sample" => samples::put_sample(alloc, out, number_of(case)),
        "checked" => samples::put_checked(alloc, out, number_of(case)),
        _ => put_numbered(alloc, out, case),
    }
}

// What is printed of a file of this name.
fn put_file(alloc: Global, out: &mut String, name: &str, text: &str) -> Result<(), AllocError> {
    match name {
        "schedules" => schedules::put_schedules(alloc, out, text),
        "links" | "accepted" | "migrated" => links::put_links(alloc, out, &cases(alloc, text)?),
        _ => {
            for case in &cases(alloc, text)? {
                put_case(alloc, out, case)?;
            }
            Ok(())
        }
    }
}

// The words are the names of files, whose cases are tried.
fn main(rt: HostRuntime) -> io::Result<()> {
    let alloc = rt.alloc();
    let mut out = String::new(alloc);
    for file in env::args(&rt)?.skip(1) {
        let text = fs::read_to_string(&rt, file.as_str())?;
        put_file(alloc, &mut out, file.as_str(), text.as_str())?;
    }
    rt.print(out)
}
