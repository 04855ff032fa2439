// The program: one command, over files, standard output and the disk in `cvm.disk`.
#![tactic(auto)]

use cvm_outside::{FileSectors, FileShelf, OutSink};
use cvm_shell::{Status, run};
use std::alloc::{AllocError, Global};
use std::env;
use std::io::{ErrorKind, Write};
use std::process::ExitCode;

// The words after the program's name. Where one of them isn't UTF-8 the words are no command, as no words are.
fn words_of(rt: HostRuntime) -> Result<Vec<String>, AllocError> {
    let mut words = Vec::new(rt.alloc());
    match env::args(&rt) {
        Ok(args) => {
            for word in args.skip(1) {
                words.push(word)?;
            }
            Ok(words)
        }
        Err(error) if error.kind() == ErrorKind::InvalidData => Ok(words),
        Err(_) => Err(AllocError),
    }
}

// Whether there is a standard output: no byte is written to it, which fails where its descriptor is closed. A file that is opened then
// would get that descriptor, and with it what is printed.
fn has_output(rt: HostRuntime) -> bool {
    rt.stdout().write(b"").is_ok()
}

fn main(rt: HostRuntime) -> ExitCode {
    let alloc: Global = rt.alloc();
    if !has_output(rt) {
        return ExitCode::from(Status::Sink.code());
    }
    let Ok(words) = words_of(rt) else {
        return ExitCode::from(Status::Memory.code());
    };
    let mut shelf = FileShelf::new(rt);
    if shelf.is_output_the_disk() {
        return ExitCode::from(Status::Sink.code());
    }
    let mut out = OutSink::new(rt);
    let mut disk = FileSectors::new(rt);
    let status = run(alloc, &words, &mut shelf, &mut out, &mut disk);
    ExitCode::from(status.code())
}
