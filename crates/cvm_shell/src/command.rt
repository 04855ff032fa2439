// The words of a command.
ghost use Rattle.std.specs.Prelude.{◌≡◌, ◌<◌, ◌≤◌, ◌^◌, ℕ, IfSome, IfNone, MatchOption, decimal, Some, option_map};
ghost use Rattle.run_scripts.specs.Command as command;
ghost use Rattle.cvm_shell.specs.Views.{boot_view, trace_view, user_view, kernel_view, link_view, migrate_view, sample_view, command_view, IsUserNumber};

use crate::check::{Check, read_check};
use crate::program::{CompileProgram, read_compile_program};
use crate::saving_words::{Save, read_resume, read_save};
use cvm_text::{read_decimal, spelled_numbers_are_read};
use run_scripts::StartPoint;

/// The most turns that a command names, and the last sample.
const MOST_TURNS: u64 = 4_294_967_295;

/// The most users that an image has.
const MOST_USERS: u64 = 64;

/// The command `boot IMAGE SCHEDULE TURNS STEPS`, or `rom IMAGE SCHEDULE TURNS STEPS`.
#[derive(Clone, Copy, Drop)]
pub struct Boot<'a> {
    /// Where it starts, by the first word.
    pub start: StartPoint,
    /// The name of the image's file.
    pub image: &'a str,
    /// The name of the schedule's file.
    pub schedule: &'a str,
    /// How many turns are wanted, at least 1.
    pub turns: u32,
    /// The most steps of the machine.
    pub steps: u64,
}

/// The command `trace IMAGE SCHEDULE TURNS STEPS USER`.
#[derive(Clone, Copy, Drop)]
pub struct Trace<'a> {
    /// What is booted, and how long it runs.
    pub boot: Boot<'a>,
    /// The user that is traced, 1 to 64.
    pub user: u32,
}

/// The command `compile user ASM IMG`.
#[derive(Clone, Copy, Drop)]
pub struct CompileUser<'a> {
    /// The name of the text's file.
    pub text: &'a str,
    /// The name of the image's file.
    pub image: &'a str,
}

/// The command `compile kernel SRC OBJ`.
#[derive(Clone, Copy, Drop)]
pub struct CompileKernel<'a> {
    /// The name of the source's file.
    pub source: &'a str,
    /// The name of the object's file.
    pub object: &'a str,
}

/// The command `link OBJ PARAMS OUT USER..`.
#[derive(Clone, Copy, Drop)]
pub struct Link<'a> {
    /// The name of the object's file.
    pub object: &'a str,
    /// The name of the parameters' file.
    pub params: &'a str,
    /// The name of the image's file.
    pub image: &'a str,
    /// The names of the users' files.
    pub users: &'a [String],
}

/// The command `migrate IMAGE OUT`.
#[derive(Clone, Copy, Drop)]
pub struct Migrate<'a> {
    /// The name of the file of the image of form 2.
    pub old: &'a str,
    /// The name of the new image's file.
    pub image: &'a str,
}

/// The command `sample N`.
#[derive(Clone, Copy, Drop)]
pub struct Sample {
    /// The number of the sample.
    pub number: u32,
}

/// A command.
#[derive(Clone, Copy, Drop)]
pub enum Command<'a> {
    /// Boots an image under a schedule, from the loaded machine or from a boot ROM.
    Boot(Boot<'a>),
    /// Boots an image under a schedule, and prints of it what concerns one user.
    Trace(Trace<'a>),
    /// Boots an image under a schedule, and saves its machine where the run stops.
    Save(Save<'a>),
    /// Goes on with the run whose machine was saved.
    Resume(Save<'a>),
    /// Assembles the text of a user, and puts its image.
    CompileUser(CompileUser<'a>),
    /// Compiles the source of a kernel, and puts its object.
    CompileKernel(CompileKernel<'a>),
    /// Compiles the source of a user program, and puts its image.
    CompileProgram(CompileProgram<'a>),
    /// Links an object, parameters and users, and puts their image.
    Link(Link<'a>),
    /// Makes an image of form 2 anew, and puts the image of form 3.
    Migrate(Migrate<'a>),
    /// Makes, links and boots a sample.
    Sample(Sample),
    /// Tells how much stack the kernel of an object needs.
    Check(Check<'a>),
}

/// Reads the words of a command, None where they have no form of one.
pub fn read_command(words: &Vec<String>) -> Option<Command<'_>>
    ensures found { IfSome result (λ c. command.IsCommand (command.word_texts words.now.items) (command_view c)) }
    ensures only { (c : command.Command) → command.IsCommand (command.word_texts words.now.items) c → option_map command_view result ≡ Some c }
    ensures none { IfNone result (command.IsNoCommand (command.word_texts words.now.items)) }
{
    if let Some(boot) = read_boot(words) {
        return Some(Command::Boot(boot));
    }
    if let Some(trace) = read_trace(words) {
        return Some(Command::Trace(trace));
    }
    if let Some(save) = read_save(words) {
        return Some(Command::Save(save));
    }
    if let Some(resume) = read_resume(words) {
        return Some(Command::Resume(resume));
    }
    if let Some(user) = read_compile_user(words) {
        return Some(Command::CompileUser(user));
    }
    if let Some(kernel) = read_compile_kernel(words) {
        return Some(Command::CompileKernel(kernel));
    }
    if let Some(program) = read_compile_program(words) {
        return Some(Command::CompileProgram(program));
    }
    if let Some(link) = read_link(words) {
        return Some(Command::Link(link));
    }
    if let Some(migrate) = read_migrate(words) {
        return Some(Command::Migrate(migrate));
    }
    if let Some(sample) = read_sample(words) {
        return Some(Command::Sample(sample));
    }
    let check = read_check(words)?;
    Some(Command::Check(check))
}

/// Reads the words of a boot or of a boot from a ROM, None where they have no form of one.
pub fn read_boot(words: &Vec<String>) -> Option<Boot<'_>>
    ensures found { IfSome result (λ b. command.IsBoot (command.word_texts words.now.items) (boot_view b)) }
    ensures only { (b : command.BootCommand) → command.IsBoot (command.word_texts words.now.items) b → option_map boot_view result ≡ Some b }
    ensures none { IfNone result ((b : command.BootCommand) → command.IsBoot (command.word_texts words.now.items) b → ⊥) }
{
    let [word, image, schedule, turns, steps] = words.as_slice() else {
        return None;
    };
    let start = read_start(word.as_str())?;
    let turns = read_turns(turns.as_str())?;
    let steps = read_number(steps.as_str())?;
    Some(Boot {
        start,
        image: image.as_str(),
        schedule: schedule.as_str(),
        turns,
        steps,
    })
}

/// Reads the words of a trace, None where they have no form of one.
pub fn read_trace(words: &Vec<String>) -> Option<Trace<'_>>
    ensures found { IfSome result (λ t. command.IsTrace (command.word_texts words.now.items) (trace_view t)) }
    ensures only { (t : command.Trace) → command.IsTrace (command.word_texts words.now.items) t → option_map trace_view result ≡ Some t }
    ensures none { IfNone result ((t : command.Trace) → command.IsTrace (command.word_texts words.now.items) t → ⊥) }
{
    let [word, image, schedule, turns, steps, user] = words.as_slice() else {
        return None;
    };
    if word.as_str() != "trace" {
        return None;
    }
    let turns = read_turns(turns.as_str())?;
    let steps = read_number(steps.as_str())?;
    let user = read_user(user.as_str())?;
    Some(Trace {
        boot: Boot {
            start: StartPoint::Loaded,
            image: image.as_str(),
            schedule: schedule.as_str(),
            turns,
            steps,
        },
        user,
    })
}

/// Reads the words of a compilation of a user, None where they aren't those of one.
pub fn read_compile_user(words: &Vec<String>) -> Option<CompileUser<'_>>
    ensures found { IfSome result (λ c. command.IsCompileUser (command.word_texts words.now.items) (user_view c)) }
    ensures only { (c : command.CompileUser) → command.IsCompileUser (command.word_texts words.now.items) c → option_map user_view result ≡ Some c }
    ensures none { IfNone result ((c : command.CompileUser) → command.IsCompileUser (command.word_texts words.now.items) c → ⊥) }
{
    let [word, kind, text, image] = words.as_slice() else {
        return None;
    };
    if word.as_str() != "compile" {
        return None;
    }
    if kind.as_str() != "user" {
        return None;
    }
    Some(CompileUser {
        text: text.as_str(),
        image: image.as_str(),
    })
}

/// Reads the words of a compilation of a kernel, None where they aren't those of one.
pub fn read_compile_kernel(words: &Vec<String>) -> Option<CompileKernel<'_>>
    ensures found { IfSome result (λ c. command.IsCompileKernel (command.word_texts words.now.items) (kernel_view c)) }
    ensures only { (c : command.CompileKernel) → command.IsCompileKernel (command.word_texts words.now.items) c → option_map kernel_view result ≡ Some c }
    ensures none { IfNone result ((c : command.CompileKernel) → command.IsCompileKernel (command.word_texts words.now.items) c → ⊥) }
{
    let [word, kind, source, object] = words.as_slice() else {
        return None;
    };
    if word.as_str() != "compile" {
        return None;
    }
    if kind.as_str() != "kernel" {
        return None;
    }
    Some(CompileKernel {
        source: source.as_str(),
        object: object.as_str(),
    })
}

/// Reads the words of a linking, None where they aren't those of one.
pub fn read_link(words: &Vec<String>) -> Option<Link<'_>>
    ensures found { IfSome result (λ l. command.IsLink (command.word_texts words.now.items) (link_view l)) }
    ensures only { (l : command.Link) → command.IsLink (command.word_texts words.now.items) l → option_map link_view result ≡ Some l }
    ensures none { IfNone result ((l : command.Link) → command.IsLink (command.word_texts words.now.items) l → ⊥) }
{
    let [word, object, params, image, users @ ..] = words.as_slice() else {
        return None;
    };
    if word.as_str() != "link" {
        return None;
    }
    Some(Link {
        object: object.as_str(),
        params: params.as_str(),
        image: image.as_str(),
        users,
    })
}

/// Reads the words of a migration, None where they aren't those of one.
pub fn read_migrate(words: &Vec<String>) -> Option<Migrate<'_>>
    ensures found { IfSome result (λ m. command.IsMigrate (command.word_texts words.now.items) (migrate_view m)) }
    ensures only { (m : command.Migrate) → command.IsMigrate (command.word_texts words.now.items) m → option_map migrate_view result ≡ Some m }
    ensures none { IfNone result ((m : command.Migrate) → command.IsMigrate (command.word_texts words.now.items) m → ⊥) }
{
    let [word, old, image] = words.as_slice() else {
        return None;
    };
    if word.as_str() != "migrate" {
        return None;
    }
    Some(Migrate {
        old: old.as_str(),
        image: image.as_str(),
    })
}

/// Reads the words of a sample, None where they aren't those of one.
pub fn read_sample(words: &Vec<String>) -> Option<Sample>
    ensures found { IfSome result (λ x. command.IsSample (command.word_texts words.now.items) (sample_view x)) }
    ensures only { (x : command.Sample) → command.IsSample (command.word_texts words.now.items) x → option_map sample_view result ≡ Some x }
    ensures none { IfNone result ((x : command.Sample) → command.IsSample (command.word_texts words.now.items) x → ⊥) }
{
    let [word, number] = words.as_slice() else {
        return None;
    };
    if word.as_str() != "sample" {
        return None;
    }
    let number = read_sample_number(number.as_str())?;
    Some(Sample { number })
}

// The start that a word names.
fn read_start(text: &str) -> Option<StartPoint>
    ensures { MatchOption result ((s : StartPoint) → text.now ≡ command.start_word s → ⊥) (λ s. text.now ≡ command.start_word s) }
{
    if text == "boot" {
        return Some(StartPoint::Loaded);
    }
    if text == "rom" {
        return Some(StartPoint::Rom);
    }
    None
}

// The number of a sample, below 2^32, that a text is the decimal spelling of.
fn read_sample_number(text: &str) -> Option<u32>
    ensures { MatchOption result ((n : ℕ) → n < 2 ^ 32 → text.now ≡ decimal n → ⊥) (λ n. text.now ≡ decimal n) }
{
    let number = read_number(text)?;
    if number > MOST_TURNS {
        return None;
    }
    Some(number as u32)
}

// The number of turns, at least 1 and below 2^32, that a text is the decimal spelling of.
pub(crate) fn read_turns(text: &str) -> Option<u32>
    ensures { MatchOption result ((n : ℕ) → 1 ≤ n → n < 2 ^ 32 → text.now ≡ decimal n → ⊥) (λ n. (text.now ≡ decimal n) × (1 ≤ n)) }
{
    let number = read_number(text)?;
    if number == 0 {
        return None;
    }
    if number > MOST_TURNS {
        return None;
    }
    Some(number as u32)
}

// The number of a user, 1 to 64, that a text is the decimal spelling of.
fn read_user(text: &str) -> Option<u32>
    ensures { IsUserNumber text.now result }
{
    let number = read_number(text)?;
    if number == 0 {
        return None;
    }
    if number > MOST_USERS {
        return None;
    }
    Some(number as u32)
}

// The number that a text is the decimal spelling of, if it is below 2^64.
pub(crate) fn read_number(text: &str) -> Option<u64>
    ensures { MatchOption result ((n : ℕ) → n < 2 ^ 64 → text.now ≡ decimal n → ⊥) (λ n. text.now ≡ decimal n) }
{
    spelled_numbers_are_read();
    let bytes = text.as_bytes();
    let (number, end) = read_decimal(bytes, 0)?;
    if end == bytes.len() {
        Some(number)
    } else {
        None
    }
}
