// What a case says of its system.
ghost use Rattle.layer_map.specs.Map.{ParamsInRange};

use case_file::Case;
use layer_map::Params;
use std::alloc::{AllocError, Global};

/// A system's kernel, users, schedule and parameters, and how many turns it is to run.
#[derive(Drop)]
pub struct Plan {
    pub kernel: Vec<u8>,
    pub users: Vec<Vec<u8>>,
    pub schedule: Vec<u8>,
    pub turns: u64,
    pages: u32,
    frames: u32,
    heap: u32,
    stack: u32,
}

// The decimal number in a field of a text that is cut at spaces.
fn number(text: &str, field: usize) -> u32 {
    text.split(' ')
        .nth(field)
        .unwrap_or("")
        .parse::<u32>()
        .unwrap_or(0)
}

// Appends a line to a text.
fn put_line(text: &mut Vec<u8>, line: &[u8]) -> Result<(), AllocError> {
    text.extend_from_slice(line)?;
    text.push(b'\n')?;
    Ok(())
}

// Appends a line to the text of the last user, if there is one.
fn put_user_line(users: &mut Vec<Vec<u8>>, line: &[u8]) -> Result<(), AllocError> {
    if let Some(mut text) = users.pop() {
        put_line(&mut text, line)?;
        users.push(text)?;
    }
    Ok(())
}

// A line of a case's source: a new part, or a line of the last one.
fn add_line(alloc: Global, plan: &mut Plan, part: &mut u8, line: &[u8]) -> Result<(), AllocError> {
    if line.starts_with(b"%% ") {
        *part = line.get(3).copied().unwrap_or(0);
        if *part == b'u' {
            plan.users.push(Vec::new(alloc))?;
        }
        return Ok(());
    }
    match *part {
        b'k' => put_line(&mut plan.kernel, line),
        b's' => put_line(&mut plan.schedule, line),
        _ => put_user_line(&mut plan.users, line),
    }
}

/// The plan of a case. Its name gives the most pages of a user, the frames, the words of the heap and of the stack, and the turns; its
/// source has the parts `%% schedule`, `%% user` and `%% kernel`.
pub fn plan_of(alloc: Global, case: &Case) -> Result<Plan, AllocError> {
    let name = case.name.as_str();
    let mut plan = Plan {
        kernel: Vec::new(alloc),
        users: Vec::new(alloc),
        schedule: Vec::new(alloc),
        turns: u64::from(number(name, 4)),
        pages: number(name, 0),
        frames: number(name, 1),
        heap: number(name, 2),
        stack: number(name, 3),
    };
    let mut part = 0u8;
    for line in case.source.split(|c| *c == b'\n') {
        add_line(alloc, &mut plan, &mut part, line)?;
    }
    Ok(plan)
}

impl Plan {
    /// The parameters, each brought into its range, with at most 64 pages and frames.
    pub fn params(&self) -> Params
        ensures { ParamsInRange result }
    {
        Params {
            pages: self.pages.clamp(1, 64),
            frames: self.frames.clamp(2, 64),
            heap: self.heap.min(50_000),
            stack: self.stack.clamp(64, 50_000),
        }
    }
}
