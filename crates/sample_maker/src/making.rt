// The sample of a number.

ghost use Rattle.std.specs.Prelude.{◌≡◌, IfOk};
ghost use Rattle.layer_map.specs.Map.{ParamsInRange};
ghost use Rattle.sample_maker.specs.Sample.{sample_of};

use crate::parts::Sample;
use crate::program::users_in;
use crate::schedule::schedule_in;
use crate::source::source_in;
use layer_map::Params;
use std::alloc::{AllocError, Global};

/// The sample of a number. Two numbers that agree modulo 14, 7, 50 and 1,000 have the same.
#[tactic(auto, unfolding(crate::specs::Sample::sample_of))]
pub fn sample(alloc: Global, number: u32) -> Result<Sample, AllocError>
    ensures is { IfOk result (λ s. s ≡ sample_of number) }
    ensures range { IfOk result (λ s. ParamsInRange s.params) }
{
    let users = 3 + number % 14;
    let params = Params {
        pages: 16,
        frames: 2 + number % 7,
        heap: 0,
        stack: 64,
    };
    Ok(Sample {
        source: source_in(alloc, users, number % 1000)?,
        params,
        users: users_in(alloc, users)?,
        schedule: schedule_in(alloc, number)?,
    })
}
