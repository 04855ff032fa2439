// A sample.

use layer_map::Params;
use std::marker::Model;

/// What is linked and booted. Contracts see it with lists of numbers: the bytes of the source and of the schedule, and the words of each
/// user.
#[derive(Debug, Drop)]
pub struct Sample {
    /// The kernel's source.
    pub source: Vec<u8>,
    /// The parameters of the system.
    pub params: Params,
    /// The words of each user, of whom there are 3 to 16.
    pub users: Vec<Vec<u32>>,
    /// The schedule's text.
    pub schedule: Vec<u8>,
}

impl Model for Sample {
    ghost use Rattle.std.specs.Prelude.{map};
    ghost use Rattle.sample_maker.specs.Parts.{SampleParts};

    ghost Value = { SampleParts };

    ghost view = { λ s. record { source = s.source.items; params = s.params; users = map (λ u. u.items) s.users.items; schedule = s.schedule.items } };
}
