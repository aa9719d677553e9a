// The safe time of a pair (ccd3.rs: `directional_advance`, `maximum_safe_time_accurate`).

#![tactic(auto)]

ghost use Rattle.std.specs.Prelude.{◌≡◌};
ghost use Rattle.ccd3.specs.SafeTime as Def;

use distance::candidate::Nearest;

// How a call ends, each case with its time, or a refusal's number: the form that docs/01-scope.md has for this place
// ("Language forms by place").
#[derive(Clone, Copy)]
pub enum Answer {
    Touching(f32),
    Contact(f32),
    Clear(f32),
    Budget(f32),
    Refused(u32),
}

// How it ends, by the number of its kind.
#[derive(Clone, Copy)]
enum Kind {
    Touching = 0,
    Contact = 1,
    Clear = 2,
    Budget = 3,
    Refused = 4,
}

impl Answer {
    // In numbers: the refusal, 0 for none; the kind; the time, zero with a refusal.
    #[tactic(auto, unfolding(crate::specs::SafeTime::numbers_of))]
    pub fn numbers(self) -> (u32, u32, f32)
        ensures { result ≡ Def.numbers_of self }
    {
        let (refusal, kind, time) = match self {
            Answer::Touching(time) => (0, Kind::Touching, time),
            Answer::Contact(time) => (0, Kind::Contact, time),
            Answer::Clear(time) => (0, Kind::Clear, time),
            Answer::Budget(time) => (0, Kind::Budget, time),
            Answer::Refused(refusal) => (refusal, Kind::Refused, 0.0),
        };
        (refusal, kind as u32, time)
    }
}

// The answer, and how many probes and halvings were made.
#[derive(Clone, Copy)]
pub struct SafeTime {
    pub answer: Answer,
    pub probes: u32,
    pub halvings: u32,
}

// Where a walk is: a time, the points there, and what the distance rules say of them.
#[derive(Clone, Copy)]
pub(crate) struct Visit {
    pub(crate) time: f32,
    pub(crate) points: [[f32; 3]; 4],
    pub(crate) near: Nearest,
}

// What a directional step is taken along and held against: the direction, its norm, dip, park and the time limit.
#[derive(Clone, Copy)]
pub(crate) struct Aim {
    pub(crate) w: [f32; 3],
    pub(crate) norm: f32,
    pub(crate) dip: f32,
    pub(crate) park: f32,
    pub(crate) max_t: f32,
}

// How a walk ends: its answer; the time of the visit from which the last step was taken, and the last time probed; the
// ends of the last bracket, and how often it was halved. With no bracket its ends are zero; with no walk all is. The
// definitions speak of this record (`SafeTime.walk`), and of the next (`Inner.counted_from`).
#[derive(Clone, Copy)]
pub(crate) struct Ending {
    pub(crate) answer: Answer,
    pub(crate) from: f32,
    pub(crate) to: f32,
    pub(crate) lower: f32,
    pub(crate) upper: f32,
    pub(crate) halvings: u32,
}

// How it ends, and how many probes were made.
#[derive(Clone, Copy)]
pub(crate) struct Counted {
    pub(crate) ending: Ending,
    pub(crate) probes: u32,
}

mod cross_pair;
mod directional;
mod halving;
pub mod safe_time;
mod step;
mod walk;
