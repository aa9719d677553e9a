// What the exported functions answer. C has no Result and no enum that holds values, so that an answer of the library
// becomes a record of numbers, in which the refusal's number comes first (0: not refused) and what a refusal does not
// have is zero.
ghost use Rattle.std.specs.Prelude.{◌≡◌};
ghost use Rattle.urtemval.specs.Face as Def;

use distance::candidate::Nearest;
use number::refusal::Refusal;
use polynomial_root::answer;

// A safe time, with the number of its kind; or a refusal.
#[repr(C)]
#[derive(Clone, Copy)]
pub struct SafeTime {
    pub refusal: u32,
    pub kind: u32,
    pub time: f32,
    pub probes: u32,
    pub halvings: u32,
}

// A squared distance, the direction from the first side to the second, and which candidate was the first smallest; or a
// refusal.
#[repr(C)]
#[derive(Clone, Copy)]
pub struct Measured {
    pub refusal: u32,
    pub squared: f32,
    pub direction: [f32; 3],
    pub candidate: u32,
}

// The roots in the first `count` places, zero in the others; or a refusal.
#[repr(C)]
#[derive(Clone, Copy)]
pub struct Roots {
    pub refusal: u32,
    pub count: u32,
    pub roots: [f32; 3],
}

// One number, or a refusal.
#[repr(C)]
#[derive(Clone, Copy)]
pub struct Value {
    pub refusal: u32,
    pub value: f32,
}

impl From<ccd3::SafeTime> for SafeTime {
    ghost from_gives = { λ safe told. told ≡ Def.safe_time safe };

    #[tactic(auto, unfolding(crate::specs::Face::safe_time))]
    fn from(safe: ccd3::SafeTime) -> SafeTime {
        let (refusal, kind, time) = safe.answer.numbers();
        SafeTime {
            refusal,
            kind,
            time,
            probes: safe.probes,
            halvings: safe.halvings,
        }
    }
}

impl From<Result<Nearest, Refusal>> for Measured {
    ghost from_gives = { λ answer told. told ≡ Def.measured_of answer };

    #[tactic(auto, unfolding(crate::specs::Face::measured_of, number::specs::Number::refusal_of))]
    fn from(answer: Result<Nearest, Refusal>) -> Measured {
        match answer {
            Ok(nearest) => {
                let direction = nearest.direction;
                Measured {
                    refusal: 0,
                    squared: nearest.squared,
                    direction,
                    candidate: nearest.candidate,
                }
            }
            Err(refusal) => Measured {
                refusal: u32::from(refusal),
                squared: 0.0,
                direction: [0.0; 3],
                candidate: 0,
            },
        }
    }
}

impl From<Result<answer::Roots, Refusal>> for Roots {
    ghost from_gives = { λ answer told. told ≡ Def.roots_of answer };

    #[tactic(auto, unfolding(crate::specs::Face::roots_of, number::specs::Number::refusal_of))]
    fn from(answer: Result<answer::Roots, Refusal>) -> Roots {
        match answer {
            Ok(found) => {
                let roots = found.roots;
                Roots {
                    refusal: 0,
                    count: found.count,
                    roots,
                }
            }
            Err(refusal) => Roots {
                refusal: u32::from(refusal),
                count: 0,
                roots: [0.0; 3],
            },
        }
    }
}

impl From<Result<f32, Refusal>> for Value {
    ghost from_gives = { λ answer told. told ≡ Def.told answer };

    #[tactic(auto, unfolding(crate::specs::Face::told, number::specs::Number::refusal_of, number::specs::Number::value_of))]
    fn from(answer: Result<f32, Refusal>) -> Value {
        match answer {
            Ok(value) => Value { refusal: 0, value },
            Err(refusal) => Value {
                refusal: u32::from(refusal),
                value: 0.0,
            },
        }
    }
}
