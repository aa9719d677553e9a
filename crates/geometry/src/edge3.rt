// The place along a segment (edge3.rs: `lerp`).
ghost use Rattle.std.specs.Prelude.{◌≡◌};
ghost use Rattle.geometry.specs.Geometry.{lerp_of};

use super::vec3::{along, sub};

// p0 + s (p1 - p0)
pub fn lerp(p0: [f32; 3], p1: [f32; 3], s: f32) -> [f32; 3]
    ensures { result ≡ lerp_of p0 p1 s }
{
    along(p0, s, sub(p1, p0))
}
