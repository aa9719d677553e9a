// A pair's own safe time (docs/01-scope.md, "The scene file"): offset, clearance and time limit are given, and u_max is
// the norm of the pair's displacements.

#![tactic(auto)]

ghost use Rattle.std.specs.Prelude.{◌≡◌};
ghost use Rattle.own_time.specs.OwnTime as Def;

use admission::Limits;
use ccd3::SafeTime;
use ccd3::safe_time::maximum_safe_time_accurate;
use pair::norm::norm;

// The three limits stay three parameters: docs/STATEMENTS.md names this function, and no caller is asked for more.
pub fn own_safe_time(
    x0: [[f32; 3]; 4],
    dx: [[f32; 3]; 4],
    split: usize,
    offset: f32,
    clearance: f32,
    max_t: f32,
) -> SafeTime
    ensures answer { result ≡ Def.own_safe_time x0 dx split offset clearance max_t }
    ensures promised { Def.OwnPromises x0 dx split offset clearance max_t result }
    ensures speed { Def.OwnSpeed x0 dx split offset clearance max_t result }
{
    let u_max = norm(dx, split);
    let limits = Limits {
        offset,
        clearance,
        max_t,
        u_max,
    };
    maximum_safe_time_accurate(x0, dx, split, limits)
}
