// Four points as a whole (mat3x4_array_of_cols.rs, all of it): moved, centred, scaled. Columns are written out: with an
// array's `map` the proofs did not close but by a clause at each closure, which is longer.
ghost use Rattle.std.specs.Prelude.{◌≡◌};
ghost use Rattle.geometry.specs.Geometry.{col};
ghost use Rattle.geometry.specs.Geometry as Def;

use super::vec3::{along, sub, times};

// The points at time t: each column of x0 plus t times its displacement.
pub fn add_scaled(x0: [[f32; 3]; 4], dx: [[f32; 3]; 4], t: f32) -> [[f32; 3]; 4]
    ensures { result ≡ Def.moved x0 dx t }
{
    let [a, b, c, d] = x0;
    let [da, db, dc, dd] = dx;
    [
        along(a, t, da),
        along(b, t, db),
        along(c, t, dc),
        along(d, t, dd),
    ]
}

// The centre: a quarter of the sum over the columns.
fn centre(x: [[f32; 3]; 4]) -> [f32; 3]
    ensures { result ≡ Def.centre_of (col x 0) (col x 1) (col x 2) (col x 3) }
{
    let quarter = |k: usize| (x[0][k] + x[1][k] + x[2][k] + x[3][k]) * 0.25;
    [quarter(0), quarter(1), quarter(2)]
}

// Each column minus the centre.
pub fn centerized(x: [[f32; 3]; 4]) -> [[f32; 3]; 4]
    ensures { result ≡ Def.centred x }
{
    let middle = centre(x);
    let [a, b, c, d] = x;
    [
        sub(a, middle),
        sub(b, middle),
        sub(c, middle),
        sub(d, middle),
    ]
}

// Each of the twelve numbers times s.
pub fn scaled(x: [[f32; 3]; 4], s: f32) -> [[f32; 3]; 4]
    ensures { result ≡ Def.scaled x s }
{
    let [a, b, c, d] = x;
    [times(a, s), times(b, s), times(c, s), times(d, s)]
}
