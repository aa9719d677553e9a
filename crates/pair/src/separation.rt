// How far the two sides of a split are apart (docs/01-scope.md, "Our distance rules"): the public call over the crate
// `distance`. It refuses by 1 and 2 alone.
ghost use Rattle.std.specs.Prelude.{◌≡◌};
ghost use Rattle.pair.specs.Points as Def;

use distance::candidate::Nearest;
use distance::nearest;
use number::refusal::Refusal;

// A squared distance, the direction from the first side to the second, and which candidate was the first smallest.
pub fn squared_distance(x: [[f32; 3]; 4], split: usize) -> Result<Nearest, Refusal>
    ensures { result ≡ Def.measured x split }
{
    admission::admit_split(x, split)?;
    Ok(nearest::nearest(x, split))
}
