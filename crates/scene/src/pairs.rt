// A pair of a scene (docs/01-scope.md, "The scene file"): its points and displacements gathered by their numbers, its
// split, its safe time. A word goes to a `usize` by `as`: `usize` has no `From<u32>`.
ghost use Rattle.std.specs.Prelude.{◌≡◌};
ghost use Rattle.scene.specs.Inner as Inner;
ghost use Rattle.scene.specs.Scene as Def;

use crate::places::File;
use crate::words::{point, word};
use ccd3::SafeTime;
use own_time::own_safe_time;

// The four point numbers of a pair.
pub(crate) fn corners(pair: &[u8]) -> [u32; 4]
    ensures { result ≡ Inner.corners_of pair.now }
{
    [word(pair, 4), word(pair, 8), word(pair, 12), word(pair, 16)]
}

// The point of this number, of a section.
fn chosen(section: &[u8], number: u32) -> [f32; 3]
    ensures { result ≡ Inner.chosen_of section.now number }
{
    point(section, 12 * (number as usize))
}

// The four points of a pair, of a section. They are written out: with the array's `map` the proof did not close.
fn gathered(section: &[u8], pair: &[u8]) -> [[f32; 3]; 4]
    ensures { result ≡ Inner.gathered_of section.now pair.now }
{
    let [a, b, c, d] = corners(pair);
    [
        chosen(section, a),
        chosen(section, b),
        chosen(section, c),
        chosen(section, d),
    ]
}

// The safe time of pair `index`.
#[tactic(auto, using(crate::proofs::Parts::pair_read), unfolding(crate::specs::Scene::safe_time_at))]
pub fn safe_time(s: &[u8], index: u32) -> SafeTime
    ensures answer { result ≡ Def.safe_time_at s.now index }
    ensures promised { Def.PromisesAt s.now index result }
    ensures speed { Def.SpeedAt s.now index result }
{
    let file = File::of(s);
    let pair = file.pair(index);
    let [offset, clearance, max_t] = file.limits();
    own_safe_time(
        gathered(file.points(), pair),
        gathered(file.displacements(), pair),
        word(pair, 0) as usize,
        offset,
        clearance,
        max_t,
    )
}
