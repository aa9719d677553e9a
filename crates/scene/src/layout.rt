// Whether a file is a scene (docs/01-scope.md, "The scene file"): refusal 10, the layout is wrong; 11, it is right and
// some pair has a bad split or point number.
ghost use Rattle.std.specs.Prelude.{◌≡◌};
ghost use Rattle.scene.specs.Scene as Def;
ghost use Rattle.scene.specs.Spelled.{Taken};

use crate::pairs::corners;
use crate::places::{File, displacements_at};
use crate::words::word;
use number::refusal::Refusal;

// A scene: how many points and how many pairs it has.
#[derive(Clone, Copy)]
pub struct Scene {
    pub points: u32,
    pub pairs: u32,
}

// The four sections stand in their order, each after its count, and nothing is left over.
#[tactic(auto, unfolding(crate::specs::Scene::laid_out))]
fn is_laid_out(file: File) -> bool
    ensures { result ≡ Def.laid_out file.entry.bytes.now }
{
    let limits = file.limits_at();
    (file.point_count <= 1024)
        & (word(file.bytes, displacements_at(file.point_count)) == file.point_count)
        & (file.pair_count <= 1024)
        & (word(file.bytes, limits) == 1)
        & (file.bytes.len() == limits + 16)
}

// The split of the pair is 2 or 3, and each of its point numbers is below the count.
#[tactic(auto, unfolding(crate::specs::Scene::is_pair))]
fn is_pair(pair: &[u8], point_count: u32) -> bool
    ensures { result ≡ Def.is_pair pair.now 0 point_count }
{
    let [a, b, c, d] = corners(pair);
    matches!(word(pair, 0), 2 | 3)
        & (a < point_count)
        & (b < point_count)
        & (c < point_count)
        & (d < point_count)
}

// Each pair is so.
fn are_pairs(file: File) -> bool
    ensures { result ≡ Def.are_pairs file.entry.bytes.now file.entry.point_count file.entry.pair_count }
{
    (0..file.pair_count).all(|index| is_pair(file.pair(index), file.point_count))
}

// What the file is: the layout is tested first, then the pairs.
#[tactic(auto, using(crate::proofs::Spelling::taken_of), unfolding(crate::specs::Scene::scene_of))]
pub fn read(s: &[u8]) -> Result<Scene, Refusal>
    ensures scene { result ≡ Def.scene_of s.now }
    ensures taken { Taken s.now result }
{
    let file = File::of(s);
    if !is_laid_out(file) {
        return Err(Refusal::NoScene);
    }
    if !are_pairs(file) {
        return Err(Refusal::BadPair);
    }
    Ok(Scene {
        points: file.point_count,
        pairs: file.pair_count,
    })
}
