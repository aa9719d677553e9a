// Where the sections of a scene file stand (docs/01-scope.md, "The scene file"), by its counts. A word
// goes to a `usize` by `as`: `usize` has no `From<u32>`.
ghost use Rattle.std.specs.Prelude.{◌≡◌, ◌∷◌, []};
ghost use Rattle.scene.specs.Inner as Inner;
ghost use Rattle.scene.specs.Scene as Def;

use crate::words::{from, number, word};

// The displacements, with their count.
pub(crate) fn displacements_at(point_count: u32) -> usize
    ensures { result ≡ Def.displacements_at point_count }
{
    4 + 12 * (point_count as usize)
}

// The pairs, with their count.
fn pairs_at(point_count: u32) -> usize
    ensures { result ≡ Def.pairs_at point_count }
{
    displacements_at(point_count) + 4 + 12 * (point_count as usize)
}

// Pair `index`; the limits, with their count, stand after the last pair.
fn pair_at(point_count: u32, index: u32) -> usize
    ensures { result ≡ Def.pair_at point_count index }
{
    pairs_at(point_count) + 4 + 20 * (index as usize)
}

// The bytes of a file, and how many points and how many pairs it says that it has. A part of it is lent as the bytes
// from its place on.
#[derive(Clone, Copy)]
pub(crate) struct File<'a> {
    pub(crate) bytes: &'a [u8],
    pub(crate) point_count: u32,
    pub(crate) pair_count: u32,
    ghost points_said: { point_count ≡ Def.point_count bytes.now },
    ghost pairs_said: { pair_count ≡ Def.pair_count bytes.now },
}

impl<'a> File<'a> {
    pub(crate) fn of(bytes: &'a [u8]) -> File<'a>
        ensures { result.bytes.now ≡ bytes.now }
    {
        let point_count = word(bytes, 0);
        let pair_count = word(bytes, pairs_at(point_count));
        File {
            bytes,
            point_count,
            pair_count,
        }
    }

    // Point after point.
    pub(crate) fn points(self) -> &'a [u8]
        ensures { result.now ≡ Inner.points_part self.entry.bytes.now }
    {
        from(self.bytes, 4)
    }

    // Displacement after displacement.
    pub(crate) fn displacements(self) -> &'a [u8]
        ensures { result.now ≡ Inner.displacements_part self.entry.bytes.now }
    {
        from(self.bytes, displacements_at(self.point_count) + 4)
    }

    // Pair `index`.
    pub(crate) fn pair(self, index: u32) -> &'a [u8]
        ensures { result.now ≡ Inner.pair_part self.entry.bytes.now index }
    {
        from(self.bytes, pair_at(self.point_count, index))
    }

    // Where the limits stand, with their count.
    pub(crate) fn limits_at(self) -> usize
        ensures { result ≡ Def.limits_at self.entry.bytes.now }
    {
        pair_at(self.point_count, self.pair_count)
    }

    // Offset, clearance and time limit.
    #[tactic(auto, unfolding(crate::specs::Scene::limit_of))]
    pub(crate) fn limits(self) -> [f32; 3]
        ensures { result ≡ let s = self.entry.bytes.now in Def.limit_of s 1 ∷ Def.limit_of s 2 ∷ Def.limit_of s 3 ∷ [] }
    {
        let at = self.limits_at();
        [
            number(self.bytes, at + 4),
            number(self.bytes, at + 8),
            number(self.bytes, at + 12),
        ]
    }
}
