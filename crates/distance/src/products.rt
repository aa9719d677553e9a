// The products of two directions and a gap, from which both interior candidates are found
// (docs/01-scope.md, "Our distance rules").
ghost use Rattle.std.specs.Prelude.{◌≡◌};
ghost use Rattle.distance.specs.Distance as Def;

use geometry::vec3;

#[derive(Clone, Copy)]
pub(crate) struct Products {
    pub(crate) a: f32,
    pub(crate) b: f32,
    pub(crate) c: f32,
    pub(crate) d: f32,
    pub(crate) e: f32,
    pub(crate) det: f32,
}

impl Products {
    // Of the directions u and v and the gap w.
    #[tactic(auto, unfolding(crate::specs::Distance::products_of))]
    pub(crate) fn of(u: [f32; 3], v: [f32; 3], w: [f32; 3]) -> Products
        ensures { result ≡ Def.products_of u v w }
    {
        let a = vec3::dot(u, u);
        let b = vec3::dot(u, v);
        let c = vec3::dot(v, v);
        let d = vec3::dot(u, w);
        let e = vec3::dot(v, w);
        Products {
            a,
            b,
            c,
            d,
            e,
            det: a * c - b * b,
        }
    }

    pub(crate) fn be_minus_cd(self) -> f32
        ensures { result ≡ Def.be_minus_cd self }
    {
        (self.b * self.e - self.c * self.d) / self.det
    }

    pub(crate) fn cd_minus_be(self) -> f32
        ensures { result ≡ Def.cd_minus_be self }
    {
        (self.c * self.d - self.b * self.e) / self.det
    }

    pub(crate) fn ae_minus_bd(self) -> f32
        ensures { result ≡ Def.ae_minus_bd self }
    {
        (self.a * self.e - self.b * self.d) / self.det
    }
}
