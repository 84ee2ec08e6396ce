ghost use Rattle.std.specs.Prelude.{◌≡◌};
ghost use Rattle.std.specs.Result.{OkIff};
ghost use Rattle.flat_fold.specs.Computed.{Answers, Fits, exact};
ghost use Rattle.flat_fold.specs.Motions.{identity, place, composed, reflection};
ghost use Rattle.flat_fold.specs.Operations.{combining, turning, placing, composing, mirroring, reflecting};

use exact_number::{Exact, Overflow, whole_number};
use scaled_plane::Pair;

/// A map of the plane that keeps distances: the turn that takes (1, 0) to (c, s), after a reflection in the x-axis where it
/// is `turned`, and then the way (p, r).
#[derive(Clone, Copy)]
pub struct Motion<N> {
    pub c: N,
    pub s: N,
    pub p: N,
    pub r: N,
    pub turned: bool,
}

/// The difference of two numbers, or their sum.
#[tactic(none)]
fn combined<N: Exact>(subtracts: bool, x: N, y: N) -> Result<N, Overflow>
    ensures { Answers result (combining (exact N.numbers) subtracts x y) }
{
    if subtracts { x.sub(y) } else { x.add(y) }
}

impl<N: Exact> Motion<N> {
    /// The map that leaves each point where it is.
    #[tactic(none)]
    pub fn identity() -> Motion<N>
        ensures { result ≡ identity N.numbers.field }
    {
        let zero: N = whole_number(0);
        let one: N = whole_number(1);
        Motion {
            c: one,
            s: zero,
            p: zero,
            r: zero,
            turned: false,
        }
    }

    /// The direction `d`, as the map turns it.
    #[tactic(none)]
    fn turned_way(self, d: Pair<N>) -> Result<Pair<N>, Overflow>
        ensures { Answers result (turning (exact N.numbers) self d) }
    {
        let cx = self.c.mul(d.x)?;
        let sy = self.s.mul(d.y)?;
        let sx = self.s.mul(d.x)?;
        let cy = self.c.mul(d.y)?;
        let x = combined(!self.turned, cx, sy)?;
        let y = combined(self.turned, sx, cy)?;
        Ok(Pair { x, y })
    }

    /// The place of the point `a`.
    #[tactic(none)]
    pub fn place(self, a: Pair<N>) -> Result<Pair<N>, Overflow>
        ensures { OkIff result (Fits (placing (exact N.numbers) self a)) (place N.numbers.field self a) }
    {
        let way = self.turned_way(a)?;
        let x = way.x.add(self.p)?;
        let y = way.y.add(self.r)?;
        Ok(Pair { x, y })
    }

    /// First `inner`, then this map.
    #[tactic(none)]
    pub fn composed(self, inner: Motion<N>) -> Result<Motion<N>, Overflow>
        ensures { OkIff result (Fits (composing (exact N.numbers) self inner)) (composed N.numbers.field self inner) }
    {
        let way = self.turned_way(Pair {
            x: inner.c,
            y: inner.s,
        })?;
        let at = self.place(Pair {
            x: inner.p,
            y: inner.r,
        })?;
        Ok(Motion {
            c: way.x,
            s: way.y,
            p: at.x,
            r: at.y,
            turned: self.turned != inner.turned,
        })
    }

    /// The reflection that turns (1, 0) to (c, s) and leaves `a` where it is.
    #[tactic(none)]
    fn mirror(c: N, s: N, a: Pair<N>) -> Result<Motion<N>, Overflow>
        ensures { Answers result (mirroring (exact N.numbers) c s a) }
    {
        let cx = c.mul(a.x)?;
        let sy = s.mul(a.y)?;
        let along = cx.add(sy)?;
        let p = a.x.sub(along)?;
        let sx = s.mul(a.x)?;
        let cy = c.mul(a.y)?;
        let across = sx.sub(cy)?;
        let r = a.y.sub(across)?;
        Ok(Motion {
            c,
            s,
            p,
            r,
            turned: true,
        })
    }

    /// The reflection in the line through two points.
    #[tactic(none)]
    pub fn reflection(a: Pair<N>, b: Pair<N>) -> Result<Motion<N>, Overflow>
        requires { ¬ (a ≡ b) }
        ensures { OkIff result (Fits (reflecting (exact N.numbers) a b)) (reflection N.numbers.field a b) }
    {
        let u = b.x.sub(a.x)?;
        let v = b.y.sub(a.y)?;
        let uu = u.mul(u)?;
        let vv = v.mul(v)?;
        let n = uu.add(vv)?;
        let k = uu.sub(vv)?;
        let c = k.div(n)?;
        let uv = u.mul(v)?;
        let w = uv.add(uv)?;
        let s = w.div(n)?;
        Motion::mirror(c, s, a)
    }
}
