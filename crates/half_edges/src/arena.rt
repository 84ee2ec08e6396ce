ghost use Rattle.std.specs.Prelude.{◌≡◌, ◌+◌, ◌^◌, ◌<◌, ◌∷◌, ◌++◌, [], length, slice_get, slice_index, IfOk, OnOk, OnErr};
ghost use Rattle.std.specs.List.{swap};
ghost use Rattle.half_edges.specs.Halves.{IsArena, count, next_of, twin_of};
ghost use Rattle.half_edges.specs.Cycles.{IsCycle, ids};

use fold_base::List;
use std::alloc::{AllocError, Global};
use std::marker::Model;

/// A half-edge by its place in the arena.
#[derive(Clone, Copy, PartialEq, Eq, Debug, Default)]
pub struct HalfId(pub u32);

/// Half-edges with a payload each, made in pairs.
#[derive(Drop)]
pub struct Arena<P> {
    payloads: Vec<P>,
    nexts: Vec<u32>,
}

impl<P> Model for Arena<P> {
    ghost use Rattle.half_edges.specs.Halves.{Halves, IsArena, halves_code};

    ghost Value = { Halves P };

    ghost coded = { halves_code P.code };

    ghost view = { λ a. record { payloads = a.payloads.items; nexts = a.nexts.items } };

    ghost invariant = { λ a. IsArena {P = P} (record { payloads = a.payloads.items; nexts = a.nexts.items }) };
}

impl<P> Arena<P> {
    /// An arena without half-edges, which takes no memory yet.
    pub fn new(alloc: Global) -> Arena<P>
        ensures payloads { result.payloads ≡ [] }
        ensures nexts { result.nexts ≡ [] }
    {
        Arena {
            payloads: Vec::new(alloc),
            nexts: Vec::new(alloc),
        }
    }

    /// How many half-edges there are.
    pub fn len(&self) -> u32
        ensures count { result ≡ count self.now }
        ensures arena { IsArena self.now }
    {
        self.nexts.len() as u32
    }

    /// The half-edge that comes after this one.
    pub fn next(&self, h: HalfId) -> HalfId
        requires { h.0 < count self.now }
        ensures value { result.0 ≡ next_of self.now h.0 }
        ensures within { result.0 < count self.now }
    {
        HalfId(self.nexts[h.0 as usize])
    }

    /// The other half-edge of the pair.
    pub fn twin(&self, h: HalfId) -> HalfId
        requires { h.0 < count self.now }
        ensures value { result.0 ≡ twin_of h.0 }
        ensures within { result.0 < count self.now }
    {
        let _ = &self.nexts;
        if h.0 % 2 == 0 {
            HalfId(h.0 + 1)
        } else {
            HalfId(h.0 - 1)
        }
    }

    pub fn payload(&self, h: HalfId) -> &P
        requires { h.0 < count self.now }
        ensures { slice_get self.now.payloads h.0 ≡ Some result.now }
    {
        &self.payloads[h.0 as usize]
    }

    /// Exchanges the half-edges that come after these two.
    pub fn splice(&mut self, a: HalfId, b: HalfId)
        requires first { a.0 < count self.old }
        requires second { b.0 < count self.old }
        ensures nexts { self.new.nexts ≡ swap self.old.nexts a.0 b.0 }
        ensures payloads { self.new.payloads ≡ self.old.payloads }
    {
        self.nexts.swap(a.0 as usize, b.0 as usize);
    }

    /// The half-edges from `h` on, each after the one before, up to where `h` comes again.
    pub fn walk(&self, alloc: Global, h: HalfId) -> Result<List<HalfId>, AllocError>
        requires { h.0 < count self.now }
        ensures { IfOk result (λ cycle. IsCycle self.now h.0 (ids cycle)) }
    {
        let _count = self.len();
        let mut cycle = List::new(alloc);
        cycle.push(h)?;
        let mut at = self.next(h);
        while at.0 != h.0 {
            cycle.push(at)?;
            at = self.next(at);
        }
        Ok(cycle)
    }
}

impl<P: Drop> Arena<P> {
    /// Adds two half-edges, each the twin of the other and the one that comes after it; the answered one carries `there`, the
    /// other `back`. Where memory is refused nothing changes.
    pub fn add_pair(&mut self, there: P, back: P) -> Result<HalfId, AllocError>
        requires { count self.old < 2 ^ 31 }
        ensures ok { IfOk result (λ h. h.0 ≡ count self.old) }
        ensures payloads { OnOk result (self.new.payloads ≡ self.old.payloads ++ there ∷ back ∷ []) }
        ensures nexts { OnOk result (self.new.nexts ≡ self.old.nexts ++ (count self.old + 1) ∷ count self.old ∷ []) }
        ensures err { OnErr result (self.new ≡ self.old) }
    {
        let first = self.nexts.len() as u32;
        self.payloads.reserve(2)?;
        self.nexts.reserve(2)?;
        self.payloads.push_reserved(there);
        self.payloads.push_reserved(back);
        self.nexts.push_reserved(first + 1);
        self.nexts.push_reserved(first);
        Ok(HalfId(first))
    }
}

#[cfg(test)]
mod tests {
    use super::*;
    use std::test::Fail;

    #[test]
    fn walks_round_a_triangle(rt: HostRuntime) -> Result<(), Fail> {
        let alloc = rt.alloc();
        let mut arena = Arena::new(alloc);
        let ab = arena.add_pair("ab", "ba")?;
        let bc = arena.add_pair("bc", "cb")?;
        let ca = arena.add_pair("ca", "ac")?;
        assert_eq!(rt; arena.len(), 6);
        assert_eq!(rt; [ab.0, bc.0, ca.0], [0, 2, 4]);
        arena.splice(ab, HalfId(3));
        arena.splice(bc, HalfId(5));
        arena.splice(ca, HalfId(1));
        assert_eq!(rt; *arena.payload(arena.next(ab)), "bc");
        assert_eq!(rt; *arena.payload(arena.twin(ca)), "ac");
        let inside = arena.walk(alloc, ab)?;
        let outside = arena.walk(alloc, HalfId(1))?;
        assert_eq!(rt; inside.as_slice(), [ab, bc, ca].as_slice());
        assert_eq!(rt;
            outside.as_slice(),
            [HalfId(1), HalfId(5), HalfId(3)].as_slice()
        );
        Ok(())
    }
}
