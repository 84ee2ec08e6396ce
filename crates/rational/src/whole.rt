/// A whole number, as rationals have when they're scaled.
#[derive(Clone, Copy)]
pub struct RationalRing {
    pub a: i128,
}
