ghost use Rattle.std.specs.Prelude.{◌≡◌, ◌⊎◌, ◌<◌, ◌≤◌, MatchOption};

/// A number from 1 to 1,000,000, by which a number rule divides.
#[derive(Clone, Copy, Debug, PartialEq, Eq)]
pub struct Denominator {
    pub value: u32,
    pub ghost above_zero: { 0 < value },
    pub ghost at_most_a_million: { value ≤ 1000000 },
}

impl Denominator {
    /// None where the number is 0 or above 1,000,000.
    pub fn new(value: u32) -> Option<Denominator>
        ensures { MatchOption result ((value ≡ 0) ⊎ (1000000 < value)) (λ n. n.value ≡ value) }
    {
        if value == 0 || value > 1_000_000 {
            return None;
        }
        Some(Denominator { value })
    }
}
