ghost use Rattle.std.specs.Prelude.{pos};
ghost use Rattle.algebra.specs.LowestTerms.{IsNumber};

/// a/q in lowest terms, with q above zero.
#[derive(Clone, Copy)]
pub struct Rational {
    pub a: i128,
    pub q: i128,
    pub ghost lowest: { IsNumber 1 (record { a = a; b = pos 0; q = q }) },
}
