ghost use Rattle.std.specs.Prelude.{◌≡◌, ℕ, ℤ, pos, ◌≤◌, ◌*◌, ◌-ℤ◌, ◌*ℤ◌, ◌<ℤ◌, unsigned_abs};
ghost use Rattle.std.specs.Int.{IsGcd};
ghost use Rattle.std.specs.Ordering.{int_cmp};
ghost use Rattle.std.specs.declared.cmp.Ordering.TheVariants.{Equal};
ghost use Rattle.algebra.specs.Ring.{IsRing};
ghost use Rattle.algebra.specs.Order.{IsOrdered, int_sign};
ghost use Rattle.algebra.specs.OrderedRing.{OrderedRing};
ghost use Rattle.algebra.specs.Size.{IsSize};
ghost use Rattle.algebra.specs.Comparison.{IsCompatible};
ghost use Rattle.algebra.specs.Integers.{int_ops};
ghost use Rattle.algebra.specs.Surd.{Surd, IsNonsquare, surd_int, surd_ops, surd_sign};
ghost use Rattle.algebra.specs.SurdSize.{surd_size};
ghost use Rattle.algebra.specs.WholeSurds.{HoldsSurds, SurdNumbers};
ghost use Rattle.algebra.specs.Fraction.{Same, fraction_ops, fraction_sign, inverse};
ghost use Rattle.algebra.specs.OrderedField.{IsEquality, Respects, IsFieldUpTo, IsOrderedUpTo};
ghost use Rattle.algebra.specs.LowestTerms.{Parts, IsLowest, IsReduced, IsGcdOfParts, IsNumber};
ghost use Rattle.algebra.specs.NumberField.{IsRadicand, IsFraction, HoldsNumbers, NumberField, Number};
ghost use Rattle.algebra.specs.NumberFormulas.{parts_sign, quotient, rational_quotient};

/// The order of a ring, by the sign of a difference, is total and agrees with sums and with products by a number above
/// zero.
pub fn order_laws<T>()
    ensures { (K : OrderedRing T) → IsCompatible K }
{}

/// The whole numbers are an ordered ring, and Rust's comparison is the sign of the difference.
pub fn integer_laws()
    ensures ring { IsRing int_ops }
    ensures order { IsOrdered int_ops int_sign }
    ensures compared { (m n : ℤ) → int_cmp m n ≡ int_sign (m -ℤ n) }
    ensures compared_with_zero { (n : ℤ) → int_cmp n (pos 0) ≡ int_sign n }
{}

/// The numbers a+b√k with whole a and b are a ring, and an ordered one where k lies between two neighbouring squares, as 2
/// and 3 do: a+b√k has the sign of a where a² is greater than k·b², that of b where it is less.
pub fn surd_laws()
    ensures ring { (k : ℤ) → IsRing (surd_ops int_ops k) }
    ensures order { (k : ℕ) → IsNonsquare k → IsOrdered (surd_ops int_ops (pos k)) (surd_sign int_ops (pos k) int_sign) }
    ensures two { IsNonsquare 2 }
    ensures three { IsNonsquare 3 }
{}

/// The fractions over an ordered ring are an ordered field: two fractions are one number where their cross products are
/// equal, and the operations and signs are the same for each fraction of a number.
pub fn fraction_laws<T>()
    ensures equality { (K : OrderedRing T) → IsEquality (Same K) }
    ensures respected { (K : OrderedRing T) → Respects (Same K) (fraction_ops K) (inverse K) (fraction_sign K) }
    ensures field { (K : OrderedRing T) → IsFieldUpTo (Same K) (fraction_ops K) (inverse K) (fraction_sign K) }
    ensures order { (K : OrderedRing T) → IsOrderedUpTo (Same K) (fraction_ops K) (fraction_sign K) }
{}

/// Three whole numbers that stand for (a+b√k)/q, with q above zero, are brought to lowest terms in exactly one way: by
/// their greatest common divisor.
pub fn lowest_terms()
    ensures exist { (p : Parts) → pos 0 <ℤ p.q → (r : Parts) × IsReduced p r }
    ensures once { (p r s : Parts) → pos 0 <ℤ p.q → IsReduced p r → IsReduced p s → r ≡ s }
    ensures gcd { (p : Parts) (h g : ℕ) → IsGcd (unsigned_abs p.a) (unsigned_abs p.b) h → IsGcd h (unsigned_abs p.q) g
        → IsGcdOfParts p g }
    ensures by_gcd { (p r : Parts) (g : ℕ) → pos 0 <ℤ p.q → IsGcdOfParts p g
        → p.a ≡ r.a *ℤ pos g → p.b ≡ r.b *ℤ pos g → p.q ≡ r.q *ℤ pos g → IsReduced p r }
{}

/// Each fraction of two numbers a+b√k, with a denominator that is not zero, is exactly one number in lowest terms; it is
/// rational where k is 1 and both are rational.
pub fn fraction_in_lowest_terms()
    ensures exists { (k : ℕ) (n d : Surd ℤ) → ¬ (surd_sign int_ops (pos k) int_sign d ≡ Equal)
        → (r : Parts) × (IsLowest r × IsFraction k n d r) }
    ensures once { (k : ℕ) (n d : Surd ℤ) (r s : Parts) → ¬ (surd_sign int_ops (pos k) int_sign d ≡ Equal)
        → IsLowest r → IsLowest s → IsFraction k n d r → IsFraction k n d s → r ≡ s }
    ensures rational { (n d : Surd ℤ) (r : Parts) → ¬ (surd_sign int_ops (pos 1) int_sign d ≡ Equal)
        → n.b ≡ pos 0 → d.b ≡ pos 0 → IsFraction 1 n d r → r.b ≡ pos 0 }
{}

/// The numbers (a+b√k)/q in lowest terms are an ordered field, for k = 1, where b is 0, and for each k that lies between
/// two neighbouring squares, as the values of any type that holds each of them once. The laws are equations: each
/// operation is its formula on whole numbers without bounds, brought to lowest terms, which gives one value.
pub fn number_laws<T>()
    ensures field { (k : ℕ) (parts : T → Parts) → IsRadicand k → HoldsNumbers k parts → NumberField k parts }
    ensures once { (k : ℕ) (parts : T → Parts) (p : Parts) (x y : T) → HoldsNumbers k parts → pos 0 <ℤ p.q
        → IsReduced p (parts x) → IsReduced p (parts y) → x ≡ y }
    ensures numbers { (k : ℕ) → HoldsNumbers k (λ (x : Number k). x.parts) }
{}

/// For k = 1 the sign of a number is that of a, and a quotient is that of numerators and denominators crosswise.
pub fn rational_number_laws()
    ensures sign { (p : Parts) → IsNumber 1 p → parts_sign 1 p ≡ int_sign p.a }
    ensures quotient { (p r s : Parts) → IsNumber 1 p → IsNumber 1 r → ¬ (parts_sign 1 r ≡ Equal)
        → IsReduced (quotient 1 p r) s → IsReduced (rational_quotient p r) s }
{}

/// The numbers a+b√k with whole a and b are an ordered ring, as the values of any type that holds each of them once, for
/// k = 1, where they are the whole numbers, and for each k that lies between two neighbouring squares.
pub fn whole_number_laws<T>()
    ensures ring { (k : ℕ) (surd : T → Surd ℤ) → IsRadicand k → HoldsSurds k surd → SurdNumbers k surd }
    ensures whole_numbers { HoldsSurds 1 (λ (n : ℤ). surd_int int_ops (pos 1) n) }
    ensures surds { (k : ℕ) → ¬ (k ≡ 1) → HoldsSurds k (λ (x : Surd ℤ). x) }
{}

/// Sizes: of whole numbers the absolute value, of the numbers a+b√k the sum |a| + m·|b|, where k is at most m².
pub fn size_laws()
    ensures whole { IsSize int_ops unsigned_abs }
    ensures surd { (k m : ℕ) → k ≤ m * m → IsSize (surd_ops int_ops (pos k)) (surd_size m) }
{}
