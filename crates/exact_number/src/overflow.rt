ghost use Rattle.std.specs.Prelude.{◌≡◌, ◌+ℤ◌, ◌-ℤ◌, ◌*ℤ◌, neg_ℤ, FitsSigned, IfErr};
ghost use Rattle.std.specs.Int.{w128};
ghost use Rattle.std.specs.Result.{OkIff};

/// The calls on exact numbers that may overflow.
#[derive(Clone, Copy, PartialEq, Eq, Debug)]
pub enum Op {
    Add,
    Sub,
    Mul,
    Div,
    Compare,
}

/// A whole number that `op` forms on the way to its answer isn't in -2^127..2^127-1.
#[derive(Clone, Copy, PartialEq, Eq, Debug)]
pub struct Overflow {
    pub op: Op,
}

/// The whole numbers that an operation forms, each as `Overflow` where it isn't in -2^127..2^127-1.
impl Op {
    pub fn sum(self, x: i128, y: i128) -> Result<i128, Overflow>
        ensures answer { OkIff result (FitsSigned w128 (x +ℤ y)) (x +ℤ y) }
        ensures overflow { IfErr result (λ e. e.op ≡ self) }
    {
        x.checked_add(y).ok_or(Overflow { op: self })
    }

    pub fn difference(self, x: i128, y: i128) -> Result<i128, Overflow>
        ensures answer { OkIff result (FitsSigned w128 (x -ℤ y)) (x -ℤ y) }
        ensures overflow { IfErr result (λ e. e.op ≡ self) }
    {
        x.checked_sub(y).ok_or(Overflow { op: self })
    }

    /// One multiplication of 64 bits where both factors fit them, as most do.
    pub fn product(self, x: i128, y: i128) -> Result<i128, Overflow>
        ensures answer { OkIff result (FitsSigned w128 (x *ℤ y)) (x *ℤ y) }
        ensures overflow { IfErr result (λ e. e.op ≡ self) }
    {
        match (i64::try_from(x), i64::try_from(y)) {
            (Ok(a), Ok(b)) => Ok(i128::from(a) * i128::from(b)),
            _ => x.checked_mul(y).ok_or(Overflow { op: self }),
        }
    }

    /// `x` times -1.
    pub fn negation(self, x: i128) -> Result<i128, Overflow>
        ensures answer { OkIff result (FitsSigned w128 (neg_ℤ x)) (neg_ℤ x) }
        ensures overflow { IfErr result (λ e. e.op ≡ self) }
    {
        x.checked_neg().ok_or(Overflow { op: self })
    }
}

#[cfg(test)]
mod tests {
    use super::*;

    #[test]
    fn numbers_at_the_edge(rt: HostRuntime) {
        let least = i128::MIN;
        let most = i128::MAX;
        assert_eq!(rt; Op::Add.sum(most, 1), Err(Overflow { op: Op::Add }));
        assert_eq!(rt; Op::Sub.difference(-1, most), Ok(least));
        assert_eq!(rt;
            Op::Compare.difference(-2, most),
            Err(Overflow { op: Op::Compare })
        );
        assert_eq!(rt; Op::Mul.product(least, -1), Err(Overflow { op: Op::Mul }));
        assert_eq!(rt; Op::Mul.product(1 << 64, -1 << 63), Ok(least));
        assert_eq!(rt; Op::Mul.product(-1 << 63, -1 << 63), Ok(1 << 126));
        assert_eq!(rt; Op::Div.negation(most), Ok(-most));
        assert_eq!(rt; Op::Div.negation(least), Err(Overflow { op: Op::Div }));
    }
}
