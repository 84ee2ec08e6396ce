ghost use Rattle.std.specs.Prelude.{◌≡◌, ◌+◌, ◌*◌, ◌<◌, ◌≤◌, ◌^◌};
ghost use Rattle.exact_number.specs.Sizes.{whole_size};

use crate::whole::Whole;

/// x - y, with a bound on its size.
pub fn difference<W: Whole>(x: W, y: W) -> W
    requires { whole_size (W.pair x) + whole_size (W.pair y) < 2 ^ 127 }
    ensures value { result ≡ W.numbers.sub x y }
    ensures size { whole_size (W.pair result) ≤ whole_size (W.pair x) + whole_size (W.pair y) }
{
    x.sub(y)
}

/// a·d - b·c, with a bound on its size.
pub fn cross<W: Whole>(a: W, b: W, c: W, d: W) -> W
    requires { whole_size (W.pair a) * whole_size (W.pair d) + whole_size (W.pair b) * whole_size (W.pair c) < 2 ^ 127 }
    ensures value { result ≡ W.numbers.sub (W.numbers.mul a d) (W.numbers.mul b c) }
    ensures size { whole_size (W.pair result)
        ≤ whole_size (W.pair a) * whole_size (W.pair d) + whole_size (W.pair b) * whole_size (W.pair c) }
{
    a.mul(d).sub(b.mul(c))
}
