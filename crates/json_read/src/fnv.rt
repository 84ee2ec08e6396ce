ghost use Rattle.std.specs.Prelude.{◌≡◌};
ghost use Rattle.json_read.specs.Fnv.{fnv_1a};

const OFFSET_BASIS: u64 = 0xcbf2_9ce4_8422_2325;

const PRIME: u64 = 0x0100_0000_01b3;

/// The hash FNV-1a of 64 bits, of Fowler, Noll and Vo.
#[tactic(auto, unfolding(crate::specs::Fnv::fnv_1a))]
pub fn fnv_1a(bytes: &[u8]) -> u64
    ensures { result ≡ fnv_1a bytes.now }
{
    let mut hash = OFFSET_BASIS;
    for byte in bytes {
        hash = (hash ^ u64::from(*byte)).wrapping_mul(PRIME);
    }
    hash
}
