//! Words of 64 values of a table, value k at bit k.
ghost use Rattle.std.specs.Prelude.{◌≡◌, ℕ, ◌+◌, ◌*◌, ◌^◌, ◌<◌, ◌≤◌, nat_lt};
ghost use Rattle.ncl_gates.specs.Bits.{is_set};

/// The values of the function that is 1 everywhere, over words of `width` bits: value k is 1 where
/// there is a word number k.
pub(crate) fn all_ones(width: usize) -> u64
    requires { width ≤ 10 }
    ensures { (k : ℕ) → k < 64 → is_set result k ≡ nat_lt k (2 ^ width) }
{
    if width < 6 {
        let values = 1_usize << width;
        (1 << values) - 1
    } else {
        u64::MAX
    }
}

/// The bits of the numbers below 64, a word for each of their six bits.
const MASKS: [u64; 6] = [
    0xAAAA_AAAA_AAAA_AAAA,
    0xCCCC_CCCC_CCCC_CCCC,
    0xF0F0_F0F0_F0F0_F0F0,
    0xFF00_FF00_FF00_FF00,
    0xFFFF_0000_FFFF_0000,
    0xFFFF_FFFF_0000_0000,
];

/// The bit `shift` of each of the numbers from `64 * j` on.
pub(crate) fn bit_values(shift: usize, j: usize) -> u64
    requires { shift < 10 }
    ensures { (k : ℕ) → k < 64 → is_set result k ≡ is_set (64 * j + k) shift }
{
    if shift < 6 {
        MASKS[shift]
    } else if (j >> (shift - 6)) & 1 == 1 {
        u64::MAX
    } else {
        0
    }
}
