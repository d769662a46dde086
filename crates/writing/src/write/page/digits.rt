// The decimal digits of a number, found by taking powers of ten away from it: no division and no remainder.
ghost use Rattle.std.specs.Prelude.{◌≡◌, ℕ, ◌+◌, ◌*◌, ◌/◌, ◌%◌, ◌^◌, ◌<◌, length, get_or};
ghost use Rattle.writing.specs.Written.{decimals};

// 10^0 to 10^19.
const POWERS: [u64; 20] = [
    1,
    10,
    100,
    1_000,
    10_000,
    100_000,
    1_000_000,
    10_000_000,
    100_000_000,
    1_000_000_000,
    10_000_000_000,
    100_000_000_000,
    1_000_000_000_000,
    10_000_000_000_000,
    100_000_000_000_000,
    1_000_000_000_000_000,
    10_000_000_000_000_000,
    100_000_000_000_000_000,
    1_000_000_000_000_000_000,
    10_000_000_000_000_000_000,
];

// A digit's byte, and what is left of the number.
#[derive(Clone, Copy)]
pub(super) struct Taken {
    pub(super) byte: u8,
    pub(super) left: u64,
}

// The powers of ten below 2^64.
pub(super) fn powers_of_ten() -> [u64; 20]
    ensures { (k : ℕ) → k < 20 → get_or result k 0 ≡ 10 ^ k }
{
    POWERS
}

// The number of digits.
#[tactic(auto, using(crate::proofs::Decimals::digits))]
pub(super) fn digit_count(n: u64) -> usize
    ensures { result ≡ length (decimals 20 n) }
{
    let powers = powers_of_ten();
    for count in 1..20 {
        if n < powers[count] {
            return count;
        }
    }
    20
}

// The digit of a power of ten: how often it can be taken away.
pub(super) fn take_digit(n: u64, power: u64) -> Taken
    requires { n < 10 * power }
    ensures byte { result.byte ≡ 48 + n / power }
    ensures left { result.left ≡ n % power }
{
    let mut byte = b'0';
    let mut left = n;
    // Kept: powers are taken away, not divided by (docs/DECISIONS.md), and how often is known once one can be taken no more.
    while power <= left {
        left -= power;
        byte += 1;
    }
    Taken { byte, left }
}
