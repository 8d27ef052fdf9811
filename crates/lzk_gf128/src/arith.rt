//! Products and inverses of numbers.

ghost use Rattle.std.specs.Prelude.{
  ◌≡◌,
  ℕ,
  ◌+◌,
  ◌*◌,
  ◌<◌,
  ◌≤◌,
  ◌/◌,
  ◌%◌,
  ◌^◌,
  bit_xor,
  slice_index,
};
ghost use Rattle.lzk_gf128.specs.Bodies.{IsMultiples, numbered, in_wide, spread, beside, joined, squared};
ghost use Rattle.lzk_gf128.specs.Product.{product, moved};
ghost use Rattle.lzk_gf128.specs.Inverse.{inverse};

// x times a.
fn doubled(a: u128) -> u128
    ensures { result ≡ moved 1 a }
{
    (a << 1) ^ ((a >> 127) * 0x87)
}

// The lower hexadecimal digit of each byte, the lowest byte first.
#[inline(always)]
fn digits(n: u64) -> [u8; 8]
    ensures { (k : ℕ) → k < 8 → slice_index result k ≡ n / 2 ^ (8 * k) % 16 }
{
    (n & 0x0f0f_0f0f_0f0f_0f0f).to_le_bytes()
}

// The multiples by the polynomials below degree 4.
#[inline(always)]
fn multiples(a: u128) -> [u128; 16]
    ensures { IsMultiples a result }
{
    let a2 = doubled(a);
    let a3 = a ^ a2;
    let a4 = doubled(a2);
    let a5 = a ^ a4;
    let a6 = a2 ^ a4;
    let a7 = a ^ a6;
    let a8 = doubled(a4);
    let a10 = a2 ^ a8;
    let a12 = a4 ^ a8;
    let a14 = a6 ^ a8;
    [
        0,
        a,
        a2,
        a3,
        a4,
        a5,
        a6,
        a7,
        a8,
        a ^ a8,
        a10,
        a ^ a10,
        a12,
        a ^ a12,
        a14,
        a ^ a14,
    ]
}

// Sixteen numbers by their words: a load finds a word by the digit alone, with no shift before it.
#[derive(Drop)]
struct Table {
    low: [u64; 16],
    high: [u64; 16],
}

impl Table {
    #[inline(always)]
    fn of(all: &[u128; 16]) -> Table
        ensures { (i : ℕ) → i < 16 → numbered result.low result.high i ≡ slice_index all.now i }
    {
        let mut table = Table {
            low: [0; 16],
            high: [0; 16],
        };
        for i in 0..16usize {
            table.low[i] = (all[i] % (1 << 64)) as u64;
            table.high[i] = (all[i] >> 64) as u64;
        }
        table
    }

    // The number at a digit.
    #[inline(always)]
    fn at(&self, digit: u8) -> u128
        requires { digit < 16 }
        ensures { result ≡ numbered self.now.low self.now.high digit }
    {
        joined(self.high[digit as usize], self.low[digit as usize])
    }
}

fn joined(upper: u64, lower: u64) -> u128
    ensures { result ≡ joined upper lower }
{
    ((upper as u128) << 64) ^ (lower as u128)
}

#[tactic(auto, using(crate::proofs::Basis::over_128_is))]
fn over_128(n: u128) -> u128
    ensures { result ≡ moved 128 n }
{
    let top = n ^ (n >> 121) ^ (n >> 126) ^ (n >> 127);
    top ^ (top << 1) ^ (top << 2) ^ (top << 7)
}

/// A polynomial below degree 256 in two words: a product, or a sum of products, before it is reduced.
#[derive(Clone, Copy)]
pub(crate) struct Wide {
    pub low: u128,
    pub high: u128,
}

impl Wide {
    /// The sum of no products.
    pub fn zero() -> Wide
        ensures { in_wide result ≡ 0 }
    {
        Wide { low: 0, high: 0 }
    }

    /// The sum of both.
    #[inline(always)]
    pub fn plus(self, other: Wide) -> Wide
        ensures { in_wide result ≡ bit_xor (in_wide self) (in_wide other) }
    {
        Wide {
            low: self.low ^ other.low,
            high: self.high ^ other.high,
        }
    }

    // One digit on, with the multiples of the next digits of two words of a factor.
    #[inline(always)]
    fn digit_on(self, x: u128, y: u128) -> Wide
        requires small { self.high < 2 ^ 124 }
        ensures value { in_wide result ≡ bit_xor (moved 4 (in_wide self)) (bit_xor x (moved 64 y)) }
        ensures room { (k : ℕ) → k ≤ 64 → self.high < 2 ^ (60 + k) → result.high < 2 ^ (64 + k) }
    {
        Wide {
            low: (self.low << 4) ^ x ^ (y << 64),
            high: (self.high << 4) ^ (self.low >> 124) ^ (y >> 64),
        }
    }

    // Eight digits on.
    #[inline(always)]
    fn half_on(self) -> Wide
        requires { self.high < 2 ^ 96 }
        ensures { in_wide result ≡ moved 32 (in_wide self) }
    {
        Wide {
            low: self.low << 32,
            high: (self.high << 32) ^ (self.low >> 96),
        }
    }

    // One digit on, with the multiples at the digits of two words.
    #[inline(always)]
    fn multiples_on(self, table: &Table, x: &[u8; 8], y: &[u8; 8], k: usize) -> Wide
        requires small { self.high < 2 ^ 124 }
        requires place { k < 8 }
        requires first { slice_index x.now k < 16 }
        requires second { slice_index y.now k < 16 }
        ensures value { in_wide result
            ≡ bit_xor (moved 4 (in_wide self)) (bit_xor (numbered table.now.low table.now.high (slice_index x.now k))
            (moved 64 (numbered table.now.low table.now.high (slice_index y.now k)))) }
        ensures room { (j : ℕ) → j ≤ 64 → self.high < 2 ^ (60 + j) → result.high < 2 ^ (64 + j) }
    {
        self.digit_on(table.at(x[k]), table.at(y[k]))
    }

    /// A product of two numbers.
    #[inline(always)]
    pub fn product(a: u128, b: u128) -> Wide
        ensures { in_wide result ≡ product 128 a b }
    {
        let x = (b % (1 << 64)) as u64;
        let y = (b >> 64) as u64;
        // The digits come first, since they do not wait for the other factor.
        let (x_even, x_odd) = (digits(x), digits(x >> 4));
        let (y_even, y_odd) = (digits(y), digits(y >> 4));
        let table = Table::of(&multiples(a));
        // The halves of the words are summed up apart, so that the processor works at both at once.
        let mut above = Wide { low: 0, high: 0 };
        let mut below = Wide { low: 0, high: 0 };
        for i in 0..4usize {
            let k = 3 - i;
            above = above.multiples_on(&table, &x_odd, &y_odd, k + 4);
            below = below.multiples_on(&table, &x_odd, &y_odd, k);
            above = above.multiples_on(&table, &x_even, &y_even, k + 4);
            below = below.multiples_on(&table, &x_even, &y_even, k);
        }
        below.plus(above.half_on())
    }

    /// The one number that the words stand for.
    #[inline(always)]
    pub fn reduced(self) -> u128
        ensures { result ≡ in_wide self }
    {
        self.low ^ over_128(self.high)
    }
}

/// A product for a long sum. It is a call of its own, so that the sum does not take the product's registers.
#[inline(never)]
pub(crate) fn long_product(a: u128, b: u128) -> Wide
    ensures { in_wide result ≡ product 128 a b }
{
    Wide::product(a, b)
}

pub(crate) fn multiply(a: u128, b: u128) -> u128
    ensures { result ≡ product 128 a b }
{
    Wide::product(a, b).reduced()
}

fn beside(n: u64, by: u32, mask: u64) -> u64
    requires { by < 64 }
    ensures { result ≡ beside n by mask }
{
    (n ^ (n << by)) & mask
}

#[tactic(auto, using(crate::proofs::Squares::spread_is))]
fn spread(n: u32) -> u64
    ensures { result ≡ spread n }
{
    let halves = beside(n as u64, 16, 0x0000_ffff_0000_ffff);
    let bytes = beside(halves, 8, 0x00ff_00ff_00ff_00ff);
    let digits = beside(bytes, 4, 0x0f0f_0f0f_0f0f_0f0f);
    let pairs = beside(digits, 2, 0x3333_3333_3333_3333);
    beside(pairs, 1, 0x5555_5555_5555_5555)
}

// Squaring moves bit i to 2 * i: no cross terms are left. The upper half comes first, since its bits are folded.
pub(crate) fn square(a: u128) -> u128
    ensures { result ≡ product 128 a a }
{
    let s = spread((a >> 96) as u32);
    let r = spread(((a >> 64) % (1 << 32)) as u32);
    let q = spread(((a >> 32) % (1 << 32)) as u32);
    let p = spread((a % (1 << 32)) as u32);
    let high = joined(s, r);
    let low = joined(q, p);
    let top = high ^ ((high >> 121) ^ (high >> 126));
    low ^ top ^ (top << 1) ^ (top << 2) ^ (top << 7)
}

// upper^(2^n) * lower
fn meet(upper: u128, n: u32, lower: u128) -> u128
    ensures { result ≡ product 128 (squared n upper) lower }
{
    let mut power = upper;
    for _ in 0..n {
        power = square(power);
    }
    multiply(power, lower)
}

// a^(2^128 - 2), by the powers 2^k - 1 for k up to 127
pub(crate) fn invert(a: u128) -> u128
    ensures { result ≡ inverse a }
{
    let most_2 = meet(a, 1, a);
    let most_3 = meet(most_2, 1, a);
    let most_6 = meet(most_3, 3, most_3);
    let most_12 = meet(most_6, 6, most_6);
    let most_24 = meet(most_12, 12, most_12);
    let most_48 = meet(most_24, 24, most_24);
    let most_96 = meet(most_48, 48, most_48);
    let most_120 = meet(most_96, 24, most_24);
    let most_126 = meet(most_120, 6, most_6);
    let most_127 = meet(most_126, 1, a);
    square(most_127)
}
