// Fixed-point numbers: a share of one is a whole number of parts of 2^-44.
ghost use Rattle.std.specs.Prelude.{◌≡◌, ◌≤◌, ◌<◌};
ghost use Rattle.decay.specs.Fixed.{one, product, quotient};
ghost use Rattle.decay.specs.held.Digits.{small, large, chunked};

// The whole, 2^44.
pub const ONE: u64 = 17_592_186_044_416;

// The second factor of a product is taken apart at its 18th bit; LOW times HIGH is the whole.
const LOW: u64 = 262_144;

const HIGH: u64 = 67_108_864;

// A long division goes on by eleven bits at a time, and has 44 bits after four chunks.
const CHUNK: u64 = 2_048;

const CHUNKS: u32 = 4;

// The floor of a * b / 2^44. No product passes 2^62. What is asked of b stays a clause, since the shares of a step and the terms of a series, which are
// plain numbers in the definitions, are multiplied here as exponents are.
#[tactic(auto, using(crate::proofs::fixed::Digits::product_halves))]
pub fn product(a: u64, b: u64) -> u64
    requires { (a ≤ one) × (b ≤ small) }
    ensures { result ≡ product a b }
{
    (a * (b / LOW) + a * (b % LOW) / LOW) / HIGH
}

// A long division under way: the digits found and the remainder.
#[derive(Clone, Copy)]
pub struct Division {
    pub digits: u64,
    pub rest: u64,
}

// Eleven more bits of a long division by d.
pub fn chunk(part: Division, d: u64) -> Division
    requires { (part.digits < 8_589_934_592) × (part.rest < d) × (d ≤ large) }
    ensures { result ≡ chunked part d }
{
    let Division { digits, rest } = part;
    let wide = rest * CHUNK;
    Division {
        digits: digits * CHUNK + wide / d,
        rest: wide % d,
    }
}

// The floor of n * 2^44 / d, by long division in four chunks of eleven bits.
pub fn quotient(n: u64, d: u64) -> u64
    requires { (n < d) × (d ≤ large) }
    ensures { result ≡ quotient n d }
{
    let mut part = Division { digits: 0, rest: n };
    for _ in 0..CHUNKS {
        part = chunk(part, d);
    }
    part.digits
}
