//! Binary logarithms by whole numbers.
ghost use Rattle.std.specs.Prelude.{◌≡◌, ◌<◌, ◌≤◌, ◌*◌, ◌^◌};
ghost use Rattle.picture.specs.Log.{doublings, fraction, log_of};

/// The binary logarithm of c over b in parts of 1024, rounded down: where b is from 1 to c, and c is at most 2^96.
pub(crate) fn log_of(c: u128, b: u128) -> u64
    requires some { 1 ≤ b }
    requires above { b ≤ c }
    requires small { c ≤ 2 ^ 96 }
    ensures log { result ≡ log_of c b }
    ensures most { result ≤ 99328 }
    ensures one { 2 * b ≤ c → 1024 ≤ result }
{
    let whole = doublings(b, c);
    let start = (c << 31) / (b << whole);
    1024 * u64::from(whole) + fraction(start as u64)
}

/// How often b can be doubled without passing c.
fn doublings(b: u128, c: u128) -> u32
    requires some { 1 ≤ b }
    requires above { b ≤ c }
    requires small { c ≤ 2 ^ 96 }
    ensures count { result ≡ doublings 96 b c }
    ensures most { result ≤ 96 }
    ensures within { b * 2 ^ result ≤ c }
    ensures next { c < 2 * (b * 2 ^ result) }
{
    let mut doubled = b;
    let mut count = 0;
    while 2 * doubled <= c {
        doubled *= 2;
        count += 1;
    }
    count
}

/// The logarithm of a number from 1 to 2, in parts of 2^31, in parts of 1024.
fn fraction(start: u64) -> u64
    requires from { 2 ^ 31 ≤ start }
    requires below { start < 2 ^ 32 }
    ensures fraction { result ≡ fraction 10 start }
    ensures small { result < 1024 }
{
    let mut number = start;
    let mut bits = 0;
    for _ in 0..10u32 {
        let square = number * number / 0x8000_0000;
        bits *= 2;
        number = square;
        if square >= 0x1_0000_0000 {
            bits += 1;
            number = square / 2;
        }
    }
    bits
}
