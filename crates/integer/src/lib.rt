// Signed 64-bit numbers: floor division and its remainder, exact sums and products within +-2^62, the greatest common divisor.
#![tactic(auto)]

ghost use Rattle.std.specs.Prelude.{◌≡◌, ◌<◌, ◌≤◌, pos, nat_abs, ◌+ℤ◌, ◌*ℤ◌, ◌<ℤ◌};
ghost use Rattle.integer.specs.Floor.{floor_div, floor_mod};
ghost use Rattle.integer.specs.Exact.{limit, exactly, sign_of};
ghost use Rattle.integer.specs.Gcd.{gcd_of, least_remainder};

// The largest magnitude of exact working, 2^62.
pub const LIMIT: i64 = 1 << 62;

// The most rounds of a greatest common divisor.
const MAX_ROUNDS: u64 = 64;

// a floordiv divisor, rounded towards minus infinity.
pub fn floor_div(a: i64, divisor: i64) -> i64
    requires { pos 0 <ℤ divisor }
    ensures { result ≡ floor_div a (nat_abs divisor) }
{
    let q = a / divisor;
    let r = a % divisor;
    if r < 0 { q - 1 } else { q }
}

// a mod divisor, from 0 to divisor - 1.
pub fn floor_mod(a: i64, divisor: i64) -> i64
    requires { pos 0 <ℤ divisor }
    ensures { result ≡ floor_mod a (nat_abs divisor) }
{
    let r = a % divisor;
    if r < 0 { r + divisor } else { r }
}

// s, if it lies within the limit.
fn within(s: i64) -> Option<i64>
    ensures { result ≡ exactly s }
{
    (s.unsigned_abs() <= LIMIT.unsigned_abs()).then_some(s)
}

// a + b, if it lies within the limit.
pub fn exact_add(a: i64, b: i64) -> Option<i64>
    ensures { result ≡ exactly (a +ℤ b) }
{
    within(a.checked_add(b)?)
}

// How far a is from 0.
pub fn magnitude(a: i64) -> u64
    ensures { result ≡ nat_abs a }
{
    a.unsigned_abs()
}

// The number of magnitude m, below 0 where negative.
pub fn with_sign(negative: bool, m: u64) -> i64
    requires { m ≤ limit }
    ensures { result ≡ sign_of negative m }
{
    let z = m as i64;
    if negative { -z } else { z }
}

// a * b, if it lies within the limit.
pub fn exact_mul(a: i64, b: i64) -> Option<i64>
    ensures { result ≡ exactly (a *ℤ b) }
{
    within(a.checked_mul(b)?)
}

// The least absolute remainder of x by y: the smaller of what is left and what is missing to y.
fn least_remainder(x: u64, y: u64) -> u64
    requires { 0 < y }
    ensures { result ≡ least_remainder x y }
{
    let t = x % y;
    t.min(y - t)
}

// The greatest common divisor of a and b; of 0 and 0 it is 0. By least absolute remainders, one division a round.
pub fn gcd(a: u64, b: u64) -> u64
    ensures { result ≡ gcd_of a b }
{
    let mut x = a;
    let mut y = b;
    for _ in 0..MAX_ROUNDS {
        if y == 0 {
            break;
        }
        let rest = least_remainder(x, y);
        x = y;
        y = rest;
    }
    x
}
