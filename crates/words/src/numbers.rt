// Numbers of magnitude at most 2^62: exact sums and products, or one past the limit.
ghost use Rattle.std.specs.Prelude.{◌≡◌, not, ℤ, ◌+ℤ◌, ◌*ℤ◌};
ghost use Rattle.integer.specs.Exact.{sign_of};
ghost use Rattle.words.specs.Saturated.{saturate};

// The largest magnitude of a number within the limits.
const LIMIT: u64 = 1 << 62;

// What stands for a number past the limits.
const OVER: i64 = 4611686018427387905;

// s, or OVER where it passes the limit.
pub fn saturated(s: i64) -> i64
    ensures { result ≡ saturate s }
{
    if expression::is_small(s) { s } else { OVER }
}

// a + b, or OVER where it passes the limit.
pub fn add(a: i64, b: i64) -> i64
    ensures { result ≡ saturate (a +ℤ b) }
{
    integer::exact_add(a, b).unwrap_or(OVER)
}

// a * b, or OVER where it passes the limit.
pub fn times(a: i64, b: i64) -> i64
    ensures { result ≡ saturate (a *ℤ b) }
{
    integer::exact_mul(a, b).unwrap_or(OVER)
}

// The number of magnitude m, below 0 where neg, or OVER where it passes the limit.
pub fn with_magnitude(neg: bool, m: u64) -> i64
    ensures { result ≡ saturate (sign_of neg m) }
{
    if LIMIT < m {
        return OVER;
    }
    integer::with_sign(neg, m)
}

// Two numbers of one sign.
pub fn add_alike(neg: bool, m: u64, f: u64) -> i64
    ensures { result ≡ saturate (sign_of neg m +ℤ sign_of neg f) }
{
    if LIMIT < m {
        return OVER;
    }
    if LIMIT - m < f {
        return OVER;
    }
    with_magnitude(neg, m + f)
}

// Two numbers of opposite signs, of which neg is the first's.
pub fn add_opposed(neg: bool, m: u64, f: u64) -> i64
    ensures { result ≡ saturate (sign_of neg m +ℤ sign_of (not neg) f) }
{
    if f <= m {
        return with_magnitude(neg, m - f);
    }
    with_magnitude(!neg, f - m)
}

// k * c + e, exactly, or OVER where it passes the limit.
pub fn multiply_add(k: i64, c: i64, e: i64) -> i64
    ensures { result ≡ saturate ((k *ℤ c) +ℤ e) }
{
    let x = integer::magnitude(k);
    let y = integer::magnitude(c);
    let f = integer::magnitude(e);
    if x == 0 {
        return saturated(e);
    }
    if u64::MAX / x < y {
        return OVER;
    }
    let neg = (k < 0) != (c < 0);
    if neg == (e < 0) {
        return add_alike(neg, x * y, f);
    }
    add_opposed(neg, x * y, f)
}
