// Signed numbers of numbers from 0 on.
ghost use Rattle.std.specs.Prelude.{◌≡◌, ◌≤◌, pos, neg_ℤ};
ghost use Rattle.radix.specs.Radix.{max_count};

// The same number, signed.
pub fn natural(value: u64) -> i64
    requires { value ≤ max_count }
    ensures { result ≡ pos value }
{
    value as i64
}

// The number below 0.
pub fn negative(value: u64) -> i64
    requires { value ≤ max_count }
    ensures { result ≡ neg_ℤ (pos value) }
{
    -(value as i64)
}
