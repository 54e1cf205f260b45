// The greatest common divisor for a benchmark.
#![tactic(auto)]

ghost use Rattle.std.specs.Prelude.{◌≡◌};
ghost use Rattle.integer.specs.Gcd.{gcd_of};

// The library's answer, as it is.
#[unsafe(no_mangle)]
pub extern "C" fn gcd_of(a: u64, b: u64) -> u64
    ensures { result ≡ gcd_of a b }
{
    integer::gcd(a, b)
}
