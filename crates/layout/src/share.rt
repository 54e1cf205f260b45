// Shares in binary64: one division of two exact counts, rounded once.
ghost use Rattle.std.specs.Prelude.{◌≡◌, ◌<◌, ◌≤◌};
ghost use Rattle.radix.specs.Radix.{max_count};
ghost use Rattle.layout.specs.Share.{share_of, fit_of};

use super::Fit;

// a / b, rounded once.
pub fn share(a: u64, b: u64) -> f64
    requires { (a ≤ max_count) × (0 < b) × (b ≤ max_count) }
    ensures { result ≡ share_of a b }
{
    a as f64 / b as f64
}

// A size against a limit.
pub fn fit_of(size: u64, limit: u64) -> Fit
    requires { (size ≤ max_count) × (0 < limit) × (limit ≤ max_count) }
    ensures { result ≡ fit_of size limit }
{
    if size <= limit {
        Fit::Fits(share(limit - size, limit))
    } else {
        Fit::Over(share(size, limit))
    }
}
