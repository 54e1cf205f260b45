// Mixed radix over slices of sizes and digits, major first. Inner functions of the library.
#![tactic(auto)]

ghost use Rattle.std.specs.Prelude.{◌≡◌, ◌++◌, ◌+◌, ◌<◌, ◌≤◌, min, length, drop};
ghost use Rattle.radix.specs.Radix.{max_count, prod, row_major, digits, is_within, is_inside, In, Sizes};

// The largest size, and the largest count of elements or cells.
pub const MAX_SIZE: u64 = 1048576;

pub const MAX_COUNT: u64 = 1099511627776;
// Stands for every count above that.
pub const ABOVE_COUNT: u64 = 1099511627777;

// The product of the sizes, exact up to 2^40 and 2^40 + 1 for anything above.
pub fn product(ds: &[u64]) -> u64
    requires { Sizes ds.now }
    ensures { result ≡ min (prod ds.now) (max_count + 1) }
{
    let mut acc: u64 = 1;
    for d in ds {
        acc *= *d;
        if acc > MAX_COUNT {
            return ABOVE_COUNT;
        }
    }
    acc
}

// The row-major number of the index es over ds.
pub fn row_major(ds: &[u64], es: &[u64]) -> u64
    requires fact { In es.now ds.now }
    requires ds_bound { prod ds.now ≤ max_count }
    ensures { result ≡ row_major ds.now es.now }
{
    let mut acc: u64 = 0;
    for (d, e) in ds.iter().zip(es) {
        acc = acc * *d + *e;
    }
    acc
}

// The digits of n over ds, at the front of out; what lies past them stays.
pub fn digits_into(ds: &[u64], n: u64, out: &mut [u64])
    requires ds_in_bounds { (length ds.now ≤ length out.old) × (prod ds.now ≤ max_count) × (n < prod ds.now) }
    requires sizes { Sizes ds.now }
    ensures { out.new ≡ digits ds.now n ++ drop (length ds.now) out.old }
{
    let mut k = n;
    for i in (0..ds.len()).rev() {
        let d = ds[i];
        out[i] = k % d;
        k /= d;
    }
}

// Every entry is from 1 to most.
pub fn within(xs: &[u64], most: u64) -> bool
    ensures { result ≡ is_within most xs.now }
{
    xs.iter().all(|x| 1 <= *x && *x <= most)
}

// Each coordinate of es lies below its size in ds, of which there are as many.
pub fn inside(es: &[u64], ds: &[u64]) -> bool
    requires { length es.now ≡ length ds.now }
    ensures { result ≡ is_inside es.now ds.now }
{
    es.iter().zip(ds).all(|(e, d)| e < d)
}
