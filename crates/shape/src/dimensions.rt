// Lists of dimensions: in range, free of repeats, a permutation.
ghost use Rattle.std.specs.Prelude.{◌≤◌, ◌≡◌, length};
ghost use Rattle.refusal.specs.Number.{verdict_answer};
ghost use Rattle.shape.specs.Shape.{max_rank};
ghost use Rattle.shape.specs.Dimensions.{place, in_range, first_pair, first_repeat, is_permutation};

use refusal::Refusal;

// The first place of the dimension in the list, or the list's length.
pub fn place_of(list: &[u64], dimension: u64) -> usize
    ensures { result ≡ place dimension list.now }
{
    list.iter()
        .position(|d| *d == dimension)
        .unwrap_or(list.len())
}

// Every dimension of the list is below n.
pub fn in_range(list: &[u64], n: u64) -> bool
    ensures { result ≡ in_range n list.now }
{
    list.iter().all(|d| *d < n)
}

// The first two places that hold the same: the later one is searched from the front.
pub fn first_pair(list: &[u64]) -> Option<(usize, usize)>
    ensures { result ≡ first_pair list.now }
{
    let mut pair = None;
    'search: for later in 0..list.len() {
        for earlier in 0..later {
            if list[earlier] == list[later] {
                pair = Some((earlier, later));
                break 'search;
            }
        }
    }
    pair
}

// Refused at the first repeat, with both places.
pub fn first_repeat(list: &[u64]) -> Result<(), Refusal>
    ensures { verdict_answer result ≡ first_repeat list.now }
{
    match first_pair(list) {
        None => Ok(()),
        Some((earlier, later)) => Err(Refusal::Repeat(earlier, later)),
    }
}

// The list, of at most 6, is a permutation: a dimension is marked when it is met, and one that is marked already is a repeat.
fn each_once(list: &[u64]) -> bool
    requires { length list.now ≤ max_rank }
    ensures { result ≡ is_permutation list.now }
{
    let n = list.len() as u64;
    let mut met = [0u64; 6];
    for d in list {
        if n <= *d || met[*d as usize] == 1 {
            return false;
        }
        met[*d as usize] = 1;
    }
    true
}

// The list is a permutation of the numbers below its length.
pub fn is_permutation(list: &[u64]) -> bool
    ensures { result ≡ is_permutation list.now }
{
    if list.len() <= super::MAX_RANK {
        return each_once(list);
    }
    in_range(list, list.len() as u64) && first_pair(list).is_none()
}
