// The bounds of the composed map's variables.
ghost use Rattle.std.specs.Prelude.{◌≡◌, ◌<◌};
ghost use Rattle.expression.specs.Node.{max_places};
ghost use Rattle.compose.specs.ComposeMap.{end_at, joined_ends};
ghost use Rattle.compose.specs.Ready.{EndsReady};

// The end at a place: those of f's dimensions and of f's range variables, so many, then those of g's range variables.
fn joined_end<'a>(fs: &'a [i64], gs: &'a [i64], first: usize, place: usize) -> i64
    requires { EndsReady fs.now gs.now first × (place < max_places) }
    ensures { result ≡ end_at first fs.now gs.now place }
{
    if place < expression::MAX_VARIABLES + first {
        fs[place]
    } else {
        gs[place - first]
    }
}

// The ends at all places.
pub fn joined_ends<'a>(fs: &'a [i64], gs: &'a [i64], first: usize) -> [i64; 24]
    requires { EndsReady fs.now gs.now first }
    ensures { result ≡ joined_ends first fs.now gs.now }
{
    let mut out = [0i64; 24];
    for i in 0..24 {
        out[i] = joined_end(fs, gs, first, i);
    }
    out
}
