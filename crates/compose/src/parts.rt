// The results and the constraints of the composed map, one after another.
ghost use Rattle.std.specs.Prelude.{◌<◌, ◌≤◌, []};
ghost use Rattle.indexing.specs.Map.{max_results, max_constraints};
ghost use Rattle.encoding.specs.Postfix.{postfix};
ghost use Rattle.encoding.specs.Written.{Room, Written};
ghost use Rattle.encoding.specs.Encode.{Holds, Zeros, ConstraintZeros};
ghost use Rattle.compose.specs.ComposeMap.{composed_results};
ghost use Rattle.compose.specs.Ready.{Joinable, constraint_count, constraint_of, EndsOf, Gathers, GathersConstraints};

use super::{Ends, nodes};
use indexing::IndexingMap;

// Writes the results one after another and the numbers of their nodes; the answer is the place past them.
pub fn compose_results(
    f: IndexingMap,
    g: IndexingMap,
    counts: &mut [usize],
    kinds: &mut [u8],
    values: &mut [i64],
) -> usize
    requires { Joinable f g × Zeros counts.old kinds.old values.old }
    ensures { Gathers [] (composed_results f g) max_results counts.new kinds.new values.new result }
{
    let mut at: usize = 0;
    for i in 0..g.results {
        let end = nodes::splice_run(g, i, f, kinds, values, at);
        counts[i] = end - at;
        at = end;
    }
    at
}

// Writes the tree of constraint k: f's constraints, then one per result of f, then g's with the substitution.
fn compose_constraint(
    f: IndexingMap,
    g: IndexingMap,
    k: usize,
    kinds: &mut [u8],
    values: &mut [i64],
    at: usize,
) -> usize
    requires { Joinable f g × (k < constraint_count f g) × Room kinds.old values.old at }
    ensures { Written (postfix (constraint_of f g k).expr) kinds.old kinds.new values.old values.new at result }
{
    if k < f.constraints {
        return nodes::copy_run(f, f.results + k, kinds, values, at);
    }
    let i = k - f.constraints;
    if i < f.results {
        return nodes::copy_run(f, i, kinds, values, at);
    }
    nodes::splice_run(g, g.results + (i - f.results), f, kinds, values, at)
}

// The ends of constraint k: those of f's constraint, of g's bound, or of g's constraint.
fn ends_of(f: IndexingMap, g: IndexingMap, k: usize) -> Ends
    requires { Joinable f g × (k < constraint_count f g) }
    ensures { EndsOf (constraint_of f g k) result }
{
    if k < f.constraints {
        return Ends {
            lower: f.constraint_lower[k],
            upper: f.constraint_upper[k],
        };
    }
    let i = k - f.constraints;
    if i < f.results {
        return Ends {
            lower: g.lower[i],
            upper: g.upper[i],
        };
    }
    let j = i - f.results;
    Ends {
        lower: g.constraint_lower[j],
        upper: g.constraint_upper[j],
    }
}

// Writes the constraints one after another, with the numbers of their nodes and their ends; the answer is the place past them.
pub fn compose_constraints(
    f: IndexingMap,
    g: IndexingMap,
    counts: &mut [usize],
    lower: &mut [i64],
    upper: &mut [i64],
    kinds: &mut [u8],
    values: &mut [i64],
    start: usize,
) -> usize
    requires { Joinable f g × (constraint_count f g ≤ max_constraints) × ConstraintZeros counts.old lower.old upper.old × Holds (composed_results f g) kinds.old values.old start }
    ensures { GathersConstraints f g counts.new lower.new upper.new kinds.new values.new result }
{
    let mut at = start;
    for k in 0..f.constraints + (f.results + g.constraints) {
        let end = compose_constraint(f, g, k, kinds, values, at);
        let ends = ends_of(f, g, k);
        counts[k] = end - at;
        lower[k] = ends.lower;
        upper[k] = ends.upper;
        at = end;
    }
    at
}
