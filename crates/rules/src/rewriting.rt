// All rules applied to a floordiv or mod of a sum that stands as words.
ghost use Rattle.std.specs.Prelude.{◌≤◌, pos, nat_abs, length, ◌<ℤ◌};
ghost use Rattle.expression.specs.Node.{max_divisor};
ghost use Rattle.rules.specs.Outcome.{Rewrites, max_terms};
ghost use Rattle.rules.specs.Rewriting.{Judges, Settles, Holds, Joins};

use super::{Applied, Rewritten};

// Whether the sum of n terms at p keeps the limits.
pub fn is_small_sum(w: &[i64], p: usize, n: usize) -> bool
    requires { p ≤ length w.now }
    ensures { Judges w.now p n result }
{
    let r = words::reckon(w, p, n, 0, 0);
    r.ok
}

// The sum of the words made up to end, written at p where it keeps the limits.
pub fn settle(made: &[i64], terms: usize, end: usize, w: &mut [i64], p: usize) -> Rewritten
    requires { (end ≤ length made.now) × (p ≤ length w.old) }
    ensures { Settles made.now terms end w.old w.new p result.small result.terms result.end }
{
    if 65536 < terms {
        return Rewritten {
            small: false,
            terms: 0,
            end: p,
        };
    }
    if !is_small_sum(made, 0, terms) {
        return Rewritten {
            small: false,
            terms: 0,
            end: p,
        };
    }
    let e = words::copy(made, 0, end, w, p);
    Rewritten {
        small: true,
        terms,
        end: e,
    }
}

// The words made from end to upto, written at p, and those before end behind them, from the place that is answered on.
fn hold_both(made: &[i64], end: usize, upto: usize, w: &mut [i64], p: usize) -> usize
    requires { (end ≤ upto) × (upto ≤ length made.now) × (p ≤ length w.old) }
    ensures { Holds made.now end upto w.old w.new p result }
{
    let a = words::copy(made, end, upto, w, p);
    words::copy(made, 0, end, w, a);
    a
}

// The factor times the sum at a, and the sum at p, written at p where the limits are kept.
fn join(
    factor: i64,
    w: &mut [i64],
    a: usize,
    terms: usize,
    p: usize,
    rest: usize,
    scratch: &mut [i64],
) -> Rewritten
    requires { (a ≤ length w.old) × (p ≤ length w.old) × (terms ≤ max_terms) × (rest ≤ max_terms) }
    ensures { Joins factor w.old w.new a terms p rest (length scratch.old) result.small result.terms result.end }
{
    let m = words::blend(factor, w, a, terms, w, p, rest, scratch, 0);
    settle(scratch, m.n, m.at, w, p)
}

// The sum of n terms at p, floordiv (op is 3) or mod (op is 4) c, rewritten in its place; the scratch holds what a rule makes.
pub fn apply_rules(
    op: usize,
    w: &mut [i64],
    p: usize,
    n: usize,
    c: i64,
    fuel: u64,
    scratch: &mut [i64],
) -> Rewritten
    requires { (p ≤ length w.old) × (n ≤ max_terms) × (op ≤ 7) × (pos 0 <ℤ c) × (nat_abs c ≤ max_divisor) × (length w.old ≤ max_terms) × (length scratch.old ≤ max_terms) }
    ensures { Rewrites op p n c fuel w.old w.new (length scratch.old) result.small result.terms result.end }
{
    if fuel == 0 {
        return Rewritten {
            small: false,
            terms: 0,
            end: p,
        };
    }
    if !is_small_sum(w, p, n) {
        return Rewritten {
            small: false,
            terms: 0,
            end: p,
        };
    }
    match super::applying::apply_rule(op, w, p, n, c, scratch) {
        Applied::Passed => {
            return Rewritten {
                small: false,
                terms: 0,
                end: p,
            };
        }
        Applied::Sum(terms, end) => {
            return settle(scratch, terms, end, w, p);
        }
        Applied::Again(g) => {
            let a = hold_both(scratch, g.end, g.rest_end, w, p);
            let r = apply_rules(op, w, a, g.terms, g.divisor, fuel - 1, scratch);
            let small = r.small;
            if !small {
                return Rewritten {
                    small: false,
                    terms: 0,
                    end: p,
                };
            }
            return join(g.factor, w, a, r.terms, p, g.rest_terms, scratch);
        }
    }
}
