// Division by the numbers from 1 to 1,024 through a table of multipliers, one for each divisor.
#![tactic(auto)]

pub mod inner;

ghost use Rattle.std.specs.Prelude.{◌≡◌};
ghost use Rattle.refusal.specs.Judge.{judge};
ghost use Rattle.reciprocal.specs.Answers.{divisor_rules, reckoned_answer, multiplier_entry, floor_quotient};

use refusal::Refusal;

// The largest divisor of the table.
pub const MAX_DIVISOR: u64 = 1024;

// Whether the table has a place for a divisor.
fn judge_divisor(d: u64) -> Result<(), Refusal>
    ensures { result ≡ judge (divisor_rules d) }
{
    if (1..=MAX_DIVISOR).contains(&d) {
        Ok(())
    } else {
        Err(Refusal::Attribute)
    }
}

// The multiplier of a divisor.
pub fn multiplier(d: u64) -> Result<u64, Refusal>
    ensures { reckoned_answer result ≡ multiplier_entry d }
{
    judge_divisor(d)?;
    let table = inner::multipliers();
    Ok(table.at[(d - 1) as usize])
}

// A number divided by a divisor, rounded down.
pub fn quotient(n: u64, d: u64) -> Result<u64, Refusal>
    ensures { reckoned_answer result ≡ floor_quotient n d }
{
    judge_divisor(d)?;
    let table = inner::multipliers();
    Ok(inner::divide(n, d, &table.at).quotient)
}
