// The requests on multipliers, `multiplier D` and `quotient N D`, and the answers to them.
#![tactic(auto)]

use reading::Line;
use std::io::Write;
use writing::Failure;

pub fn answer_multiplier<W: Write>(mut line: Line<'_>, out: &mut W) -> Result<(), Failure> {
    let divisor = line.unsigned()?;
    line.finish()?;
    let multiplier = reciprocal::multiplier(divisor)?;
    write!(out, "multiplier {multiplier}")?;
    Ok(())
}

pub fn answer_quotient<W: Write>(mut line: Line<'_>, out: &mut W) -> Result<(), Failure> {
    let number = line.unsigned()?;
    let divisor = line.unsigned()?;
    line.finish()?;
    let quotient = reciprocal::quotient(number, divisor)?;
    write!(out, "quotient {quotient}")?;
    Ok(())
}
