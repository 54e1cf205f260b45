// Reading a list of signed numbers into a lent buffer.
use reading::{Line, Unreadable, first_of, put_at};

// Reads one number or more, with commas between them. The answer is how many there are.
fn read_some(line: &mut Line<'_>, buffer: &mut [i64]) -> Result<usize, Unreadable> {
    let most = line.length();
    for place in 0..most {
        put_at(buffer, place, line.number()?);
        if !line.accept(b',') {
            return Ok(place + 1);
        }
    }
    Ok(most)
}

// Reads the numbers, or none, between two brackets.
pub fn read_numbers<'b>(
    line: &mut Line<'_>,
    open: u8,
    close: u8,
    buffer: &'b mut [i64],
) -> Result<&'b [i64], Unreadable> {
    line.expect(open)?;
    if line.accept(close) {
        return Ok(first_of(buffer, 0));
    }
    let count = read_some(line, buffer)?;
    line.expect(close)?;
    Ok(first_of(buffer, count))
}
