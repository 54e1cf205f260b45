// Variables: their names in the text, and their places in a record.
use reading::{Line, Unreadable, count_digits};
use std::{fmt, str};

// The most variables of a sort.
const MOST: usize = 8;

// The place of a variable that a record has no place for.
const NOWHERE: usize = 255;

#[derive(Clone, Copy, Debug, PartialEq, Eq)]
pub enum Sort {
    Dimension,
    Range,
}

#[derive(Clone, Copy, Debug, PartialEq, Eq)]
pub struct Variable {
    pub sort: Sort,
    pub number: usize,
}

impl Variable {
    // The place in a record: dimensions from 0, range variables from 8.
    pub fn place(self) -> usize {
        match self.sort {
            _ if self.number >= MOST => NOWHERE,
            Sort::Dimension => self.number,
            Sort::Range => self.number + MOST,
        }
    }

    // The variable at a place of a record.
    pub fn at(place: usize) -> Variable {
        if place < MOST {
            Variable {
                sort: Sort::Dimension,
                number: place,
            }
        } else {
            Variable {
                sort: Sort::Range,
                number: place - MOST,
            }
        }
    }
}

impl fmt::Display for Variable {
    fn fmt<W: fmt::Write>(&self, f: &mut fmt::Formatter<W>) -> fmt::Result {
        let number = self.number;
        match self.sort {
            Sort::Dimension => write!(f, "d{number}"),
            Sort::Range => write!(f, "s{number}"),
        }
    }
}

// Reads a variable, whose digits stand directly behind its letter, where the next token is one. A number that is too large
// is handed on as the largest.
pub fn read_variable(line: &mut Line<'_>) -> Option<Variable> {
    let (sort, behind) = match line.rest() {
        [b'd', behind @ ..] => (Sort::Dimension, behind),
        [b's', behind @ ..] => (Sort::Range, behind),
        _ => return None,
    };
    let digits = &behind[..count_digits(behind)];
    if digits.is_empty() {
        return None;
    }
    let number = str::from_utf8(digits)
        .ok()
        .and_then(|text| text.parse().ok())
        .unwrap_or(usize::MAX);
    line.take(1 + digits.len());
    Some(Variable { sort, number })
}

// Reads the next token, which is that variable.
pub fn expect_variable(line: &mut Line<'_>, variable: Variable) -> Result<(), Unreadable> {
    let at = line.unreadable();
    if read_variable(line) == Some(variable) {
        Ok(())
    } else {
        Err(at)
    }
}
