// The operations' maps: what the definitions name of the code.
#![tactic(auto)]

// From the output to the input, or from the input to the output.
#[derive(Clone, Copy)]
pub enum Way {
    OutputToInput,
    InputToOutput,
}

// What an operation does to one dimension: Keep(size), Flip(size), Cut(start, limit, stride), Shift(by, size).
#[derive(Clone, Copy)]
pub enum Axis {
    Keep(u64),
    Flip(u64),
    Cut(u64, u64, u64),
    Shift(u64, u64),
}
