// Nodes written into arrays of kinds and values, as far as there is room, and counted.
ghost use Rattle.std.specs.Prelude.{◌≡◌, ◌+◌, min, set, ◌++◌};
ghost use Rattle.encoding.specs.Written.{counted, factor_nodes, join_nodes, constant_nodes, Room, Put, Written, IsPlace, IsOp};

// The first place at which there is no variable.
pub const NO_PLACE: i64 = 16;

// Writes a kind, if there is room.
fn put_kind(kinds: &mut [u8], at: usize, kind: u8)
    ensures { kinds.new ≡ set kinds.old at kind }
{
    if at < kinds.len() {
        kinds[at] = kind;
    }
}

// Writes a value, if there is room.
fn put_value(values: &mut [i64], at: usize, value: i64)
    ensures { values.new ≡ set values.old at value }
{
    if at < values.len() {
        values[at] = value;
    }
}

// One more, but no further than one past the most nodes of a map.
fn next_place(at: usize) -> usize
    ensures { result ≡ min (at + 1) counted }
{
    at.min(expression::MAX_NODES) + 1
}

// Writes a node, if there is room, and counts it.
pub fn put_node(kinds: &mut [u8], values: &mut [i64], at: usize, kind: u8, value: i64) -> usize
    ensures { Put kind value kinds.old kinds.new values.old values.new at result }
{
    put_kind(kinds, at, kind);
    put_value(values, at, value);
    next_place(at)
}

// A coefficient other than 1 is a product.
fn put_factor(kinds: &mut [u8], values: &mut [i64], at: usize, factor: i64) -> usize
    requires { Room kinds.old values.old at }
    ensures { Written (factor_nodes factor) kinds.old kinds.new values.old values.new at result }
{
    if factor == 1 {
        at
    } else {
        put_node(kinds, values, at, 3, factor)
    }
}

// A term's coefficient, and the sum with what stands before it.
pub fn put_coefficient(
    kinds: &mut [u8],
    values: &mut [i64],
    at: usize,
    coefficient: i64,
    alone: bool,
) -> usize
    requires { Room kinds.old values.old at }
    ensures { Written (factor_nodes coefficient ++ join_nodes alone) kinds.old kinds.new values.old values.new at result }
{
    let end = put_factor(kinds, values, at, coefficient);
    if alone {
        end
    } else {
        put_node(kinds, values, end, 2, 0)
    }
}

// A constant, which stands alone or is added to what stands before it if it is not 0.
pub fn put_constant(
    kinds: &mut [u8],
    values: &mut [i64],
    at: usize,
    constant: i64,
    alone: bool,
) -> usize
    requires { Room kinds.old values.old at }
    ensures { Written (constant_nodes alone constant) kinds.old kinds.new values.old values.new at result }
{
    if alone {
        return put_node(kinds, values, at, 1, constant);
    }
    if constant == 0 {
        return at;
    }
    let end = put_node(kinds, values, at, 1, constant);
    put_node(kinds, values, end, 2, 0)
}

// The place of variable n of a kind: dimensions from 0, range variables from 8; one at which there is none for any other.
pub fn place_of(kind: usize, n: usize) -> i64
    ensures { IsPlace kind n result }
{
    if n < expression::MAX_VARIABLES {
        match kind {
            0 => n as i64,
            1 => (expression::MAX_VARIABLES + n) as i64,
            _ => NO_PLACE,
        }
    } else {
        NO_PLACE
    }
}

// The kind of a node of floordiv or mod, by the number of the operation in words.
pub fn op_kind(op: usize) -> u8
    ensures { IsOp op result }
{
    if op == 3 { 4 } else { 5 }
}
