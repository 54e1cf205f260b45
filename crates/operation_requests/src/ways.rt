// The way of a map, the last argument of a request for one.
use operations::Way;
use reading::{Line, Unreadable};

// A way of a reduce: between its output and its input, or its output and its initial value.
#[derive(Clone, Copy)]
pub enum ReduceWay {
    Input(Way),
    Init(Way),
}

// Reads the way that ends the request.
pub fn read_way(line: &mut Line<'_>) -> Result<Way, Unreadable> {
    let at = line.unreadable();
    let way = match line.hyphenated() {
        b"out-to-in" => Way::OutputToInput,
        b"in-to-out" => Way::InputToOutput,
        _ => return Err(at),
    };
    line.finish()?;
    Ok(way)
}

// Reads the way that ends the request for a reduce.
pub fn read_reduce_way(line: &mut Line<'_>) -> Result<ReduceWay, Unreadable> {
    let at = line.unreadable();
    let way = match line.hyphenated() {
        b"out-to-in" => ReduceWay::Input(Way::OutputToInput),
        b"in-to-out" => ReduceWay::Input(Way::InputToOutput),
        b"out-to-init" => ReduceWay::Init(Way::OutputToInput),
        b"init-to-out" => ReduceWay::Init(Way::InputToOutput),
        _ => return Err(at),
    };
    line.finish()?;
    Ok(way)
}
