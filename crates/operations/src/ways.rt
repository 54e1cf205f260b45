// The two ways.
ghost use Rattle.std.specs.Prelude.{◌≡◌};
ghost use Rattle.operation_builder.specs.Family.{is_out};

use operation_maps::Way;

// Whether the map starts from the output.
pub fn is_out(way: Way) -> bool
    ensures { result ≡ is_out way }
{
    matches!(way, Way::OutputToInput)
}
