// A layout that stands twice in a station's list.
ghost use Rattle.std.specs.Prelude.{◌≡◌};
ghost use Rattle.route.specs.Loading.{Fit, station_repeat};

use super::{Station, same};
use refusal::Refusal;

// Station i is refused at the first repeat of its list, with both places: the later place is searched from the front.
pub fn station_repeat(rank: usize, station: Station, i: usize) -> Result<(), Refusal>
    requires { Fit rank station }
    ensures { result ≡ station_repeat station i }
{
    for later in 0..station.count {
        for earlier in 0..later {
            if same::same_layout(rank, station.layouts[earlier], station.layouts[later]) {
                return Err(Refusal::RepeatedLayout(i, earlier, later));
            }
        }
    }
    Ok(())
}
