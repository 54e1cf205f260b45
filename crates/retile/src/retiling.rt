// The tiles of the source and of the destination of a re-tiling, over the same sizes.
ghost use Rattle.std.specs.Prelude.{◌≡◌};

use tiling::Tiled;

#[derive(Clone, Copy)]
pub struct Retiling<'a, 'b> {
    pub from: Tiled<'a>,
    pub to: Tiled<'b>,
    ghost alike: { to.sizes.now ≡ from.sizes.now },
}
