// The order of sizes by their two sides.
ghost use Rattle.std.specs.Prelude.{◌≡◌};
ghost use Rattle.av1_geometry.specs.Sides.{by_sides};

use std::cmp::Ordering;
use std::cmp::Ordering::*;

/// How one size stands to another, from how its width and its height stand to the other's: sizes with one longer and one shorter side are not ordered.
pub fn by_sides(width: Ordering, height: Ordering) -> Option<Ordering>
    ensures { result ≡ by_sides width height }
{
    match (width, height) {
        (Less, Greater) | (Greater, Less) => None,
        (Equal, order) | (order, _) => Some(order),
    }
}
