//! The numbers that can be kept in narrow rows.

ghost use Rattle.std.specs.Prelude.{◌≡◌, IfSome, option_copied};

use region_view::{Compact, Placed, is_small};

/// The narrow form of a row; none if a number is too great for it.
#[inline(always)]
pub fn narrow(row: Option<&Placed>) -> Option<Compact>
    ensures { IfSome result (λ c. c ≡ option_copied row.entry) }
{
    match row {
        Some(placed) => {
            if is_small(placed) {
                Some(Compact::some(placed))
            } else {
                None
            }
        }
        None => Some(Compact::none()),
    }
}
