//! The order of the slots that a seat holds.

ghost use Rattle.std.specs.Prelude.{◌≡◌, ◌<◌, ◌≤◌, ◌++◌, ◌==◌, true, length, drop, take, slice_index};
ghost use Rattle.std.specs.List.{list_any};

use crate::rule::Token;

/// The place of a slot among those that are held.
pub(crate) fn place_of(order: &[u32], slot: u32) -> usize
    requires { list_any (λ s. slot == s) order.now ≡ true }
    ensures { (result < length order.now) × (slice_index order.now result ≡ slot) }
{
    for place in 0..order.len() {
        if order[place] == slot {
            return place;
        }
    }
    unreachable!()
}

/// Moves the given number of slots, the latest ones, behind the others.
pub(crate) fn turn(token: &mut Token, times: usize)
    requires { times ≤ length token.old.me.1 }
    ensures same { (token.new.table_id ≡ token.old.table_id) × (token.new.id ≡ token.old.id) }
    ensures turned { token.new.me ≡ (token.old.me.0, drop times token.old.me.1 ++ take times token.old.me.1) }
{
    for _ in 0..times {
        token.turn();
    }
}
