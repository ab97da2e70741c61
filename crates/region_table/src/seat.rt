//! The seat with which a worker takes regions out.

ghost use Rattle.region_table.specs.Tables.{SeatData, seat_code, IsKeptSeat};

use crate::rule::Token;
use arrayvec::ArrayVec;
use cell_grid::MAX_REGIONS;
use std::marker::Model;

/// The most slots that a seat holds: those of all regions of a grid.
pub(crate) const MAX_HELD: usize = MAX_REGIONS as usize;

/// A seat, with which a worker takes regions out. Contracts see the table's name, and what the seat knows of the table.
//
// It keeps the words that it saw: with versions alone a `take_out` that does nothing and answers `Away` would meet its
// clause. A seat with all parts knows that it is alone; after 127 splits of one seat it doesn't.
#[derive(Drop)]
pub struct TableSeat {
    pub(crate) token: Token,
    // The slots that it holds, the latest first.
    pub(crate) order: ArrayVec<u32, MAX_HELD>,
}

impl Model for TableSeat {
    ghost Value = { SeatData };

    ghost coded = { seat_code };

    ghost view = { λ s. record { table = s.token.table_id; view = s.token.me.0 } };

    ghost invariant = { λ s. IsKeptSeat s.token.me s.order.items };
}
