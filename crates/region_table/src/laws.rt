//! Laws of tables, for those who read the definitions alone.

ghost use Rattle.region_table.specs.Laws.{HomesStillStand, TakenStillStand};

/// If the regions with which a table was opened stand on a state, what is at home in a slot still stands on it, unless
/// it is spent, whatever the seats did.
pub fn homes_still_stand()
    ensures { HomesStillStand }
{}

/// A region that a seat takes out of such a table stands on that state, unless it is spent.
pub fn taken_still_stand()
    ensures { TakenStillStand }
{}
