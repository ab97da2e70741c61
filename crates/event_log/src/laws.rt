//! Laws of logs and the rows that lead back over their entries.

ghost use Rattle.event_log.specs.Undoing.{BaseIsUndone, FirstsAreFound, ChangesLeadBack, SparingIsAside, WovenLeadsBack};
ghost use Rattle.event_log.specs.AtFloor.{BaseViewsAreFound};

/// The view before a log is the view after it once the rows are set that lead back, those of the last entry first.
pub fn base_is_undone()
    ensures { BaseIsUndone }
{}

/// In the view before a log, a disk has the row that the first entry setting it found; if no entry sets it, it has its
/// row in the view after the log.
pub fn firsts_are_found()
    ensures { FirstsAreFound }
{}

/// The rows of a log still lead back after an entry is pushed, and after the last or the first entries are taken away.
pub fn changes_lead_back()
    ensures { ChangesLeadBack }
{}

/// If an entry names no disk of some rows and sets none of them, it sets the same rows whether these are set in the
/// view before or not, and only rows of other disks.
pub fn sparing_is_aside()
    ensures { SparingIsAside }
{}

/// A late message may be put into the middle of a log, before entries that have nothing to do with its rows, together
/// with what stands in the newest view at the numbers of its rows: all entries still lead back.
pub fn woven_leads_back()
    ensures { WovenLeadsBack }
{}

/// The view at the floor of a local run is its newest one with all entries undone. A row in it is the row that the
/// first entry setting its disk found, so no second view needs to be kept.
pub fn base_views_are_found()
    ensures { BaseViewsAreFound }
{}
