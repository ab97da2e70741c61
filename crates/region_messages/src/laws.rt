//! Laws of trails, for those who read the definitions alone.

ghost use Rattle.region_messages.specs.Laws.{AgreeUpTo, AgreeUntilFirst, BelowIsBefore, AgreedPartIsKept, PartsMakeTheWhole};

/// Two trails agree below a stamp if and only if the stamp isn't after the end of their agreement.
pub fn agree_up_to()
    ensures { AgreeUpTo }
{}

/// They agree below a stamp if and only if the stamp isn't after the least one at which they disagree.
pub fn agree_until_first()
    ensures { AgreeUntilFirst }
{}

/// The messages below a stamp are those of the trail that are before it.
pub fn below_is_before()
    ensures { BelowIsBefore }
{}

/// If a trail takes the messages of another one from the end of their agreement on, it becomes the other.
pub fn agreed_part_is_kept()
    ensures { AgreedPartIsKept }
{}

/// The messages below a stamp and those from it on make the whole trail.
pub fn parts_make_the_whole()
    ensures { PartsMakeTheWhole }
{}
