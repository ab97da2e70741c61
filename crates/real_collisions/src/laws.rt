//! Laws of one event, for those who read the definitions alone.

ghost use Rattle.real_collisions.specs.Touching.{ContactTicksAreReal};
ghost use Rattle.real_collisions.specs.Elastic.{ExactImpulsesAreElastic, ImpulsesAreElastic};
ghost use Rattle.real_collisions.specs.Laws.{EventsAreReal, FailingEventsAreReal, EventsAreElastic};
ghost use Rattle.real_collisions.specs.AtTheTouch.{ImpulsesAreNearUntil, EventsAreElasticAtTheTouch, FlightKeepsTurning};

/// The contact tick of two disks is the last whole tick before they overlap on their straight ways.
pub fn contact_ticks_are_real()
    ensures { ContactTicksAreReal }
{}

/// The exact impulse reverses the speed at which two disks come nearer, and keeps their energy.
pub fn exact_impulses_are_elastic()
    ensures { ExactImpulsesAreElastic }
{}

/// The impulse of two disks that come nearer differs from the exact elastic one for their places by less than a unit
/// per tick in each component, and the disks recede.
pub fn impulses_are_elastic()
    ensures { ImpulsesAreElastic }
{}

/// Each event of a run comes at the last whole tick before its two disks overlap, or its disk passes its side.
pub fn events_are_real()
    ensures { EventsAreReal }
{}

/// So does the event that fails a limit.
pub fn failing_events_are_real()
    ensures { FailingEventsAreReal }
{}

/// Each event of a run gives two disks such an impulse for their places at its tick, and turns a disk at a side
/// exactly.
pub fn events_are_elastic()
    ensures { EventsAreElastic }
{}

/// Within a tick, up to a moment at which two disks don't overlap, no component of their exact impulse changes by more
/// than u·u / D units per tick, with u their relative velocity in units per tick, and D the distance in units at which
/// they touch.
pub fn impulses_are_near_until_the_touch()
    ensures { ImpulsesAreNearUntil }
{}

/// Two disks of an event touch within the tick that follows. At each moment of it at which they don't overlap, each
/// component of their impulse is at most 1 + u·u / D units per tick from the exact one for their places then, with u
/// and D as above. About any place, their angular momentum changes by less than |r_x| + |r_y|, with r their separation
/// in units at the event's tick.
pub fn events_are_elastic_at_the_touch()
    ensures { EventsAreElasticAtTheTouch }
{}

/// A disk on its straight way has the same angular momentum at each tick, about whatever place.
pub fn flight_keeps_turning()
    ensures { FlightKeepsTurning }
{}
