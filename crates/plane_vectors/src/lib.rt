//! Vectors in the plane, in whole numbers: places, velocities and the differences of these.
#![tactic(auto)]

ghost use Rattle.std.specs.Prelude.{◌≡◌, ◌+◌, ◌-◌, ◌*◌, ◌^◌, ◌≤◌, nat_abs};
ghost use Rattle.plane_vectors.specs.Vectors.{sum, difference, dot, after, IsWithin};

/// A vector in the plane: a place in units of length, or a velocity in units of length per tick.
#[derive(Clone, Copy, Debug, PartialEq, Eq)]
pub struct Vector {
    /// The component to the right.
    pub x: i64,
    /// The component upwards.
    pub y: i64,
}

impl Vector {
    /// The sum of two vectors, whose components are below 2^62 in size.
    pub fn plus(self, other: Vector) -> Vector
        requires own { IsWithin (2 ^ 62 - 1) self }
        requires other { IsWithin (2 ^ 62 - 1) other }
        ensures { result ≡ sum self other }
    {
        Vector {
            x: self.x + other.x,
            y: self.y + other.y,
        }
    }

    /// This vector less the other; the components of both are below 2^62 in size.
    pub fn minus(self, other: Vector) -> Vector
        requires own { IsWithin (2 ^ 62 - 1) self }
        requires other { IsWithin (2 ^ 62 - 1) other }
        ensures { result ≡ difference self other }
    {
        Vector {
            x: self.x - other.x,
            y: self.y - other.y,
        }
    }

    /// The scalar product of two vectors, whose components are below 2^31 in size.
    pub fn dot(self, other: Vector) -> i64
        requires own { IsWithin (2 ^ 31 - 1) self }
        requires other { IsWithin (2 ^ 31 - 1) other }
        ensures value { result ≡ dot self other }
        ensures size { nat_abs result ≤ nat_abs self.x * nat_abs other.x + nat_abs self.y * nat_abs other.y }
    {
        self.x * other.x + self.y * other.y
    }

    /// The place that a point starting here reaches in `ticks` ticks, at most 2^40, with a velocity of components up to
    /// 2^21.
    pub fn after(self, velocity: Vector, ticks: u64) -> Vector
        requires own { IsWithin (2 ^ 31) self }
        requires velocity { IsWithin (2 ^ 21) velocity }
        requires ticks { ticks ≤ 2 ^ 40 }
        ensures { result ≡ after self velocity ticks }
    {
        let ticks = ticks as i64;
        Vector {
            x: self.x + velocity.x * ticks,
            y: self.y + velocity.y * ticks,
        }
    }
}
