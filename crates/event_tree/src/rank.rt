//! Keys in either form.

ghost use Rattle.std.specs.Prelude.{◌≡◌, ◌↔◌, None, IsTrue};
ghost use Rattle.event_stamps.specs.Least.{earlier_of};
ghost use Rattle.event_tree.specs.Keys.{Key};

use crate::code::Code;
use crate::packed::Packed;

/// A key, a stamp or none, as a number that is ordered as the keys are.
pub(crate) trait Rank: Copy {
    // Which key it is.
    ghost key: { Self → Key };

    // No key.
    fn none() -> Self
        ensures { key result ≡ None };

    // The earlier of two keys that are both there; else the one that is there, if any.
    fn earlier(self, other: Self) -> Self
        ensures { key result ≡ earlier_of (key self) (key other) };

    // Whether it is the same key.
    fn is(self, other: Self) -> bool
        ensures { IsTrue result ↔ key self ≡ key other };

    // A clone is the same number.
    ghost clones: { (a b : Self) → Self.is_clone a b → b ≡ a };
}

impl Rank for Code {
    ghost key = { λ a. a };

    ghost clones = { λ a b same. same };

    #[inline(always)]
    fn none() -> Code {
        Code::none()
    }

    #[inline(always)]
    fn earlier(self, other: Code) -> Code {
        Code::earlier(self, other)
    }

    #[inline(always)]
    fn is(self, other: Code) -> bool {
        Code::is(self, other)
    }
}

impl Rank for Packed {
    ghost key = { λ a. a };

    ghost clones = { λ a b same. same };

    #[inline(always)]
    fn none() -> Packed {
        Packed::new(None)
    }

    #[inline(always)]
    fn earlier(self, other: Packed) -> Packed {
        Packed::earlier(self, other)
    }

    #[inline(always)]
    fn is(self, other: Packed) -> bool {
        Packed::is(self, other)
    }
}
