//! A number or none, in 32 bits.

use std::marker::Model;

// A number below 2^32 - 1, or none, in half the memory of an `Option`.
#[derive(Clone, Copy)]
pub struct Slot {
    // One more than the number, or 0.
    code: u32,
}

impl Model for Slot {
    ghost use Rattle.std.specs.Prelude.{Option, ℕ};
    ghost use Rattle.cell_lists.specs.Slot.{number_of, code_of_number, coded_again};

    ghost Value = { Option ℕ };

    ghost view = { λ a. number_of a.code };

    ghost inverse = { λ o. record { code = code_of_number o } };

    ghost inverse_ok = { λ a h i. record { code = coded_again a.code i } };
}

ghost use Rattle.std.specs.Prelude.{◌≡◌, ◌+◌, ◌<◌, ◌^◌, Some, None, IfSome};

impl Slot {
    pub fn none() -> Slot
        ensures { result ≡ None }
    {
        Slot { code: 0 }
    }

    pub fn of(number: u32) -> Slot
        requires { number + 1 < 2 ^ 32 }
        ensures { result ≡ Some number }
    {
        Slot { code: number + 1 }
    }

    pub fn get(self) -> Option<u32>
        ensures value { result ≡ self }
        ensures small { IfSome result (λ n. n + 1 < 2 ^ 32) }
    {
        if self.code == 0 {
            None
        } else {
            Some(self.code - 1)
        }
    }
}
