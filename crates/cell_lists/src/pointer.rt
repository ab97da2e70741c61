//! A disk or none, and whether the disk has a next one, in 32 bits.

// What is added to the code of a disk that has a next one.
const MORE: u32 = 1 << 31;

// A disk below 2^31 - 1 to which a chain leads, or none, and whether the chain goes on behind it. So the
// last disk of a chain needn't be read to know that it is the last.
#[derive(Clone, Copy)]
pub struct Pointer {
    // One more than the disk, or 0; with `MORE` added if the chain goes on.
    code: u32,
}

ghost use Rattle.std.specs.Prelude.{◌≡◌, ◌↔◌, ◌+◌, ◌<◌, ◌^◌, Some, None, IsSome, IsTrue, MatchOption};
ghost use Rattle.cell_lists.specs.Pointer.{no_pointer, disk_of, SaysMore};

impl Pointer {
    pub fn none() -> Pointer
        ensures { result ≡ no_pointer }
    {
        Pointer { code: 0 }
    }

    // A pointer to a disk, which has a next one or not.
    #[inline(always)]
    pub fn to(disk: u32, has_next: bool) -> Pointer
        requires { disk + 1 < 2 ^ 31 }
        ensures disk { disk_of result ≡ Some disk }
        ensures more { SaysMore result ↔ IsTrue has_next }
    {
        let more = if has_next { MORE } else { 0 };
        Pointer {
            code: disk + 1 + more,
        }
    }

    #[inline(always)]
    pub fn get(self) -> Option<u32>
        ensures { result ≡ disk_of self }
    {
        let code = self.code % MORE;
        if code == 0 { None } else { Some(code - 1) }
    }

    #[inline(always)]
    pub fn is_some(self) -> bool
        ensures { IsTrue result ↔ IsSome (disk_of self) }
    {
        self.code % MORE != 0
    }

    // The disk, without a test for whether there is one; for none, the greatest number of 32 bits.
    #[inline(always)]
    pub fn number(self) -> u32
        ensures { MatchOption (disk_of self) (result ≡ u32.MAX) (λ n. result ≡ n) }
    {
        (self.code % MORE).wrapping_sub(1)
    }

    // Whether the disk has a next one.
    #[inline(always)]
    pub fn has_next(self) -> bool
        ensures { IsTrue result ↔ SaysMore self }
    {
        self.code >= MORE
    }
}
