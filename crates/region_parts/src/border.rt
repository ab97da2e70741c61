//! The columns of a region that no other region sees.

ghost use Rattle.std.specs.Prelude.{◌≡◌, ◌≢◌, ◌+◌, ◌≤◌};
ghost use Rattle.cell_grid.specs.Grid.{IsRegion};
ghost use Rattle.region_parts.specs.Border.{IsBorderOf};

use cell_grid::Strip;
use local_run::Home;

/// The columns whose cells no other region sees: those from `first` on, below `end`.
#[derive(Clone, Copy)]
pub struct Border {
    pub(crate) first: u32,
    pub(crate) end: u32,
}

impl Border {
    /// Those of a region. Each region beside it sees one column of it.
    pub fn new(home: &Home) -> Border
        requires { IsRegion home.now.grid home.now.number }
        ensures { IsBorderOf home.now result }
    {
        let strip = home.grid.strip(home.number);
        let first = first_unseen(home, &strip);
        let end = end_unseen(home, &strip);
        Border { first, end }
    }
}

// The first own column that no region on the left sees.
fn first_unseen(home: &Home, strip: &Strip) -> u32
    requires { strip.now.first ≤ 1024 }
    ensures none_before { home.now.number ≡ 0 → result ≡ 0 }
    ensures before { home.now.number ≢ 0 → result ≡ strip.now.first + 1 }
{
    if home.number == 0 { 0 } else { strip.first + 1 }
}

// One past the last own column that no region on the right sees.
fn end_unseen(home: &Home, strip: &Strip) -> u32
    requires number { IsRegion home.now.grid home.now.number }
    requires some { 1 ≤ strip.now.end }
    ensures none_after { home.now.number + 1 ≡ home.now.grid.regions → result ≡ strip.now.end }
    ensures after { home.now.number + 1 ≢ home.now.grid.regions → result + 1 ≡ strip.now.end }
{
    let regions = home.grid.regions();
    if home.number + 1 == regions {
        strip.end
    } else {
        strip.end - 1
    }
}
