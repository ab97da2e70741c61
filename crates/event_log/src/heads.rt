//! What is kept of each entry in one place: its stamp, and the place of the rest.

ghost use Rattle.std.specs.Prelude.{◌≡◌, ◌+◌, ◌<◌, ◌≤◌, ◌^◌, length, get_or, take, drop, ◌++◌, map, All, true, false};
ghost use Rattle.std.specs.List.Sorted.{IsPartitionedBy, IsPartitionPoint};
ghost use Rattle.region_messages.specs.Trails.{is_before};
ghost use Rattle.event_log.specs.declared.heads.Head.{Head};
ghost use Rattle.event_log.specs.Heads.{edge_of, row_place, whole_place, raised_head, lowered};

use event_stamps::Stamp;

/// How an entry is kept.
#[derive(Clone, Copy)]
pub enum Form {
    /// A crossing: the row before it is kept; the cell after it is in the head.
    Crossing,
    /// A collision of one disk: the row before it is kept, and the record after it.
    Single,
    /// A collision of two disks: both rows before it are kept, and both records after it.
    Double,
    /// Anything else: a message, or an action with a number that is too great for a narrow row.
    Whole,
}

/// The head of an entry.
#[derive(Clone, Copy)]
pub struct Head {
    /// The stamp of the entry.
    pub stamp: Stamp,
    /// The cell after a crossing.
    pub cell: u32,
    /// How many narrow rows the entries before it have, which is the place of its first one.
    pub row: u32,
    /// How many of the entries before it are kept whole, which is its own place if it is.
    pub whole: u32,
    /// How it is kept.
    pub form: Form,
}

/// The place of an entry's first narrow row, and its place among the entries kept whole, if it is one. For the place
/// past the last entry, the answers are `rows` and `wholes`.
#[inline(always)]
pub fn edge(heads: &[Head], at: usize, rows: usize, wholes: usize) -> (usize, usize)
    ensures row { result.0 ≡ edge_of row_place rows heads.now at }
    ensures whole { result.1 ≡ edge_of whole_place wholes heads.now at }
{
    match heads.get(at) {
        Some(head) => (head.row as usize, head.whole as usize),
        None => (rows, wholes),
    }
}

/// How many heads are before a stamp, if all of these come first. It searches from the end on, since late messages
/// mostly belong near it.
pub fn count_earlier(heads: &[Head], at: Stamp) -> usize
    requires { IsPartitionedBy (λ h. is_before h.stamp at) heads.now }
    ensures within { result ≤ length heads.now }
    ensures place { IsPartitionPoint (λ h. is_before h.stamp at ≡ true) (λ h. is_before h.stamp at ≡ false)
        heads.now result }
{
    let mut count = heads.len();
    while count > 0 && !is_earlier(heads, count - 1, at) {
        count -= 1;
    }
    count
}

// Whether the head at a place is before a stamp.
#[inline(always)]
fn is_earlier(heads: &[Head], place: usize, at: Stamp) -> bool
    requires within { place < length heads.now }
    ensures { (h : Head) → result ≡ is_before (get_or heads.now place h).stamp at }
{
    heads[place].stamp < at
}

/// Counts one more entry that is kept whole before those from the place `at` on.
pub fn raise_from(heads: &mut [Head], at: usize)
    requires place { at ≤ length heads.old }
    requires room { All (λ h. h.whole + 1 < 2 ^ 32) heads.old }
    ensures { heads.new ≡ take at heads.old ++ map raised_head (drop at heads.old) }
{
    raise(&mut heads[at..]);
}

// Counts one more entry that is kept whole before these.
fn raise(heads: &mut [Head])
    requires room { All (λ h. h.whole + 1 < 2 ^ 32) heads.old }
    ensures { heads.new ≡ map raised_head heads.old }
{
    for head in heads.iter_mut() {
        head.whole += 1;
    }
}

/// Takes off `rows` narrow rows and `wholes` entries kept whole, which were before these and are gone.
pub fn lower(heads: &mut [Head], rows: u32, wholes: u32)
    requires places { All (λ h. (rows ≤ h.row) × (wholes ≤ h.whole)) heads.old }
    ensures { heads.new ≡ map (lowered rows wholes) heads.old }
{
    for head in heads.iter_mut() {
        head.row -= rows;
        head.whole -= wholes;
    }
}
