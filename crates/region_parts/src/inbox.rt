//! What a region heard from the others, and how much of it was taken in.

mod changes;

use region_messages::Trail;
use std::marker::Model;

/// The input queue: for each region by number the trail heard from it, and how many of its messages were
/// taken in.
#[derive(Drop)]
pub struct Inbox {
    regions: u32,
    heard: Vec<Trail>,
    taken: Vec<usize>,
    // The least of the first messages that wait, which each step asks for.
    head: Option<(u32, Stamp)>,
}

impl Model for Inbox {
    ghost use Rattle.region_parts.specs.Inbox.{InboxData, HasHead};

    ghost Value = { InboxData };

    ghost view = { λ a. record { heard = a.heard.items; taken = a.taken.items } };

    ghost invariant = { λ a. HasHead a.regions a.head (record { heard = a.heard.items; taken = a.taken.items }) };
}

ghost use Rattle.std.specs.Prelude.{◌≡◌, ◌↔◌, ◌<◌, length, option_copied, slice_get, IfOk, IsSome, IsTrue};
ghost use Rattle.region_parts.specs.Inbox.{HasInboxSizes, inbox_of, empty_inbox, taken_from, next_from, with_taken, nearer_of, IsLeastHead, HasStamp, IsSharedHead};

use crate::trails::empty_trails;
use event_stamps::Stamp;
use local_run::MAX_ENTRIES;
use region_view::Message;
use std::alloc::{AllocError, Global};

impl Inbox {
    /// Nothing heard from any of `regions` regions.
    ///
    /// # Errors
    /// Out of memory.
    pub fn new(alloc: Global, regions: u32) -> Result<Inbox, AllocError>
        ensures { IfOk result (λ inbox. inbox ≡ empty_inbox regions) }
    {
        let taken = vec![in alloc; 0; regions as usize]?;
        Ok(Inbox {
            regions,
            heard: empty_trails(alloc, regions)?,
            taken,
            head: None,
        })
    }

    /// What was heard from a region, by number; none if and only if there is no such region.
    pub fn heard(&self, from: u32) -> Option<&Trail>
        ensures { option_copied result ≡ slice_get self.now.heard from }
    {
        self.heard.get(from as usize)
    }

    /// The first message of a region that wasn't taken in; none if and only if there is none.
    pub fn next(&self, from: u32) -> Option<&Message>
        ensures { option_copied result ≡ next_from self.now from }
    {
        first_of(&self.heard, &self.taken, from)
    }

    /// The least stamp of the first messages of all regions, with the region; if several have that stamp, the least
    /// region.
    #[inline(always)]
    pub fn least(&self) -> Option<(u32, Stamp)>
        ensures { IsLeastHead self.now result }
    {
        self.head
    }

    /// Whether the first message of another region has this stamp.
    pub fn is_shared(&self, from: u32, stamp: &Stamp) -> bool
        ensures { IsTrue result ↔ IsSharedHead self.now from stamp.now }
    {
        for other in 0..self.regions {
            if other != from && has_stamp(self.next(other), stamp) {
                return true;
            }
        }
        false
    }

    /// Takes in the first message of a region; there has to be one.
    pub fn take(&mut self, from: u32)
        requires waits { IsSome (next_from self.old from) }
        requires room { taken_from self.old from < MAX_ENTRIES }
        ensures { self.new ≡ with_taken self.old from }
    {
        self.taken[from as usize] += 1;
        self.head = least_head(self.regions, &self.heard, &self.taken);
    }
}

// The first message of a region that wasn't taken in, given what was heard from all regions and how much was taken in.
#[inline(always)]
fn first_of<'a>(heard: &'a [Trail], taken: &[usize], from: u32) -> Option<&'a Message>
    requires { length heard.now ≡ length taken.now }
    ensures { option_copied result ≡ next_from (inbox_of heard.now taken.now) from }
{
    let count = taken.get(from as usize)?;
    heard.get(from as usize)?.get(*count)
}

// The least stamp of the first messages, by a look at each of `regions` regions.
#[inline(never)]
fn least_head(regions: u32, heard: &[Trail], taken: &[usize]) -> Option<(u32, Stamp)>
    requires { HasInboxSizes regions (inbox_of heard.now taken.now) }
    ensures { IsLeastHead (inbox_of heard.now taken.now) result }
{
    let mut least = None;
    for from in 0..regions {
        least = nearer(least, from, first_of(heard, taken, from));
    }
    least
}

fn nearer(least: Option<(u32, Stamp)>, from: u32, next: Option<&Message>) -> Option<(u32, Stamp)>
    ensures { result ≡ nearer_of least from (option_copied next.entry) }
{
    match (least, next) {
        (least, None) => least,
        (None, Some(message)) => Some((from, message.stamp)),
        (Some(head), Some(message)) => {
            if message.stamp < head.1 {
                Some((from, message.stamp))
            } else {
                Some(head)
            }
        }
    }
}

fn has_stamp(next: Option<&Message>, stamp: &Stamp) -> bool
    ensures { IsTrue result ↔ HasStamp (option_copied next.entry) stamp.now }
{
    match next {
        Some(message) => message.stamp == *stamp,
        None => false,
    }
}
