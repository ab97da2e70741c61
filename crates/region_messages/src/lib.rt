//! Messages in the order of their stamps, and where two such lists first disagree.
//!
//! What a region sent and what another heard from it are such lists: the output queue of the one logical
//! process and the input queue of the other (Jefferson, Virtual Time, 1985).
#![tactic(auto)]

use region_view::Message;
use std::marker::Model;

/// Messages whose stamps rise strictly.
#[derive(Drop)]
pub struct Trail {
    messages: Vec<Message>,
    // How many of the first messages haven't changed since the last mark.
    kept: usize,
    // How many messages the hearer had at the last mark.
    heard: usize,
}

impl Model for Trail {
    ghost use Rattle.std.specs.Prelude.{List};
    ghost use Rattle.region_view.specs.declared.rows.Message.{Message};
    ghost use Rattle.region_messages.specs.Trails.{Rises};

    ghost Value = { List Message };

    ghost view = { λ a. a.messages.items };

    ghost invariant = { λ a. Rises a.messages.items };
}

ghost use Rattle.std.specs.Prelude.{◌≡◌, ◌⊎◌, ◌≤◌, ◌<◌, ◌++◌, ◌∷◌, [], length, get_or, take, drop, slice_get, Some, option_copied, OnOk, OnErr, MatchOption, option_map, IsTrue, ◌↔◌};
ghost use Rattle.region_view.specs.declared.rows.Message.{Message};
ghost use Rattle.region_messages.specs.Trails.{Rises, is_before, IsAmong, IsAfterAll, IsFree, with_message, below, from, AgreesUpTo, IsFirstDisagreement, StartAlike};

use event_stamps::{Stamp, earlier};
use std::alloc::{AllocError, Global};

mod laws;

pub use laws::{
    agree_until_first, agree_up_to, agreed_part_is_kept, below_is_before, parts_make_the_whole,
};

impl Trail {
    /// No messages.
    pub fn new(alloc: Global) -> Trail
        ensures { result ≡ [] }
    {
        Trail {
            messages: Vec::new(alloc),
            kept: 0,
            heard: 0,
        }
    }

    /// Appends a message, whose stamp is after those of all others.
    ///
    /// # Errors
    /// Out of memory: the trail stays as it is.
    pub fn push(&mut self, message: Message) -> Result<(), AllocError>
        requires { IsAfterAll self.old message.stamp }
        ensures pushed { OnOk result (self.new ≡ self.old ++ message ∷ []) }
        ensures unchanged { OnErr result (self.new ≡ self.old) }
    {
        self.messages.push(message)?;
        Ok(())
    }

    /// The number of messages.
    pub fn len(&self) -> usize
        ensures { result ≡ length self.now }
    {
        self.messages.len()
    }

    /// The message at a place, from 0 on; none if and only if there is none.
    pub fn get(&self, i: usize) -> Option<&Message>
        ensures value { option_copied result ≡ slice_get self.now i }
        ensures rises { Rises self.now }
    {
        self.messages.get(i)
    }

    /// The message with this stamp; none if and only if no message has it.
    pub fn at(&self, stamp: Stamp) -> Option<&Message>
        ensures { MatchOption (option_copied result) (IsFree stamp self.now) (λ m. IsAmong m self.now × (m.stamp ≡ stamp)) }
    {
        let place = count_below(&self.messages, stamp);
        if is_stamp(stamp_at(&self.messages, place), &stamp) {
            self.get(place)
        } else {
            None
        }
    }

    /// Whether no message has this stamp.
    pub fn is_free(&self, stamp: Stamp) -> bool
        ensures { IsTrue result ↔ IsFree stamp self.now }
    {
        self.at(stamp).is_none()
    }

    /// Takes away the messages from the stamp `at` on. Takes no memory.
    pub fn cut_from(&mut self, at: Stamp)
        ensures { self.new ≡ below at self.old }
    {
        let kept = count_below(&self.messages, at);
        self.messages.truncate(kept);
        self.kept = self.kept.min(kept);
    }

    /// Takes away the messages before the stamp `at`. Takes no memory.
    pub fn drop_before(&mut self, at: Stamp)
        ensures { self.new ≡ from at self.old }
    {
        let dropped = count_below(&self.messages, at);
        let rest = self.messages.len() - dropped;
        self.messages.copy_within(dropped.., 0);
        self.messages.truncate(rest);
        self.kept = self.kept.saturating_sub(dropped);
        self.heard = self.heard.saturating_sub(dropped);
    }

    /// Takes the messages of `other` from the stamp `at` on; its own messages from there on go.
    ///
    /// # Errors
    /// Out of memory: its own messages before `at` stay.
    pub fn replace_from(&mut self, at: Stamp, other: &Trail) -> Result<(), AllocError>
        ensures replaced { OnOk result (self.new ≡ below at self.old ++ from at other.now) }
        ensures cut { OnErr result (self.new ≡ below at self.old) }
    {
        self.cut_from(at);
        let start = count_below(&other.messages, at);
        self.messages.extend_from_slice(&other.messages[start..])
    }

    /// Puts a message at its place. No other message may have its stamp.
    ///
    /// # Errors
    /// Out of memory: the trail stays as it is.
    pub fn insert(&mut self, message: Message) -> Result<(), AllocError>
        requires { IsFree message.stamp self.old }
        ensures inserted { OnOk result (self.new ≡ with_message message self.old) }
        ensures unchanged { OnErr result (self.new ≡ self.old) }
    {
        let place = count_below(&self.messages, message.stamp);
        self.messages.insert(place, message)?;
        self.kept = self.kept.min(place);
        Ok(())
    }

    /// Marks the messages that it has now: a hearer that has heard all of them needs to look only at what changes from
    /// now on (see [`first_news`]). `heard` is how many messages the hearer has then.
    pub fn mark(&mut self, heard: usize)
        ensures { self.new ≡ self.old }
    {
        self.kept = self.messages.len();
        self.heard = heard;
    }

    /// Brings a copy of the trail up to date. The copy was made when the trail was last marked. Messages that haven't
    /// changed since then stay in the copy, the others are copied again. From the stamp of the first of these on the
    /// copy loses what it had, so its stamps rise, whatever it was a copy of.
    ///
    /// # Errors
    /// Out of memory: the copy lacks its last messages, and the mark stays.
    pub fn post_to(&mut self, copy: &mut Trail) -> Result<(), AllocError>
        ensures unchanged { self.new ≡ self.old }
        ensures rises { Rises copy.new }
        ensures among { (m : Message) → IsAmong m copy.new → IsAmong m copy.old ⊎ IsAmong m self.old }
    {
        copy.keep_first(self.kept);
        if let Some(next) = stamp_at(&self.messages, copy.len()) {
            copy.replace_from(next, self)?;
        }
        self.mark(self.len());
        Ok(())
    }

    /// Forgets the last mark: all messages count as changed.
    pub fn forget(&mut self)
        ensures { self.new ≡ self.old }
    {
        self.kept = 0;
        self.heard = 0;
    }

    // Keeps the first `count` messages.
    fn keep_first(&mut self, count: usize)
        ensures first { self.new ≡ take count self.old }
        ensures rises { Rises self.new }
    {
        self.messages.truncate(count);
        self.kept = self.kept.min(count);
    }

    /// Whether the hearer of the last mark may find something new: a message that it doesn't have, or one that is gone.
    pub fn has_news(&self) -> bool {
        self.kept < self.messages.len().max(self.heard)
    }
}

/// The first stamp at which the two differ: there only one of them has a message, or their messages have other rows.
/// None if they are the same. Takes no memory.
pub fn first_disagreement(a: &Trail, b: &Trail) -> Option<Stamp>
    ensures agree { MatchOption result (a.now ≡ b.now) (λ d. AgreesUpTo a.now b.now d) }
    ensures first { MatchOption result (a.now ≡ b.now) (IsFirstDisagreement a.now b.now) }
{
    let same = count_same(&a.messages, &b.messages);
    earlier(stamp_at(&a.messages, same), stamp_at(&b.messages, same))
}

/// Where what is told begins to differ from what was heard.
#[derive(Clone, Copy)]
pub struct News {
    /// The stamp from which on they differ.
    pub at: Stamp,
    /// How many messages they have in common before it.
    pub known: usize,
}

/// Where what is told begins to differ from what was heard. None if nothing is new.
///
/// Two beginnings are taken to be the same in both: the messages of `told` that haven't changed since it was marked,
/// and the first `known` messages.
///
/// `clock` is the stamp of the last entry of the region that tells. A message that was heard and isn't told any more
/// counts once that region is past it. Until then the hearer waits for it, since what was taken back mostly comes back
/// the same (lazy cancellation: Gafni, Rollback mechanisms for optimistic distributed simulation systems, 1988).
/// Constant time if nothing is new.
pub fn first_news(heard: &Trail, told: &Trail, clock: Option<Stamp>, known: usize) -> Option<News> {
    let known = told.kept.max(known).min(heard.len()).min(told.len());
    let old = &heard.messages[known..];
    let new = &told.messages[known..];
    let same = count_same(old, new);
    let at = earlier(passed_by(clock, stamp_at(old, same)), stamp_at(new, same))?;
    Some(News {
        at,
        known: known.saturating_add(same),
    })
}

// A stamp, if a clock is after it.
fn passed_by(clock: Option<Stamp>, stamp: Option<Stamp>) -> Option<Stamp> {
    match (clock, stamp) {
        (Some(clock), Some(stamp)) if stamp < clock => Some(stamp),
        _ => None,
    }
}

// How many messages two lists have in common at the front.
fn count_same(a: &[Message], b: &[Message]) -> usize
    ensures { StartAlike result a.now b.now }
{
    let mut same = 0;
    for m in a {
        let Some(n) = b.get(same) else {
            return same;
        };
        if !is_same(m, n) {
            return same;
        }
        same += 1;
    }
    same
}

// The stamp of the message at a place, if there is one.
fn stamp_at(messages: &[Message], i: usize) -> Option<Stamp>
    ensures { result ≡ option_map (λ m. m.stamp) (slice_get messages.now i) }
{
    match messages.get(i) {
        Some(message) => Some(message.stamp),
        None => None,
    }
}

// Whether there is a stamp, and it is this one.
fn is_stamp(stamp: Option<Stamp>, at: &Stamp) -> bool
    ensures { IsTrue result ↔ (stamp ≡ Some at.now) }
{
    match stamp {
        Some(own) => own == *at,
        None => false,
    }
}

// How many messages are before a stamp. It searches from the end on, since the stamps asked for are mostly near it.
fn count_below(messages: &[Message], at: Stamp) -> usize
    requires { Rises messages.now }
    ensures within { result ≤ length messages.now }
    ensures below { take result messages.now ≡ below at messages.now }
    ensures from { drop result messages.now ≡ from at messages.now }
{
    let mut count = messages.len();
    while count > 0 && !is_earlier(messages, count - 1, at) {
        count -= 1;
    }
    count
}

// Whether the message at a place is before a stamp.
#[inline(always)]
fn is_earlier(messages: &[Message], place: usize, at: Stamp) -> bool
    requires within { place < length messages.now }
    ensures { (m : Message) → result ≡ is_before (get_or messages.now place m).stamp at }
{
    messages[place].stamp < at
}

// Whether two messages are the same.
fn is_same(m: &Message, n: &Message) -> bool
    ensures { IsTrue result ↔ (m.now ≡ n.now) }
{
    m.stamp == n.stamp && m.rows.as_slice() == n.rows.as_slice()
}
