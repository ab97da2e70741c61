//! Regions that hear what others posted to them, run, and post what they send, each under its own lock.

ghost use Rattle.std.specs.Prelude.{◌<◌};

use super::Locks;
use crate::held::Held;
use crate::origin::Origin;
use crate::post::Post;
use crate::progress::RegionProgress;
use crate::trying::try_often;
use event_stamps::Stamp;
use local_run::FARTHEST;
use std::alloc::{AllocError, Global};
use std::sync::atomic::Ordering;
use std::sync::{Mutex, MutexGuard};

impl<O: Origin> Locks<O> {
    /// Under the lock of a region, has it hear what others posted to it; lets it run up to `steps` steps while what is
    /// due there is before a bound; and has it post what it sends. The answer says how far it came; it is none if
    /// somebody else holds the lock. A region that was taken back is spent: it makes no step, and its floor counts as
    /// due.
    ///
    /// A post that somebody else holds is left for the next call, and counts as news: else a burst might end though the
    /// region has something to hear or to post.
    ///
    /// # Errors
    /// Out of memory: the region is spent, or a post lacks the last messages.
    pub fn hear_and_run(
        &self,
        alloc: Global,
        region: u32,
        steps: u32,
        bound: Stamp,
    ) -> Result<Option<RegionProgress>, AllocError>
        requires region { region < self.now }
        requires steps { 0 < steps }
    {
        let Some(mut held) = self.try_hold(region) else {
            return Ok(None);
        };
        let has_heard = self.hear_posts(alloc, region, &mut held)?;
        let progress = held.run_before(alloc, steps, bound)?;
        let is_left = self.post_all(region, &mut held)?;
        Ok(Some(RegionProgress {
            has_news: has_heard || is_left,
            ..progress
        }))
    }

    // Has a region, whose lock is held, hear what others posted to it. The answer says whether anything was new, or may
    // be new in a post that somebody else holds.
    fn hear_posts(
        &self,
        alloc: Global,
        region: u32,
        held: &mut Held<O>,
    ) -> Result<bool, AllocError> {
        let end = region.saturating_add(FARTHEST + 1).min(self.count());
        let mut has_news = false;
        for from in region.saturating_sub(FARTHEST)..end {
            if from != region && self.has_news(from, region) {
                let is_new = self.hear_post(alloc, from, region, held)?;
                has_news = has_news || is_new;
            }
        }
        Ok(has_news)
    }

    fn hear_post(
        &self,
        alloc: Global,
        from: u32,
        region: u32,
        held: &mut Held<O>,
    ) -> Result<bool, AllocError>
        requires { from < self.now }
    {
        let Some(lock) = self.post(from, region) else {
            return Ok(false);
        };
        let Some(mut post) = try_often(lock) else {
            return Ok(true);
        };
        let is_new = held.hear(alloc, &mut post)?;
        if !post.has_news() {
            self.regions[from as usize]
                .news
                .fetch_and(!bit(region), Ordering::SeqCst);
        }
        Ok(is_new)
    }

    // Brings the posts of a region, whose lock is held, up to date: those that lack something, and those in which
    // something is still new, since their hearers may wait for its clock. The answer says whether one is left, since
    // somebody else holds it.
    fn post_all(&self, number: u32, held: &mut Held<O>) -> Result<bool, AllocError>
        requires { number < self.now }
    {
        let end = number.saturating_add(FARTHEST + 1).min(self.count());
        let mut is_left = false;
        for to in number.saturating_sub(FARTHEST)..end {
            if to != number && (held.has_news(to) || self.has_news(number, to)) {
                let is_posted = self.post_one(number, to, held)?;
                is_left = is_left || !is_posted;
            }
        }
        Ok(is_left)
    }

    // Brings one post up to date. False if somebody else holds it.
    fn post_one(&self, number: u32, to: u32, held: &mut Held<O>) -> Result<bool, AllocError>
        requires { number < self.now }
    {
        let Some(lock) = self.post(number, to) else {
            return Ok(true);
        };
        let Some(mut post) = try_often(lock) else {
            return Ok(false);
        };
        held.bring(&mut post)?;
        // The bit is only written if it changes, since other workers have its line of the cache.
        if post.has_news() && !self.has_news(number, to) {
            self.regions[number as usize]
                .news
                .fetch_or(bit(to), Ordering::SeqCst);
        }
        Ok(true)
    }

    // Whether a region posted something that another may find new. Takes no lock.
    fn has_news(&self, from: u32, to: u32) -> bool
        requires { from < self.now }
    {
        self.regions[from as usize].news.load(Ordering::SeqCst) & bit(to) != 0
    }

    /// Takes the lock of the post of a region to another, if it is free at one of some looks; none also if the two are
    /// too far apart to be linked. Nobody else reads or writes that post until the guard that is answered is dropped.
    pub fn try_hold_post(&self, from: u32, to: u32) -> Option<MutexGuard<'_, Post<O>>>
        requires { from < self.now }
    {
        try_often(self.post(from, to)?)
    }

    // The post of a region to another; none if the two are too far apart to be linked.
    fn post(&self, from: u32, to: u32) -> Option<&Mutex<Post<O>>>
        requires { from < self.now }
    {
        let place = to.saturating_add(FARTHEST).checked_sub(from)?;
        match self.regions[from as usize].posts.get(place as usize) {
            Some(post) => Some(post),
            None => None,
        }
    }
}

// The bit of a number. If there are more numbers than bits, some share a bit, and look for each other's news.
fn bit(number: u32) -> u64 {
    1 << (number % 64)
}
