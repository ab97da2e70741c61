//! The least of some keys, kept while single ones change.

ghost use Rattle.std.specs.Prelude.{◌≡◌, ◌+◌, ◌*◌, ◌<◌, ◌≤◌, ◌^◌, [], length, map, slice_set, drop, IfOk};
ghost use Rattle.event_tree.specs.Keys.{IsLeastKey, IsLeastFrom, IsTree, IsTreeBut, IsBlank};

use crate::rank::Rank;
use std::alloc::{AllocError, Global};
use std::marker::Model;

// Some keys, as the leaves of a tournament tree.
#[derive(Drop)]
pub(crate) struct Tree<K: Rank> {
    // Key i is at first + i. At each k below first is the least of the four from 4 k + 2 on. The two at the top, from 0
    // on, have no node above them. A big block of memory mostly begins 16 bytes after a multiple of 64, so the four are
    // in one line of the cache.
    nodes: Vec<K>,
    // Where the keys begin.
    first: usize,
}

impl<K: Rank> Model for Tree<K> {
    ghost use Rattle.std.specs.Prelude.{List, drop, map};
    ghost use Rattle.event_tree.specs.Keys.{Key, IsTree};

    ghost Value = { List Key };

    ghost view = { λ a. drop a.first (map K.key a.nodes.items) };

    ghost invariant = { λ a. IsTree a.first (map K.key a.nodes.items) };
}

impl<K: Rank> Tree<K> {
    // No keys. No memory is taken.
    pub fn new(alloc: Global) -> Tree<K>
        ensures { result ≡ [] }
    {
        Tree {
            nodes: Vec::new(alloc),
            first: 0,
        }
    }

    // Room for `room` keys, or for up to two more.
    pub fn with_room(alloc: Global, room: usize) -> Result<Tree<K>, AllocError>
        requires { room ≤ 2 ^ 33 }
        ensures { IfOk result (IsBlank room) }
    {
        let first = room / 3;
        Ok(Tree {
            nodes: vec![in alloc; K::none(); 4 * first + 2]?,
            first,
        })
    }

    // The least of the keys; none if there is no key.
    #[inline(always)]
    pub fn top(&self) -> K
        ensures { IsLeastKey self.now (K.key result) }
    {
        if self.nodes.is_empty() {
            K::none()
        } else {
            least_of_two(&self.nodes)
        }
    }

    // Sets one of the keys.
    #[inline(always)]
    pub fn set(&mut self, place: usize, key: K)
        requires { place < length self.old }
        ensures { self.new ≡ slice_set self.old place (K.key key) }
    {
        let leaf = self.first + place;
        self.nodes[leaf] = key;
        replay(&mut self.nodes, self.first, leaf);
    }
}

// Plays the nodes above a leaf again, up to the first one whose key doesn't change.
#[inline(always)]
fn replay<K: Rank>(nodes: &mut [K], first: usize, leaf: usize)
    requires most { first ≤ 2 ^ 32 }
    requires leaf { first ≤ leaf }
    requires within { leaf < length nodes.old }
    requires len { length nodes.old ≡ 4 * first + 2 }
    requires tree { IsTreeBut first leaf (map K.key nodes.old) }
    ensures tree { IsTree first (map K.key nodes.new) }
    ensures leaves { drop first nodes.new ≡ drop first nodes.old }
{
    let mut child = leaf;
    while child >= 2 {
        let parent = (child - 2) / 4;
        let key = least_of_four(nodes, 4 * parent + 2);
        if key.is(nodes[parent]) {
            return;
        }
        nodes[parent] = key;
        child = parent;
    }
}

// The least of four keys side by side.
#[inline(always)]
fn least_of_four<K: Rank>(nodes: &[K], start: usize) -> K
    requires { start + 4 ≤ length nodes.now }
    ensures { IsLeastFrom (map K.key nodes.now) start 4 (K.key result) }
{
    // One test of the bounds for all four.
    let four = &nodes[start..start + 4];
    let left = four[0].earlier(four[1]);
    let right = four[2].earlier(four[3]);
    left.earlier(right)
}

// The lesser of the two keys at the top.
#[inline(always)]
fn least_of_two<K: Rank>(nodes: &[K]) -> K
    requires { 2 ≤ length nodes.now }
    ensures { IsLeastFrom (map K.key nodes.now) 0 2 (K.key result) }
{
    nodes[0].earlier(nodes[1])
}
