//! Which disks are listed in which cells, as chains through dense arrays.
//!
//! These are the cell lists of molecular dynamics (Hockney and Eastwood, Computer Simulation Using Particles, 8.4),
//! with a head for each bucket of cells, and for each disk the next one of its bucket beside its cell, since a walk
//! asks for both. The chains ascend. If the grid has at most four times as many cells as there is room for disks, each
//! cell has a bucket of its own; else cells share buckets, so that the empty cells of a great grid take no memory.
//!
//! A pointer to a disk also says whether that disk has a next one, so that a walk ends without a read of the last
//! disk's node. In return, one pointer more is written when a disk comes behind another one, or is taken from behind
//! it.

use crate::pointer::Pointer;
use crate::slot::Slot;
use std::alloc::{AllocError, Global};
use std::marker::Model;

// The most disks that there is room for: one for each number of 31 bits but the greatest, which no pointer holds.
const MOST_ROOM: usize = (1 << 31) - 1;

// The most buckets for each disk that there is room for, if there are that many cells.
const MOST_BUCKETS_A_DISK: usize = 4;

// The node of one disk: the cell in which it is listed, or none, and if it is listed, the next one of its bucket.
#[derive(Clone, Copy)]
pub(crate) struct Node {
    cell: Slot,
    pub(crate) next: Pointer,
}

// The greatest two disks of a bucket that are less than some disk.
#[derive(Clone, Copy)]
struct LastTwo {
    last: Option<u32>,
    second_last: Option<u32>,
}

// The cell in which each disk is listed, or none.
#[derive(Drop)]
pub struct Chains {
    // The least disk of each bucket. The bucket of a cell is its remainder after division by their
    // number.
    heads: Vec<Pointer>,
    nodes: Vec<Node>,
    // How many cells the grid has.
    cell_count: u32,
}

impl Model for Chains {
    ghost use Rattle.std.specs.Prelude.{length};
    ghost use Rattle.cell_lists.specs.Chain.{ChainsData, chains_of, IsChained};
    ghost use Rattle.cell_lists.specs.Nodes.{pointers_of, cells_of};

    ghost Value = { ChainsData };

    ghost view = { λ a. chains_of (length a.heads.items) (cells_of a.nodes.items) };

    ghost invariant = { λ a. IsChained a.heads.items (pointers_of a.nodes.items) (cells_of a.nodes.items) };
}

ghost use Rattle.std.specs.Prelude.{◌≡◌, ◌↔◌, ◌+◌, ◌%◌, ◌<◌, ◌≤◌, ◌^◌, ℕ, length, None, Some, replicate, IfOk, OnOk, IfSome, IsSome, IsTrue};
ghost use Rattle.cell_lists.specs.Firsts.{IsFirstOf};
ghost use Rattle.cell_lists.specs.Nodes.{pointers_of, cells_of};
ghost use Rattle.cell_lists.specs.Pointer.{no_pointer, disk_of, pointer_at, SaysMore};
ghost use Rattle.cell_lists.specs.Chain.{chains_of, bucket_count, with_cell, at, IsCellOf, IsFirst, IsLast, pointer_from, IsPointed, IsMarkedAnew, IsLinked, IsUnlinked, HasRoomFor};
ghost use Rattle.cell_lists.specs.Gathering.{HaveOwnBuckets, LeadsIn};

impl Chains {
    // No disk listed, with room for `room` disks, in a grid of `cell_count` cells.
    pub fn new(alloc: Global, cell_count: u32, room: usize) -> Result<Chains, AllocError>
        requires some { 0 < room }
        requires most { room < 2 ^ 31 }
        ensures { IfOk result (λ chains. chains ≡ chains_of (bucket_count cell_count room) (replicate room None)) }
    {
        let most = MOST_BUCKETS_A_DISK * room;
        let buckets = (cell_count as usize).min(most).max(room);
        Ok(Chains {
            heads: vec![in alloc; Pointer::none(); buckets]?,
            nodes: vec![in alloc; Node::none(); room]?,
            cell_count,
        })
    }

    // Makes room for a disk; which disks are listed stays the same.
    pub fn make_room(&mut self, alloc: Global, disk: u32) -> Result<(), AllocError>
        ensures room { OnOk result (disk < length self.new.cells) }
        ensures same { (i : ℕ) → at self.new.cells i ≡ at self.old.cells i }
    {
        let least = disk as usize + 1;
        if least > self.nodes.len() {
            if least > MOST_ROOM {
                return Err(AllocError);
            }
            return self.widen(alloc, least);
        }
        Ok(())
    }

    // Makes room for `least` disks, or for twice as many as now. It is seldom called, so it is kept apart.
    #[inline(never)]
    fn widen(&mut self, alloc: Global, least: usize) -> Result<(), AllocError>
        requires more { length self.old.cells < least }
        requires most { least < 2 ^ 31 }
        ensures room { OnOk result (least ≤ length self.new.cells) }
        ensures same { (i : ℕ) → at self.new.cells i ≡ at self.old.cells i }
    {
        let twice = (2 * self.nodes.len()).min(MOST_ROOM);
        *self = self.with_room(alloc, least.max(twice))?;
        Ok(())
    }

    // The same disks listed, with room for `room` disks.
    fn with_room(&self, alloc: Global, room: usize) -> Result<Chains, AllocError>
        requires some { 0 < room }
        requires most { room < 2 ^ 31 }
        requires more { length self.now.cells ≤ room }
        ensures { IfOk result (λ chains. HasRoomFor self.now.cells room chains.cells) }
    {
        let mut wider = Chains::new(alloc, self.cell_count, room)?;
        let mut disk = self.nodes.len();
        // It begins with the greatest disk, so that each one comes to the head of its chain.
        while disk > 0 {
            disk -= 1;
            if let Some(cell) = self.nodes[disk].cell.get() {
                wider.put(disk as u32, cell);
            }
        }
        Ok(wider)
    }

    // Lists a disk in a cell.
    #[inline(always)]
    pub fn put(&mut self, disk: u32, cell: u32)
        requires within { disk < length self.old.cells }
        requires free { at self.old.cells disk ≡ None }
        requires cell { cell + 1 < 2 ^ 32 }
        ensures { self.new ≡ with_cell self.old disk (Some cell) }
    {
        let bucket = self.bucket(cell);
        let before = self.last_two_below(bucket, disk);
        mark(&mut self.heads, &mut self.nodes, bucket, before, true);
        link(&mut self.heads, &mut self.nodes, bucket, disk, before.last);
        self.nodes[disk as usize].cell = Slot::of(cell);
    }

    // Takes a disk off the cell in which it is listed.
    pub fn take(&mut self, disk: u32, cell: u32)
        requires { at self.old.cells disk ≡ Some cell }
        ensures { self.new ≡ with_cell self.old disk None }
    {
        let bucket = self.bucket(cell);
        let before = self.last_two_below(bucket, disk);
        let has_next = self.nodes[disk as usize].next.is_some();
        mark(&mut self.heads, &mut self.nodes, bucket, before, has_next);
        unlink(&mut self.heads, &mut self.nodes, bucket, disk, before.last);
        self.nodes[disk as usize].cell = Slot::none();
    }

    // The cell in which a disk is listed.
    pub fn cell_of(&self, disk: u32) -> Option<u32>
        ensures { result ≡ at self.now.cells disk }
    {
        self.nodes.get(disk as usize)?.cell.get()
    }

    // The least disk listed in a cell.
    pub fn first_in(&self, cell: u32) -> Option<u32>
        ensures { IsFirstOf (IsCellOf self.now.cells cell) 0 result }
    {
        self.skip(cell, 0, self.heads[self.bucket(cell)].get())
    }

    // The next disk after one in its cell.
    pub fn next_in(&self, disk: u32, cell: u32) -> Option<u32>
        requires { at self.now.cells disk ≡ Some cell }
        ensures { IsFirstOf (IsCellOf self.now.cells cell) (disk + 1) result }
    {
        self.skip(cell, disk as u64 + 1, self.nodes[disk as usize].next.get())
    }

    // Whether there is a bucket for each of `cell_count` cells.
    #[inline(always)]
    pub fn has_buckets(&self, cell_count: u32) -> bool
        ensures { IsTrue result ↔ cell_count ≤ self.now.buckets }
    {
        cell_count as usize <= self.heads.len()
    }

    // The pointer to the least disk of each cell, if cells have buckets of their own.
    #[inline(always)]
    pub fn heads(&self) -> &[Pointer]
        requires own { HaveOwnBuckets self.now }
        ensures count { length result.now ≡ self.now.buckets }
        ensures first { (cell : ℕ) → cell < self.now.buckets → LeadsIn self.now.cells cell 0 (pointer_at result.now cell) }
    {
        &self.heads
    }

    // The node of each listed disk, with the pointer to the next one in its cell, if cells have buckets of their own.
    #[inline(always)]
    pub(crate) fn nodes(&self) -> &[Node]
        requires own { HaveOwnBuckets self.now }
        ensures count { length result.now ≡ length self.now.cells }
        ensures after { (disk cell : ℕ) → IsCellOf self.now.cells cell disk →
            LeadsIn self.now.cells cell (disk + 1) (pointer_at (pointers_of result.now) disk) }
    {
        &self.nodes
    }

    // The first disk of a cell, if `start` is the first of its bucket from a number on.
    fn skip(&self, cell: u32, from: u64, start: Option<u32>) -> Option<u32>
        requires { IsFirst self.now.cells self.now.buckets (cell % self.now.buckets) from start }
        ensures { IsFirstOf (IsCellOf self.now.cells cell) from result }
    {
        let mut next = start;
        while let Some(disk) = next {
            let node = self.nodes[disk as usize];
            if node.cell.get() == Some(cell) {
                break;
            }
            next = node.next.get();
        }
        next
    }

    // The bucket of a cell.
    fn bucket(&self, cell: u32) -> usize
        ensures value { result ≡ cell % self.now.buckets }
        ensures in_range { result < self.now.buckets }
    {
        let count = self.heads.len();
        // Most cells have a number that small, and a division takes far longer than this test.
        if (cell as usize) < count {
            cell as usize
        } else {
            (cell % count as u32) as usize
        }
    }

    // The greatest two disks of a bucket that are less than this one.
    fn last_two_below(&self, bucket: usize, disk: u32) -> LastTwo
        requires { bucket < self.now.buckets }
        ensures last { IsLast self.now.cells self.now.buckets bucket disk result.last }
        ensures second_last { IfSome result.last (λ p. IsLast self.now.cells self.now.buckets bucket p result.second_last) }
    {
        let mut second_last = None;
        let mut last = None;
        let mut next = self.heads[bucket];
        while let Some(i) = next.get() {
            if i >= disk {
                break;
            }
            second_last = last;
            last = Some(i);
            if !next.has_next() {
                break;
            }
            next = self.nodes[i as usize].next;
        }
        LastTwo { last, second_last }
    }
}

impl Node {
    // The node of a disk that isn't listed.
    fn none() -> Node
        ensures { result ≡ record { cell = None; next = no_pointer } }
    {
        Node {
            cell: Slot::none(),
            next: Pointer::none(),
        }
    }
}

// The pointer at the head of a bucket, or of the disk that comes before.
fn pointer_behind(
    heads: &Vec<Pointer>,
    nodes: &Vec<Node>,
    bucket: usize,
    before: Option<u32>,
) -> Pointer
    requires bucket { bucket < length heads.now.items }
    requires before { IfSome before (λ p. p < length nodes.now.items) }
    ensures { result ≡ pointer_from heads.now.items (pointers_of nodes.now.items) bucket before }
{
    match before {
        None => heads[bucket],
        Some(p) => nodes[p as usize].next,
    }
}

// Writes the pointer at the head of a bucket, or of the disk that comes before.
fn point(
    heads: &mut Vec<Pointer>,
    nodes: &mut Vec<Node>,
    bucket: usize,
    before: Option<u32>,
    pointer: Pointer,
)
    requires bucket { bucket < length heads.old.items }
    requires before { IfSome before (λ p. p < length nodes.old.items) }
    ensures pointed { IsPointed heads.old.items (pointers_of nodes.old.items) bucket before pointer
        heads.new.items (pointers_of nodes.new.items) }
    ensures cells { cells_of nodes.new.items ≡ cells_of nodes.old.items }
{
    match before {
        None => heads[bucket] = pointer,
        Some(p) => nodes[p as usize].next = pointer,
    }
}

// Records in the pointer to the last disk before one, if there is such a disk, whether it has a next one.
fn mark(
    heads: &mut Vec<Pointer>,
    nodes: &mut Vec<Node>,
    bucket: usize,
    before: LastTwo,
    has_next: bool,
)
    requires bucket { bucket < length heads.old.items }
    requires few { length nodes.old.items < 2 ^ 31 }
    requires last { IfSome before.last (λ p. p < length nodes.old.items) }
    requires second_last { IsSome before.last → IfSome before.second_last (λ p. p < length nodes.old.items) }
    ensures marked { IsMarkedAnew heads.old.items (pointers_of nodes.old.items) bucket before.last before.second_last has_next
        heads.new.items (pointers_of nodes.new.items) }
    ensures cells { cells_of nodes.new.items ≡ cells_of nodes.old.items }
{
    if let Some(disk) = before.last {
        let pointer = Pointer::to(disk, has_next);
        point(heads, nodes, bucket, before.second_last, pointer);
    }
}

// Sets a disk into its bucket's chain, after the one that comes before it.
fn link(
    heads: &mut Vec<Pointer>,
    nodes: &mut Vec<Node>,
    bucket: usize,
    disk: u32,
    before: Option<u32>,
)
    requires bucket { bucket < length heads.old.items }
    requires disk { disk < length nodes.old.items }
    requires few { length nodes.old.items < 2 ^ 31 }
    requires before { IfSome before (λ p. p < length nodes.old.items) }
    ensures linked { IsLinked heads.old.items (pointers_of nodes.old.items) bucket disk before
        heads.new.items (pointers_of nodes.new.items) }
    ensures cells { cells_of nodes.new.items ≡ cells_of nodes.old.items }
{
    let next = pointer_behind(heads, nodes, bucket, before);
    nodes[disk as usize].next = next;
    point(
        heads,
        nodes,
        bucket,
        before,
        Pointer::to(disk, next.is_some()),
    );
}

// Takes a disk out of its bucket's chain.
fn unlink(
    heads: &mut Vec<Pointer>,
    nodes: &mut Vec<Node>,
    bucket: usize,
    disk: u32,
    before: Option<u32>,
)
    requires bucket { bucket < length heads.old.items }
    requires disk { disk < length nodes.old.items }
    requires before { IfSome before (λ p. p < length nodes.old.items) }
    ensures unlinked { IsUnlinked heads.old.items (pointers_of nodes.old.items) bucket disk before
        heads.new.items (pointers_of nodes.new.items) }
    ensures cells { cells_of nodes.new.items ≡ cells_of nodes.old.items }
{
    let next = nodes[disk as usize].next;
    point(heads, nodes, bucket, before, next);
}
