//! The pool: frames in the order of use, in slots, and the blocks of those that are empty.

ghost use Rattle.std.specs.Prelude.{◌≡◌, ◌-◌, ◌<◌, ◌≤◌, ◌∷◌, ◌++◌, [], vec_len, vec_capacity, None, Some, IfOk, IfSome, IsSome, IsTrue, if◌then◌else◌, length, get_or, option_copied, option_map, find, All};
ghost use Rattle.std.specs.List.{position_or_len};
ghost use Rattle.std.specs.Option.{IsSomeAnd};
ghost use Rattle.std.specs.Set.{remove_key};
ghost use Rattle.std.specs.Fn.{FnOnceReturnsAtMut, FnOnceTakesAtMut};
ghost use Rattle.hb_pool.specs.Editing.{Edits};
ghost use Rattle.hb_pool.specs.Frames.{may_go, pinned, unpinned, filled, clean, fresh};
ghost use Rattle.hb_pool.specs.Pools.{frame_of, places, put_last, in_place, brought, IsPool, HaveWholePages};
ghost use Rattle.hb_pool.specs.Slots.{HaveSlots, empty_slot, entry_of, framed, frames_in};

use crate::order::Order;
use crate::slots::{Block, Slot};
use hb_space::NoMemory;
use hb_space::form::PAGE;
use std::alloc::Global;
use std::marker::Model;

/// How many pages are in memory at most.
pub const FRAMES: usize = 128;

/// Pages in memory, in the order of use.
///
/// A page is found by a map, which holds the order of use. Its bytes and marks stay in their slot.
#[derive(Drop)]
pub struct Pool {
    // the pages in memory, the least recently used first, and the slot of each
    order: Order,
    // what is in memory of them
    slots: Vec<Slot>,
    // the blocks of the frames without one
    spare: Vec<Block>,
    // how many frames are dirty or pinned
    held: usize,
}

impl Model for Pool {
    ghost use Rattle.std.specs.Prelude.{ℕ, List, vec_len, vec_capacity};
    ghost use Rattle.hb_pool.specs.Frames.{Frame};
    ghost use Rattle.hb_pool.specs.Kept.{PoolKeeps};
    ghost use Rattle.hb_pool.specs.Slots.{frames_in};

    ghost Value = { List (Frame (List ℕ)) };

    ghost view = { λ p. frames_in p.order p.slots.items };

    ghost invariant = { λ p. PoolKeeps p.order p.slots.items (vec_capacity p.slots) (vec_len p.spare) p.held };
}

impl Pool {
    /// A pool without pages. All memory that it ever takes is taken here.
    pub fn new(alloc: Global) -> Result<Pool, NoMemory>
        ensures { IfOk result (λ p. p ≡ []) }
    {
        Ok(Pool {
            order: Order::new(alloc)?,
            slots: Vec::with_capacity(alloc, FRAMES)?,
            spare: blocks(alloc)?,
            held: 0,
        })
    }

    /// The page's bytes; `None` exactly where it is in no frame. The order stays.
    pub fn get(&self, id: u32) -> Option<&[u8; PAGE]>
        ensures { option_copied result ≡ option_map (λ f. f.bytes) (frame_of self.now id) }
    {
        match self.slot(id) {
            Some(slot) => Some(slot.bytes()),
            None => None,
        }
    }

    /// How many times the page is pinned; `None` exactly where it is in no frame.
    pub fn pins(&self, id: u32) -> Option<u8>
        ensures { result ≡ option_map (λ f. f.pins) (frame_of self.now id) }
    {
        match self.slot(id) {
            Some(slot) => Some(slot.pins()),
            None => None,
        }
    }

    /// One pin more for the page, which is last in the order now.
    pub fn pin(&mut self, id: u32)
        requires { IsSomeAnd (frame_of self.old id) (λ f. f.pins < 255) }
        ensures { self.new ≡ put_last id pinned self.old }
    {
        let place = self.order.touch(id) as usize;
        let slot = &mut self.slots[place];
        self.held += one_if(!slot.must_stay());
        slot.pin();
    }

    /// One pin less for the page. The order stays.
    pub fn unpin(&mut self, id: u32)
        requires { IsSomeAnd (frame_of self.old id) (λ f. 0 < f.pins) }
        ensures { self.new ≡ in_place id unpinned self.old }
    {
        let place = self.order.lies_in(id) as usize;
        let slot = &mut self.slots[place];
        slot.unpin();
        self.held -= one_if(!slot.must_stay());
    }

    /// Takes in a page that is in no frame. It is last in the order. Where no frame is empty, the
    /// first page in the order that is clean and not pinned goes; else none does.
    pub fn bring(&mut self, id: u32, bytes: &[u8; PAGE], dirty: bool)
        requires absent { frame_of self.old id ≡ None }
        requires place { 0 < places self.old }
        ensures { self.new ≡ brought id bytes.now dirty self.old }
    {
        self.held += one_if(dirty);
        match self.spare.pop() {
            Some(block) => {
                let slot = Slot::new(block, bytes, dirty);
                add_last(&mut self.order, &mut self.slots, id, slot);
            }
            None => replace_first(&mut self.order, &mut self.slots, id, bytes, dirty),
        }
    }

    /// Other bytes for the page, which is dirty now, and last in the order.
    pub fn change(&mut self, id: u32, bytes: &[u8; PAGE])
        requires { IsSome (frame_of self.old id) }
        ensures { self.new ≡ put_last id (filled bytes.now) self.old }
    {
        let place = self.order.touch(id) as usize;
        let changed = &mut self.slots[place];
        self.held += one_if(!changed.must_stay());
        changed.fill(bytes);
    }

    /// The page's bytes are changed where they stand. It is dirty now, and last in the order.
    pub fn edit<F: FnOnce(&mut [u8; PAGE])>(&mut self, id: u32, edit: F)
        requires { IsSomeAnd (frame_of self.old id) (λ f. FnOnceTakesAtMut F.FnOnce edit f.bytes) }
        ensures { Edits id (λ old new. FnOnceReturnsAtMut F.FnOnce edit old tt new) self.old self.new }
    {
        let place = self.order.touch(id) as usize;
        let edited = &mut self.slots[place];
        self.held += one_if(!edited.must_stay());
        edited.edit(edit);
    }

    /// The first dirty page in the order; `None` exactly where none is dirty.
    pub fn oldest_dirty(&self) -> Option<u32>
        ensures first { result ≡ option_map (λ f. f.id) (find (λ f. f.dirty) self.now) }
        ensures dirty { IfSome result (λ id. IsSomeAnd (frame_of self.now id) (λ f. IsTrue f.dirty)) }
    {
        let place = first_dirty(&self.slots, self.order.slots());
        let ids = self.order.ids();
        if place < ids.len() {
            Some(ids[place])
        } else {
            None
        }
    }

    /// The page is no longer dirty. The order stays.
    pub fn cleaned(&mut self, id: u32)
        requires { IsSomeAnd (frame_of self.old id) (λ f. IsTrue f.dirty) }
        ensures { self.new ≡ in_place id clean self.old }
    {
        let place = self.order.lies_in(id) as usize;
        let written = &mut self.slots[place];
        written.clean();
        self.held -= one_if(!written.must_stay());
    }

    /// How many frames are empty, or clean and not pinned.
    pub fn places(&self) -> u32
        ensures value { result ≡ places self.now }
        ensures pool { IsPool self.now }
        ensures pages { HaveWholePages self.now }
    {
        (FRAMES - self.held) as u32
    }

    // What is in memory of the page, where it is.
    fn slot(&self, id: u32) -> Option<&Slot>
        ensures { option_map (framed id) (option_copied result) ≡ frame_of self.now id }
    {
        let place = self.order.slot_of(id)?;
        Some(&self.slots[place as usize])
    }
}

// The blocks of all frames.
fn blocks(alloc: Global) -> Result<Vec<Block>, NoMemory>
    ensures { IfOk result (λ v. vec_len v ≡ FRAMES) }
{
    let mut blocks = Vec::with_capacity(alloc, FRAMES)?;
    while blocks.len() < FRAMES {
        blocks.push(Box::new(alloc, [0; PAGE])?)?;
    }
    Ok(blocks)
}

// The page comes into a slot that is made for it.
fn add_last(order: &mut Order, slots: &mut Vec<Slot>, id: u32, slot: Slot)
    requires absent { entry_of order.old id ≡ None }
    requires few { length order.old < FRAMES }
    requires each { HaveSlots order.old slots.old.items }
    requires room { vec_len slots.old < vec_capacity slots.old }
    ensures frames { frames_in order.new slots.new.items ≡ frames_in order.old slots.old.items ++ framed id slot ∷ [] }
    ensures each { HaveSlots order.new slots.new.items }
    ensures room { vec_capacity slots.new ≡ vec_capacity slots.old }
{
    order.insert(id, slots.len() as u8);
    slots.push_reserved(slot);
}

// The page comes into the slot of the first one that may go, which leaves the order.
fn replace_first(order: &mut Order, slots: &mut Vec<Slot>, id: u32, bytes: &[u8; PAGE], dirty: bool)
    requires absent { entry_of order.old id ≡ None }
    requires few { length order.old ≤ FRAMES }
    requires there { IsSome (find may_go (frames_in order.old slots.old.items)) }
    requires each { HaveSlots order.old slots.old.items }
    ensures frames { frames_in order.new slots.new.items ≡ remove_key may_go (frames_in order.old slots.old.items) ++ fresh id bytes.now dirty ∷ [] }
    ensures each { HaveSlots order.new slots.new.items }
    ensures room { vec_capacity slots.new ≡ vec_capacity slots.old }
{
    let first = first_to_go(slots, order.slots());
    let place = order.let_go(first);
    slots[place as usize].take_in(bytes, dirty);
    order.insert(id, place);
}

// Where the first page that may go stands in the order, or how many there are where none may.
fn first_to_go(slots: &[Slot], order: &[u8]) -> usize
    requires { All (λ n. n < length slots.now) order.now }
    ensures { result ≡ position_or_len (λ n. may_go (framed 0 (get_or slots.now n empty_slot))) order.now }
{
    for place in 0..order.len() {
        if !slots[order[place] as usize].must_stay() {
            return place;
        }
    }
    order.len()
}

// The same of the first dirty page.
fn first_dirty(slots: &[Slot], order: &[u8]) -> usize
    requires { All (λ n. n < length slots.now) order.now }
    ensures { result ≡ position_or_len (λ n. (get_or slots.now n empty_slot).dirty) order.now }
{
    for place in 0..order.len() {
        if slots[order[place] as usize].is_dirty() {
            return place;
        }
    }
    order.len()
}

// One where the test passed, else none.
fn one_if(test: bool) -> usize
    ensures { result ≡ (if test then 1 else 0) }
{
    if test { 1 } else { 0 }
}
