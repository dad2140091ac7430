//! A slot: a block of memory with the bytes of a page, and the marks of its frame.

ghost use Rattle.std.specs.Prelude.{◌≡◌, ◌<◌, All};
ghost use Rattle.hb_pool.specs.Editing.{AreWhole};

use hb_space::form::PAGE;
use std::marker::Model;

/// The memory of one page.
pub(crate) type Block = Box<[u8; PAGE]>;

/// What is in memory of a page. It stays in its slot, whatever place the page has in the order of use.
#[derive(Drop)]
pub(crate) struct Slot {
    block: Block,
    dirty: bool,
    pins: u8,
}

impl Model for Slot {
    ghost use Rattle.hb_pool.specs.Slots.{Content};

    ghost Value = { Content };

    ghost view = { λ s. record { bytes = s.block.value; dirty = s.dirty; pins = s.pins } };
}

impl Slot {
    ghost use Rattle.std.specs.Prelude.{ℕ};
    ghost use Rattle.std.specs.Fn.{FnOnceReturnsAtMut, FnOnceTakesAtMut};
    ghost use Rattle.hb_pool.specs.Editing.{Fills};
    ghost use Rattle.hb_pool.specs.Frames.{must_stay, pinned, unpinned, filled, clean, fresh};
    ghost use Rattle.hb_pool.specs.Slots.{framed};

    /// A page that nobody has pinned yet, in this block.
    pub(crate) fn new(block: Block, bytes: &[u8; PAGE], dirty: bool) -> Slot
        ensures { (id : ℕ) → framed id result ≡ fresh id bytes.now dirty }
    {
        let mut slot = Slot {
            block,
            dirty,
            pins: 0,
        };
        slot.take_in(bytes, dirty);
        slot
    }

    /// Another page, which nobody has pinned yet.
    pub(crate) fn take_in(&mut self, bytes: &[u8; PAGE], dirty: bool)
        ensures { (id : ℕ) → framed id self.new ≡ fresh id bytes.now dirty }
    {
        *self.block = *bytes;
        self.dirty = dirty;
        self.pins = 0;
    }

    /// Whether it is dirty or pinned.
    pub(crate) fn must_stay(&self) -> bool
        ensures { (id : ℕ) → result ≡ must_stay (framed id self.now) }
    {
        self.dirty || self.pins != 0
    }

    /// Whether it is dirty.
    pub(crate) fn is_dirty(&self) -> bool
        ensures { result ≡ self.now.dirty }
    {
        self.dirty
    }

    /// The page's bytes.
    pub(crate) fn bytes(&self) -> &[u8; PAGE]
        ensures { result.now ≡ self.now.bytes }
    {
        &self.block
    }

    /// How many times it is pinned.
    pub(crate) fn pins(&self) -> u8
        ensures { result ≡ self.now.pins }
    {
        self.pins
    }

    /// One pin more.
    pub(crate) fn pin(&mut self)
        requires { self.old.pins < 255 }
        ensures { (id : ℕ) → framed id self.new ≡ pinned (framed id self.old) }
    {
        self.pins += 1;
    }

    /// One pin less.
    pub(crate) fn unpin(&mut self)
        requires { 0 < self.old.pins }
        ensures { (id : ℕ) → framed id self.new ≡ unpinned (framed id self.old) }
    {
        self.pins -= 1;
    }

    /// Other bytes, which are nowhere else yet.
    pub(crate) fn fill(&mut self, bytes: &[u8; PAGE])
        ensures { (id : ℕ) → framed id self.new ≡ filled bytes.now (framed id self.old) }
    {
        *self.block = *bytes;
        self.dirty = true;
    }

    /// Other bytes, made of those that it has. They are nowhere else yet.
    pub(crate) fn edit<F: FnOnce(&mut [u8; PAGE])>(&mut self, edit: F)
        requires { FnOnceTakesAtMut F.FnOnce edit self.old.bytes }
        ensures { (id : ℕ) → Fills (λ old new. FnOnceReturnsAtMut F.FnOnce edit old tt new) (framed id self.old) (framed id self.new) }
    {
        edit(&mut self.block);
        are_whole(&self.block);
        self.dirty = true;
    }

    /// No longer dirty.
    pub(crate) fn clean(&mut self)
        ensures { (id : ℕ) → framed id self.new ≡ clean (framed id self.old) }
    {
        self.dirty = false;
    }
}

/// The bytes of a page are as many as it takes, and each is one.
fn are_whole(bytes: &[u8; PAGE])
    ensures { AreWhole bytes.now }
{
    are_bytes(bytes);
}

/// Each of these is a byte.
fn are_bytes(bytes: &[u8])
    ensures { All (λ b. b < 256) bytes.now }
{
    let _first = bytes.first();
}
