ghost use Rattle.std.specs.Prelude.{◌≡◌, ◌≢◌, ◌↔◌, ◌<◌, ◌≤◌, ◌+◌, ◌^◌, [], ◌++◌, length, All, IfOk, IsNone, IfSome, vec_capacity, vec_len};
ghost use Rattle.hb_wal.specs.Frames.{frame_body};
ghost use Rattle.hb_space.specs.declared.form.TheConstants.{PENDING};
ghost use Rattle.hb_wal.specs.Log.{LogState, IsLog, IsMarkedTo, MayJoin, waiting_bytes, after_force, room_of, pending_bytes, mark_of, with_group};

use crate::groups::Group;
use hb_outside::give_u32;
use hb_space::NoMemory;
use hb_space::form::PENDING;
use std::alloc::Global;
use std::marker::Model;

/// Bytes of a frame's length.
const LENGTH: usize = 4;

/// Bytes of a frame beside its payload: the gate and the length.
const FRAME: u32 = 5;

/// The log of a file: its area, and the groups that wait for a force.
#[derive(Drop)]
pub struct Wal {
    area: u64,
    len: u32,
    written: u32,
    /// The body of the next frame: the length of the groups that wait, where any does, and behind it their bytes.
    bytes: Vec<u8>,
    groups: Vec<Group>,
}

impl Model for Wal {
    ghost use Rattle.hb_wal.specs.Log.{LogState};

    ghost Value = { LogState };

    ghost use Rattle.hb_wal.specs.Kept.{log_seen, Keeps};

    ghost view = { log_seen };

    ghost invariant = { Keeps };
}

impl Wal {
    /// The log of an empty area of `len` bytes that begins at the byte `area` of the disk. It reserves all memory
    /// that it will take.
    pub fn new(alloc: Global, area: u64, len: u32) -> Result<Wal, NoMemory>
        ensures { IfOk result (λ w. w ≡ record { area = area; len = len; written = 0; groups = [] }) }
    {
        let mut bytes = Vec::with_capacity(alloc, LENGTH + PENDING)?;
        bytes.extend_from_slice(&[0; LENGTH])?;
        Ok(Wal {
            area,
            len,
            written: 0,
            bytes,
            groups: Vec::with_capacity(alloc, PENDING)?,
        })
    }

    /// The bytes of the groups that wait. 0 exactly where none does.
    pub fn pending(&self) -> u32
        ensures bytes { result ≡ pending_bytes self.now.groups }
        ensures none { (result ≡ 0) ↔ (self.now.groups ≡ []) }
    {
        (self.bytes.len() - LENGTH) as u32
    }

    /// The bytes of the written frames. 0 exactly where there is none, as the law
    /// `nothing_is_written_where_no_frame_stands` says.
    pub fn written(&self) -> u32
        ensures { result ≡ self.now.written }
    {
        self.written
    }

    /// The longest group that fits now.
    pub fn room(&self) -> u32
        ensures { result ≡ room_of self.now }
    {
        let framed = self.pending() + FRAME * self.groups.len() as u32;
        (self.len - self.written - framed).saturating_sub(FRAME)
    }

    /// The mark of the oldest group that waits, or `now` where none does. The marks of those behind it aren't less.
    pub fn settled(&self, now: u32) -> u32
        ensures mark { result ≡ mark_of self.now.groups now }
        ensures log { IsLog self.now }
    {
        match self.groups.first() {
            Some(oldest) => oldest.mark,
            None => now,
        }
    }

    /// Lets a group wait, behind those that do.
    pub fn append(&mut self, group: &[u8], mark: u32)
        requires some { 0 < length group.now }
        requires room { length group.now ≤ room_of self.old }
        requires reserved { pending_bytes self.old.groups + length group.now ≤ PENDING }
        requires marks { All (IsMarkedTo mark) self.old.groups }
        ensures { self.new ≡ with_group group.now mark self.old }
    {
        self.append_parts(group, &[], &[], mark);
    }

    /// Lets a group wait that comes in three parts: they needn't stand in one place, and go from where they stand.
    pub fn append_parts(&mut self, head: &[u8], image: &[u8], operation: &[u8], mark: u32)
        requires { MayJoin (head.now ++ image.now ++ operation.now) mark self.old }
        ensures { self.new ≡ with_group (head.now ++ image.now ++ operation.now) mark self.old }
    {
        let len = (head.len() + image.len() + operation.len()) as u32;
        let all = self.pending() + len;
        give_u32(&mut self.bytes, 0, all);
        add(&mut self.bytes, head);
        add(&mut self.bytes, image);
        add(&mut self.bytes, operation);
        self.groups.push(Group { len, mark }).unwrap();
    }

    /// Where the next frame begins on the disk.
    pub(crate) fn frame_gate(&self) -> u64
        requires { self.now.area + self.now.len < 2 ^ 64 }
        ensures value { result ≡ self.now.area + self.now.written }
        ensures log { IsLog self.now }
    {
        self.area + u64::from(self.written)
    }

    /// The body of the frame that the groups that wait will be: the length of their bytes, and these.
    pub(crate) fn body(&self) -> Option<&[u8]>
        ensures none { IsNone result ↔ (self.now.groups ≡ []) }
        ensures some { IfSome result (λ body. body.now ≡ frame_body (waiting_bytes self.now.groups)) }
    {
        if self.groups.is_empty() {
            None
        } else {
            Some(&self.bytes)
        }
    }

    /// The groups that wait are written as one frame: they are forgotten.
    pub(crate) fn forget(&mut self)
        requires { self.old.groups ≢ [] }
        ensures { self.new ≡ after_force self.old }
    {
        self.written += FRAME + self.pending();
        self.groups.clear();
        self.bytes.truncate(LENGTH);
    }

    /// Moves the log to another area of the same length, where it has no frame.
    pub fn move_to(&mut self, area: u64)
        requires { self.old.groups ≡ [] }
        ensures { self.new ≡ record { area = area; len = self.old.len; written = 0; groups = [] } }
    {
        self.area = area;
        self.written = 0;
    }
}

/// Adds bytes for which memory is reserved.
fn add(bytes: &mut Vec<u8>, part: &[u8])
    requires { vec_len bytes.old + length part.now ≤ vec_capacity bytes.old }
    ensures items { bytes.new.items ≡ bytes.old.items ++ part.now }
    ensures len { vec_len bytes.new ≡ vec_len bytes.old + length part.now }
    ensures capacity { vec_capacity bytes.old ≤ vec_capacity bytes.new }
{
    bytes.extend_from_slice(part).unwrap();
}
