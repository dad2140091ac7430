ghost use Rattle.std.specs.Prelude.{◌≡◌, ◌<◌, ◌↔◌, [], ◌∷◌, All, IfOk, IsErrOf, IsTrue, OnOk};
ghost use Rattle.hb_ops.specs.Files.{if_live};
ghost use Rattle.hb_ops.specs.Given.{given};
ghost use Rattle.hb_log_codec.specs.Groups.{FitsGroup, FitsOp};
ghost use Rattle.hb_log_codec.specs.Reading.{logged};
ghost use Rattle.hb_store.specs.Opening.{IsBadPayload};
ghost use Rattle.hb_store.specs.Replay.{MayFollow, IsAllowedIn, after_group, after_op, change_in, untouched};
ghost use Rattle.hb_store.specs.Replaying.{Follows, HasLimits, IsPageOf, IsReplayable, replayed_of, ReplaysOn, with_pages};
ghost use Rattle.hb_store.specs.declared.touched.ReplayStop.TheVariants.{Unfit};

use crate::commits::read_at;
use crate::making::what_is_made_can_be_written;
use arrayvec::ArrayVec;
use hb_frag::{LivePage, Page};
use hb_log_codec::laws::groups_are_read_in_one_way;
use hb_log_codec::{Group, GroupsError, decode_all};
use hb_ops::{ChangeError, Changed, Meta, Op, change};
use hb_space::{Attributes, NoMemory};
use std::alloc::Global;
use std::collections::BTreeMap;

/// What the groups of a log make of a file: what it says of itself, and the pages that they touch, by their numbers.
#[derive(Debug, Drop)]
pub struct Touched {
    pub meta: Meta,
    pub pages: BTreeMap<u32, Page>,
}

/// Why a log wasn't read.
#[derive(Clone, Copy, Debug, PartialEq, Eq)]
pub enum LogStop {
    /// The frame of this number, counted from 0, is the first bad one: its length is bad, or its payload is no list of
    /// groups that may be replayed there.
    BadGroup { frame: u32 },
    /// Memory was refused.
    NoMemory,
    /// The disk failed to read.
    DiskFault,
}

/// Why a group wasn't replayed.
#[derive(Clone, Copy, PartialEq, Eq)]
pub(crate) enum ReplayStop {
    /// It is none that may be replayed here.
    Unfit,
    /// Memory was refused.
    NoMemory,
}

impl From<ChangeError> for ReplayStop {
    ghost use Rattle.hb_store.specs.Replaying.{change_stop};

    ghost from_gives = { λ e stop. stop ≡ change_stop e };

    fn from(stop: ChangeError) -> ReplayStop {
        match stop {
            ChangeError::Unfit => ReplayStop::Unfit,
            ChangeError::NoMemory => ReplayStop::NoMemory,
        }
    }
}

impl From<GroupsError> for ReplayStop {
    ghost use Rattle.hb_store.specs.Replaying.{groups_stop};

    ghost from_gives = { λ e stop. stop ≡ groups_stop e };

    fn from(stop: GroupsError) -> ReplayStop {
        match stop {
            GroupsError::BadBytes { .. } => ReplayStop::Unfit,
            GroupsError::NoMemory => ReplayStop::NoMemory,
        }
    }
}

impl From<NoMemory> for ReplayStop {
    ghost use Rattle.hb_store.specs.declared.touched.ReplayStop.TheVariants.{NoMemory as Refused};

    ghost from_gives = { λ _ e. e ≡ Refused };

    fn from(_refused: NoMemory) -> ReplayStop {
        ReplayStop::NoMemory
    }
}

impl Touched {
    /// No page was touched in a file that says this of itself.
    pub(crate) fn new(alloc: Global, meta: &Meta) -> Touched
        ensures { replayed_of result ≡ untouched meta.now }
    {
        Touched {
            meta: *meta,
            pages: BTreeMap::new(alloc),
        }
    }

    /// Sets a page under its number.
    fn set(&mut self, id: u32, page: Page) -> Result<(), NoMemory>
        ensures { OnOk result (replayed_of self.new ≡ with_pages ((id, page) ∷ []) (replayed_of self.old)) }
    {
        self.pages.insert(id, page)?;
        Ok(())
    }

    /// Sets pages under their numbers, one after the other. For want of memory some of them may be set.
    fn set_all(&mut self, pages: ArrayVec<(u32, Page), 3>) -> Result<(), NoMemory>
        ensures { OnOk result (replayed_of self.new ≡ with_pages pages.items (replayed_of self.old)) }
    {
        let mut rest = pages;
        while !rest.is_empty() {
            let (id, page) = rest.remove(0);
            self.set(id, page)?;
        }
        Ok(())
    }

    /// Whether the number is of a page of the file.
    fn has(&self, id: u32) -> bool
        ensures { IsTrue result ↔ IsPageOf self.now.meta id }
    {
        id != 0 && id <= self.meta.high
    }

    /// Whether each page image is of a page of the file.
    fn has_all(&self, images: &[(u32, Page)]) -> bool
        ensures { IsTrue result ↔ All (λ i. IsPageOf self.now.meta i.0) images.now }
    {
        images.iter().all(|page_image| self.has(page_image.0))
    }

    /// The page in use of a number, where it was touched.
    fn live(&self, id: u32) -> Option<&LivePage>
        ensures { given result ≡ if_live ((replayed_of self.now).page id) }
    {
        match self.pages.get(&id) {
            Some(Page::Live(page)) => Some(page),
            _ => None,
        }
    }

    /// What an operation makes of touched pages.
    ///
    /// `Unfit` exactly where it isn't allowed on them.
    fn changed(&self, alloc: Global, op: &Op) -> Result<Changed, ReplayStop>
        requires limits { HasLimits self.now.meta }
        requires fits { FitsOp self.now.meta.k op.now }
        ensures allowed { OnOk result (IsAllowedIn (replayed_of self.now) op.now) }
        ensures effect { IfOk result (λ c. record { meta = c.meta; pages = c.pages.items } ≡ change_in (replayed_of self.now) op.now) }
        ensures unfit { IsErrOf result Unfit → ¬ (IsAllowedIn (replayed_of self.now) op.now) }
    {
        let first = self.live(read_at(op, 0));
        let second = self.live(read_at(op, 1));
        let third = self.live(read_at(op, 2));
        Ok(change(alloc, op, &self.meta, first, second, third)?)
    }

    /// Applies an operation to touched pages.
    ///
    /// `Unfit` exactly where it isn't allowed on them.
    fn apply(&mut self, alloc: Global, op: &Op) -> Result<(), ReplayStop>
        requires limits { HasLimits self.old.meta }
        requires fits { FitsOp self.old.meta.k op.now }
        ensures allowed { OnOk result (IsAllowedIn (replayed_of self.old) op.now) }
        ensures effect { OnOk result (replayed_of self.new ≡ after_op (replayed_of self.old) op.now) }
        ensures unfit { IsErrOf result Unfit → ¬ (IsAllowedIn (replayed_of self.old) op.now) }
    {
        let Changed { meta, pages } = self.changed(alloc, op)?;
        self.meta = meta;
        self.set_all(pages)?;
        Ok(())
    }

    /// Replays a group: sets its page images under their numbers, then applies its operation to touched pages.
    ///
    /// `Unfit` exactly where it may not be replayed here. After an error some of it may be done.
    fn follow(&mut self, alloc: Global, group: Group) -> Result<(), ReplayStop>
        requires goes_on { IsReplayable (replayed_of self.old) }
        requires fits { FitsGroup self.old.meta.k (logged group) }
        ensures allowed { OnOk result (MayFollow (replayed_of self.old) (logged group)) }
        ensures effect { OnOk result (replayed_of self.new ≡ after_group (replayed_of self.old) (logged group)) }
        ensures unfit { IsErrOf result Unfit → ¬ (MayFollow (replayed_of self.old) (logged group)) }
        ensures leads { OnOk result (ReplaysOn (replayed_of self.old) (replayed_of self.new)) }
    {
        what_is_made_can_be_written();
        if !self.has_all(group.images.as_slice()) {
            return Err(ReplayStop::Unfit);
        }
        self.set_all(group.images)?;
        self.apply(alloc, &group.op)
    }

    /// Replays the groups of a payload.
    ///
    /// `Unfit` exactly where it isn't a list of groups that may be replayed here. After an error some of them may be
    /// done.
    pub(crate) fn follow_all(&mut self, alloc: Global, payload: &[u8]) -> Result<(), ReplayStop>
        requires { IsReplayable (replayed_of self.old) }
        ensures followed { OnOk result (Follows self.old.meta.k (replayed_of self.old) payload.now (replayed_of self.new)) }
        ensures unfit { IsErrOf result Unfit → IsBadPayload self.old.meta.k (replayed_of self.old) payload.now }
    {
        groups_are_read_in_one_way();
        let groups = decode_all(
            alloc,
            payload,
            Attributes {
                number: self.meta.k,
            },
        )?;
        for group in groups {
            self.follow(alloc, group)?;
        }
        Ok(())
    }
}
