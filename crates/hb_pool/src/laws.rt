//! What follows of pools from their definitions alone. Each law is the contract of a function that does
//! nothing: a caller learns it by the call. Each stands for frames with their bytes, and for the order of
//! use without them.

ghost use Rattle.std.specs.Prelude.{ℕ, List, []};
ghost use Rattle.hb_pool.specs.Pools.{IsPool, put_last, in_place};
ghost use Rattle.hb_pool.specs.Laws.{MarkedPagesStay, NoneGoesBeforeAllAreUsed, WhatCameInIsThere, ComingInChangesNoOther, ChangesItsFrame, ChangesNoOther, StaysPool, StaysPoolWithAnother, CountsPlaces, CountsPlacesWithAnother, OrderOfBrought, OrderOfChanged, OrderTellsFrames};

/// A page that is dirty or pinned never goes, and none does while a frame is empty.
pub fn only_pages_that_may_go_do()
    ensures marked { MarkedPagesStay (List ℕ) }
    ensures marked_uses { MarkedPagesStay (Unit {0}) }
    ensures empty { NoneGoesBeforeAllAreUsed (List ℕ) }
    ensures empty_uses { NoneGoesBeforeAllAreUsed (Unit {0}) }
{}

/// A page that comes in is there then, and what stays of the others is as it was.
pub fn what_comes_in_changes_no_other()
    ensures there { WhatCameInIsThere (List ℕ) }
    ensures there_uses { WhatCameInIsThere (Unit {0}) }
    ensures others { ComingInChangesNoOther (List ℕ) }
    ensures others_uses { ComingInChangesNoOther (Unit {0}) }
{}

/// What is changed is one page's frame, whether it is put last or stays in its place.
pub fn each_call_changes_one_frame()
    ensures last { ChangesItsFrame {B = List ℕ} put_last }
    ensures last_uses { ChangesItsFrame {B = Unit {0}} put_last }
    ensures last_others { ChangesNoOther {B = List ℕ} put_last }
    ensures last_other_uses { ChangesNoOther {B = Unit {0}} put_last }
    ensures place { ChangesItsFrame {B = List ℕ} in_place }
    ensures place_uses { ChangesItsFrame {B = Unit {0}} in_place }
    ensures place_others { ChangesNoOther {B = List ℕ} in_place }
    ensures place_other_uses { ChangesNoOther {B = Unit {0}} in_place }
{}

/// A pool stays one, so no page is ever in two frames.
pub fn a_pool_stays_one()
    ensures none { IsPool {B = List ℕ} [] }
    ensures none_used { IsPool {B = Unit {0}} [] }
    ensures last { StaysPool {B = List ℕ} put_last }
    ensures last_uses { StaysPool {B = Unit {0}} put_last }
    ensures place { StaysPool {B = List ℕ} in_place }
    ensures place_uses { StaysPool {B = Unit {0}} in_place }
    ensures another { StaysPoolWithAnother (List ℕ) }
    ensures another_use { StaysPoolWithAnother (Unit {0}) }
{}

/// How many places a call takes or gives back: one for a frame that had to stay and may go now, or the other way.
pub fn each_call_counts_its_place()
    ensures last { CountsPlaces {B = List ℕ} put_last }
    ensures last_uses { CountsPlaces {B = Unit {0}} put_last }
    ensures place { CountsPlaces {B = List ℕ} in_place }
    ensures place_uses { CountsPlaces {B = Unit {0}} in_place }
    ensures another { CountsPlacesWithAnother (List ℕ) }
    ensures another_use { CountsPlacesWithAnother (Unit {0}) }
{}

/// The order of use is told without the pages' bytes: each call does to it what it does to the frames.
pub fn the_order_is_told_without_bytes()
    ensures brought { OrderOfBrought (List ℕ) }
    ensures last { OrderOfChanged {B = List ℕ} put_last put_last }
    ensures place { OrderOfChanged {B = List ℕ} in_place in_place }
    ensures tells { OrderTellsFrames (List ℕ) }
{}
