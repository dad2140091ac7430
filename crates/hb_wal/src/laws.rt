//! What follows of frames from their definitions alone.

ghost use Rattle.std.specs.Prelude.{◌≡◌, ◌↔◌, ◌⊎◌, ℕ, ◌<◌, ◌^◌, List, [], length, All};
ghost use Rattle.hb_wal.specs.Frames.{frames, HasFrames, HasBadFrame, ReadsOneWay};

/// An area is read in one way: its frames are determined, and so is whether a bad one follows them.
pub fn an_area_is_read_in_one_way()
    ensures { ReadsOneWay }
{}

/// The bytes of the frames of a log are 0 exactly where it has no frame.
pub fn nothing_is_written_where_no_frame_stands()
    ensures { (payloads : List (List ℕ)) → (length (frames payloads) ≡ 0) ↔ (payloads ≡ []) }
{}

/// Every area is read to an end, or to a frame with a bad length.
pub fn every_area_is_read()
    ensures { (area : List ℕ) → All (λ x. x < 2 ^ 8) area →
        ((p : List (List ℕ)) × HasFrames area p) ⊎ ((p : List (List ℕ)) × HasBadFrame area p) }
{}
