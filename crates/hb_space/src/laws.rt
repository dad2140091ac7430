//! What follows of boxes from their definitions alone. Each law is the contract of a function
//! that does nothing: a caller learns it by the call.

ghost use Rattle.std.specs.Prelude.{◌≡◌, ◌≢◌, ◌≤◌, ◌↔◌, ◌⊎◌, ℕ, List, length, IsTrue};
ghost use Rattle.hb_space.specs.Points.{IsPoint};
ghost use Rattle.hb_space.specs.Boxes.{Area, IsArea, Holds, Meets, Within, Disjoint, Cuts, whole_area, point_area, side_below, side_from, common_area, holds};

use crate::form::KMAX;

/// Two boxes meet exactly where a point lies in both.
pub fn meeting_is_by_points()
    ensures { (a b : Area) → IsArea a → IsArea b → length a.lo ≡ length b.lo →
        (Meets a b ↔ ((p : List ℕ) × Holds a p × Holds b p)) }
{}

/// Boxes that do not meet share no point, and the other way round.
pub fn apart_is_disjoint()
    ensures { (a b : Area) → IsArea a → IsArea b → length a.lo ≡ length b.lo →
        ((¬ (Meets a b)) ↔ Disjoint a b) }
{}

/// One box lies within another exactly where the other holds each of its points.
pub fn within_is_by_points()
    ensures { (a b : Area) → IsArea a → IsArea b → length a.lo ≡ length b.lo →
        (Within a b ↔ ((p : List ℕ) → Holds a p → Holds b p)) }
{}

/// Lying within is an order: two boxes that lie within each other are the same.
pub fn within_is_an_order()
    ensures reflexive { (a : Area) → Within a a }
    ensures transitive { (a b c : Area) → length a.lo ≡ length b.lo →
        Within a b → Within b c → Within a c }
    ensures antisymmetric { (a b : Area) → IsArea a → IsArea b → length a.lo ≡ length b.lo →
        Within a b → Within b a → a ≡ b }
{}

/// Boxes that hold the same points are the same.
pub fn points_tell_a_box()
    ensures { (a b : Area) → IsArea a → IsArea b →
        ((p : List ℕ) → Holds a p ↔ Holds b p) → a ≡ b }
{}

/// The two sides of a plane that parts a box are boxes that share no point, hold its points and
/// no others, lie within it, and are each less than it.
pub fn sides_part_a_box()
    ensures areas { (a : Area) (axis value : ℕ) → IsArea a → Cuts a axis value →
        IsArea (side_below a axis value) × IsArea (side_from a axis value) }
    ensures disjoint { (a : Area) (axis value : ℕ) → IsArea a → Cuts a axis value →
        Disjoint (side_below a axis value) (side_from a axis value) }
    ensures cover { (a : Area) (axis value : ℕ) (p : List ℕ) → IsArea a → Cuts a axis value →
        (Holds a p ↔ (Holds (side_below a axis value) p ⊎ Holds (side_from a axis value) p)) }
    ensures within { (a : Area) (axis value : ℕ) → IsArea a → Cuts a axis value →
        Within (side_below a axis value) a × Within (side_from a axis value) a }
    ensures proper { (a : Area) (axis value : ℕ) → IsArea a → Cuts a axis value →
        (side_below a axis value ≢ a) × (side_from a axis value ≢ a) }
{}

/// The test of a point answers as the definition.
pub fn test_tells_the_points()
    ensures { (a : Area) (p : List ℕ) → IsArea a → length p ≡ length a.lo →
        (IsTrue (holds a p) ↔ Holds a p) }
{}

/// What lies in a box is a point.
pub fn held_is_a_point()
    ensures { (a : Area) (p : List ℕ) → IsArea a → Holds a p → IsPoint p }
{}

/// The common box of two that meet is a box, holds what both hold, and lies within both.
pub fn common_box_is_a_box()
    ensures area { (a b : Area) → IsArea a → IsArea b → length a.lo ≡ length b.lo → Meets a b →
        IsArea (common_area a b) }
    ensures points { (a b : Area) (p : List ℕ) → IsArea a → IsArea b → length a.lo ≡ length b.lo →
        (Holds (common_area a b) p ↔ (Holds a p × Holds b p)) }
    ensures within { (a b : Area) → IsArea a → IsArea b → length a.lo ≡ length b.lo → Meets a b →
        Within (common_area a b) a × Within (common_area a b) b }
{}

/// The whole space of some attributes is a box that holds every point of as many.
pub fn whole_space_holds_every_point()
    ensures area { (k : ℕ) → 1 ≤ k → k ≤ KMAX → IsArea (whole_area k) }
    ensures points { (k : ℕ) (p : List ℕ) → IsPoint p → length p ≡ k → Holds (whole_area k) p }
{}

/// The box of a point holds that point alone.
pub fn box_of_a_point_holds_it_alone()
    ensures area { (p : List ℕ) → IsPoint p → IsArea (point_area p) }
    ensures points { (p q : List ℕ) → Holds (point_area p) q ↔ (q ≡ p) }
{}
