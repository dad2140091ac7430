//! Points, bodies, records and boxes: the attribute space.
//!
//! The one contract: boxes are described by the points that they hold. Each call on boxes says
//! which points its answer holds, in terms of the points of the boxes that it was given:
//! `meets`, `within` and `holds` answer as the points do, `cut` parts a box by a plane, `common`
//! holds what both hold, and `outside` holds what the first holds and the other doesn't, as
//! boxes that share no point. `laws` has what follows of boxes from their definitions alone.
//!
//! Invariants that the types keep: a `Point` has 1 to `form::KMAX` values, a `Body` at most
//! `form::BMAX` bytes, and an `Area` two corners of as many attributes, of which no lower value
//! exceeds its upper one; `Attributes` are as many as a point has. Contracts see a point and a body as lists of numbers, an area as its
//! two corners, and areas and records as lists.
#![tactic(auto)]

pub mod actors;
mod areas;
mod attributes;
mod bodies;
pub mod form;
pub mod laws;
mod pieces;
mod points;
mod records;
mod sides;
mod threads;

pub use actors::Actor;
pub use areas::Area;
pub use attributes::Attributes;
pub use bodies::Body;
pub use pieces::Areas;
pub use points::Point;
pub use records::{Record, Records};
use std::alloc::AllocError;

/// The one answer without a cause: memory was refused.
pub type NoMemory = AllocError;
