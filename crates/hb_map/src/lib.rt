//! The map of a file: its pages as text.
//!
//! The one contract: `put_map` puts the text that `specs/Map.antt` has of the store's file, a line for the file, for each
//! page in use and for each of its leaves, or it puts a front of it and says why. It only reads. The law
//! `each_point_has_one_box` says that the boxes that a map prints with records part the space.
//!
//! A page is decoded by itself, in the order of the numbers, and twice: once to count who names whom, once to be printed.
//! What is kept between is a number for each page.
#![tactic(auto)]

mod boxes;
mod lines;
mod mapping;
mod pages;
mod parents;
mod stops;
mod threads;

pub use boxes::each_point_has_one_box;
pub use mapping::put_map;
pub use stops::MapStop;
