//! Stores that can be rolled back.
//!
//! `UndoSpace` is a space over another one: what is loaded and stored there is loaded and stored below, and of
//! each word that is stored over its before-image is kept, in cells that the caller lends. `roll_back` stores all
//! of these again, the last first. The contracts promise that the words are then what they were before the first
//! store, whatever was stored in between and however often to one word, that the space below is stored to at most
//! once for each store and once more for each that is rolled back, and that nothing takes memory. So a call that
//! is proved for every space, as an update of an object, can be done on trial.
//!
//! It knows words and spaces; it knows no object.
#![tactic(auto)]

mod before_image;
mod undo_space;

pub use before_image::BeforeImage;
pub use undo_space::{UndoSpace, roll_back};
