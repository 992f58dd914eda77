//! A store with what is known of its folder, changed one object at a time.
//!
//! A `Mirror` is a folder without its bytes: its config, the names of all objects below `.hoodie/`, which commits are
//! completed, and which groups each of them wrote a file of (`specs/Mirror.antt`, `IsMirrorOf`). A `World` holds a store, its mirror, the last instant, the count of
//! changes, and the change whose fate is not known.
//!
//! Invariant (`specs/State.antt`, `IsKept`), where the store tells its journal: the mirror, the last instant and the count
//! are those of the journal, or of the journal without the change in doubt; and every prefix since the opening is a valid
//! table, if the opening was one.
//!
//! | call | contract |
//! |---|---|
//! | `Mirror::of` | the mirror of the folder that has a config, these names and these completed commits |
//! | `Mirror::completed_upto`, `newest` | the completed commits up to an instant, in their order; the newest one |
//! | `Mirror::newest_of` | the newest completed commit that wrote a file of a group |
//! | `Mirror::live`, `instants` | how many files the completed commits list, and of how many instants an object of an action stands |
//! | `World::over` | a store with the mirror of what it holds |
//! | `World::change` | makes one change, of which the caller shows that it may be made (`MayMake`); where the store fails it is in doubt, and no other is made |
//! | `World::change_in_turn` | makes changes one after the other, up to the first one that is not made (`specs/Turns.antt`) |
//! | `World::settle` | one read of the path in doubt: the change was applied exactly where the object stands as it leaves it |
//! | `World::mirror`, `last`, `seq` | what is known of the folder, the last instant, and the count of changes |
//! | `World::read_object` | the bytes of an object, by one read |
//! | `World::into_store` | the store: every prefix of its journal is a valid table, where the opening was one |
//! | `is_plain`, `path_of` | whether a change is a create or a delete of another object than the config; its path |
#![tactic(auto)]

mod asking;
mod counting;
mod error;
mod mirror;
#[cfg(test)]
mod tests;
mod turns;
mod world;

pub use asking::{is_plain, path_of};
pub use error::ChangeError;
pub use mirror::Mirror;
pub use world::World;
