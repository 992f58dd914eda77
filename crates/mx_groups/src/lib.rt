//! Which groups each completed commit wrote a file of, the newest commit of a group, and how many files the commits list.
//!
//! | call | contract |
//! |---|---|
//! | `Groups::of` | the groups of these commits (`specs/Groups.antt`, `AreGroupsOf`) |
//! | `Groups::note`, `forget` | an object more, or less; `forget` takes no memory |
//! | `Groups::newest` | the newest completed commit that wrote a file of the group, and 0 where there is none (`IsNewestOf`) |
//! | `Groups::live` | how many files the completed commits list (`CountsLive`); no memory is taken |
#![tactic(auto)]

mod groups;
mod listing;
#[cfg(test)]
mod tests;

pub use groups::Groups;
