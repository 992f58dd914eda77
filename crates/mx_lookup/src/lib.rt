//! Look-ups: answered from the index, which is the first base and the logs of the completed commits, and from nothing
//! else.
//!
//! | call | contract |
//! |---|---|
//! | `look_up` | the reply that the files give which the commits up to an instant list (`specs/Looking.antt`, `IsLookedUp`) |
#![tactic(auto)]

mod looking;
mod slice;
#[cfg(test)]
mod tests;
mod told;

pub use looking::look_up;
