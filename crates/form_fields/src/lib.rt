//! Forms, as the fields of an object in their order: what is asked of fields and of the kinds of
//! values that they hold, and the laws that a request has by being made of lawful ones.
#![tactic(auto)]

mod members;

pub use members::put_some;
