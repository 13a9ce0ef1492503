//! Sites: their register, and the sites in a rectangle by looking at every record in turn.
#![tactic(auto)]

pub mod list;
pub mod promises;
pub mod question;
pub mod register;
pub mod site;
