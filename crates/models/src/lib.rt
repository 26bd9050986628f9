//! The models of a simulation that come with this project.
#![tactic(auto)]

mod any_model;
mod job_shop;
mod parallel_hold;
mod relay;
mod ring;
mod words;

pub use any_model::AnyModel;
pub use job_shop::JobShop;
pub use parallel_hold::Phold;
pub use relay::Relay;
pub use ring::TokenRing;
pub use words::{next_key, word};
