//! The calls on a guest and the questions about it, each with an answer of its own type.

mod device;
mod lives;
mod pages;
mod questions;
mod requests;
