//! What the contracts leave open: which line makes which event.

mod lines;
mod scripts;
mod threads;
