//! What the contracts leave open: that claims find the free frames, what the census counts, that
//! the drop of a leased device gives its frames back, and threads.

mod one_thread;
mod readme;
mod threads;
