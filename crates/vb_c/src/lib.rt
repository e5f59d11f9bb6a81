//! `vb_core`, `vb_monitor`, `vb_host` and `vb_policy` for C: the headers say what each call is for.
//! Each export takes any argument, and answers by a code; the device is one plain struct in the
//! caller's memory, and nothing is allocated.
#![tactic(auto)]

mod bits;
mod hinting;
mod kinds;
mod marks;
mod notice;
mod places;
mod policy;
mod queues;
mod registers;
mod saving;
mod seats;
mod serving;
mod showing;
