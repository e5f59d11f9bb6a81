//! A processor's script, and its place in it.

ghost use Rattle.std.specs.Prelude.{◌≡◌, ◌↔◌, ◌==◌, ◌+◌, ◌≤◌, ◌<◌, length, slice_get, true, Some};
ghost use Rattle.std.specs.Prelude.{IfSome, IfNone, All};
ghost use Rattle.vb_run.specs.Past.{Progress, AllEnded, AreScripts};

use std::convert::AsSlice;
use std::marker::Model;
use vb_model::Call;

/// The calls of a processor, where they are, and how many of them were made.
#[derive(Drop)]
pub(crate) struct Script<L: AsSlice<Call> + Drop> {
    calls: L,
    place: usize,
}

impl<L: AsSlice<Call> + Drop> Model for Script<L> {
    ghost use Rattle.std.specs.Prelude.{◌≤◌, length};
    ghost use Rattle.vb_run.specs.Past.{Progress};

    ghost Value = { Progress };

    ghost view = { λ s. record { calls = L.items s.calls; place = s.place } };

    ghost invariant = { λ s. s.place ≤ length (L.items s.calls) };
}

impl<L: AsSlice<Call> + Drop> Script<L> {
    /// These calls, of which none was made.
    pub fn new(calls: L) -> Script<L>
        ensures { result ≡ record { calls = L.items calls; place = 0 } }
    {
        Script { calls, place: 0 }
    }

    /// The call that is next.
    pub fn next(&self) -> Option<&Call>
        ensures some { IfSome result (λ call. (self.now.place < length self.now.calls)
            × (slice_get self.now.calls self.now.place ≡ Some call.now)) }
        ensures none { IfNone result (self.now.place ≡ length self.now.calls) }
    {
        self.calls.as_slice().get(self.place)
    }

    /// How many calls were made.
    pub fn place(&self) -> usize
        ensures { result ≡ self.now.place }
    {
        self.place
    }

    /// The next call was made.
    pub fn advance(&mut self)
        requires { self.old.place < length self.old.calls }
        ensures { self.new ≡ record self.old { place = self.old.place + 1 } }
    {
        let _calls = self.calls.as_slice().len();
        self.place += 1;
    }

    /// Whether these are its calls.
    fn is_of(&self, calls: &[Call]) -> bool
        ensures { (result ≡ true) ↔ (self.now.calls ≡ calls.now) }
    {
        are_same(self.calls.as_slice(), calls)
    }

    /// How many calls it has.
    pub fn len(&self) -> usize
        ensures { result ≡ length self.now.calls }
    {
        self.calls.as_slice().len()
    }

    /// Whether all calls were made.
    pub fn is_ended(&self) -> bool
        ensures { result ≡ (self.now.place == length self.now.calls) }
    {
        self.place == self.calls.as_slice().len()
    }
}

/// Whether all calls of all scripts were made.
pub(crate) fn all_ended<L: AsSlice<Call> + Drop>(scripts: &[Script<L>]) -> bool
    ensures { (result ≡ true) ↔ AllEnded scripts.now }
{
    for script in scripts {
        if !script.is_ended() {
            return false;
        }
    }
    true
}

/// Whether the calls of each script are those at its place.
pub(crate) fn are_of<L: AsSlice<Call> + Drop>(scripts: &[Script<L>], calls: &[Vec<Call>]) -> bool
    ensures { (result ≡ true) ↔ AreScripts scripts.now calls.now }
{
    if scripts.len() != calls.len() {
        return false;
    }
    for cpu in 0..scripts.len() {
        if !scripts[cpu].is_of(calls[cpu].as_slice()) {
            return false;
        }
    }
    true
}

/// Whether the calls are the same, one by one.
fn are_same(calls: &[Call], others: &[Call]) -> bool
    ensures { (result ≡ true) ↔ (calls.now ≡ others.now) }
{
    if calls.len() != others.len() {
        return false;
    }
    for place in 0..calls.len() {
        if !calls[place].is_same(&others[place]) {
            return false;
        }
    }
    true
}
