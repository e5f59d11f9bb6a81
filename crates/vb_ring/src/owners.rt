//! The driver's table: for each descriptor the head of the chain that it belongs to.

ghost use Rattle.std.specs.Prelude.{◌≡◌, ℕ, ◌+◌, ◌<◌, ◌≤◌, true, None, length, min, replicate};
ghost use Rattle.std.specs.Prelude.{false, [], take, slice_get, slice_index, slice_index_or};
ghost use Rattle.vb_chain.specs.declared.pieces.TheConstants.{MAX_DESCRIPTORS};
ghost use Rattle.vb_ring.specs.Entries.{is_own, is_head};
ghost use Rattle.vb_ring.specs.Numbers.{numbers};
ghost use Rattle.vb_ring.specs.Ends.{is_unused, claimed, released};
ghost use Rattle.vb_ring.specs.Kept.{IsFreeChain};

use arrayvec::ArrayVec;
use std::marker::Model;
use vb_chain::MAX_DESCRIPTORS;

/// Whether an owner is this head.
fn is_own(owner: Option<u16>, head: u16) -> bool
    ensures { result ≡ is_own head owner }
{
    match owner {
        Some(other) => other == head,
        None => false,
    }
}

/// Gives the descriptors of a path to the chain of a head.
fn claim(owner: &mut [Option<u16>], path: &[u16], head: u16)
    requires { (k : ℕ) → k < length path.now → slice_index path.now k < length owner.old }
    ensures { owner.new ≡ claimed path.now head owner.old }
{
    for i in path {
        owner[usize::from(*i)] = Some(head);
    }
}

/// Frees the descriptors of the chain of a head, of which none is past the `last` one or before the
/// head.
fn release(owner: &mut [Option<u16>], head: u16, last: u16)
    requires inside { last < length owner.old }
    requires between { (i : ℕ) → is_own head (slice_index_or owner.old i None) ≡ true →
        (head ≤ i) × (i ≤ last) }
    ensures { owner.new ≡ released head owner.old }
{
    for i in usize::from(head)..usize::from(last) + 1 {
        if is_own(owner[i], head) {
            owner[i] = None;
        }
    }
}

/// The driver's table. Beside the owners it keeps how many chains are out, where each of them
/// ends, and a number below which no descriptor is free, so that no call has to go through the
/// whole table to know it.
#[derive(Drop)]
pub struct Owners {
    /// For each descriptor the head of the chain that it belongs to, or none; past `count` unused.
    owner: [Option<u16>; MAX_DESCRIPTORS],
    /// How many descriptors there are.
    count: u16,
    /// How many chains are out.
    out: u16,
    /// No descriptor below it is free.
    from: u16,
    /// For each head of a chain that is out the last descriptor of the chain.
    last: [u16; MAX_DESCRIPTORS],
}

impl Model for Owners {
    ghost use Rattle.std.specs.Prelude.{List, Option, ℕ, take};
    ghost use Rattle.vb_ring.specs.Kept.{AreKept};

    ghost Value = { List (Option ℕ) };

    ghost view = { λ t. take t.count t.owner };

    ghost invariant = { λ t. AreKept (take t.count t.owner) t.count t.out t.last t.from };
}

impl Owners {
    /// A table of `count` descriptors, all of them free.
    pub fn new(count: u16) -> Owners
        requires { count ≤ MAX_DESCRIPTORS }
        ensures { result ≡ replicate count None }
    {
        Owners {
            owner: [None; MAX_DESCRIPTORS],
            count,
            out: 0,
            from: 0,
            last: [0; MAX_DESCRIPTORS],
        }
    }

    /// Whether a number is a head: its descriptor belongs to its own chain.
    pub fn is_head(&self, index: u16) -> bool
        ensures { result ≡ is_head self.now index }
    {
        index < self.count && is_own(self.owner[usize::from(index)], index)
    }

    /// How many chains are out.
    pub fn outstanding(&self) -> u16
        ensures { result ≡ length (numbers (is_head self.now) (length self.now)) }
    {
        self.out
    }

    /// Whether a descriptor belongs to no chain.
    fn is_free(&self, index: u16) -> bool
        requires { index < length self.now }
        ensures { result ≡ is_unused self.now index }
    {
        self.owner[usize::from(index)].is_none()
    }

    /// The lowest free descriptor.
    pub fn lowest_free(&self) -> Option<u16>
        ensures { result ≡ slice_get (numbers (is_unused self.now) (length self.now)) 0 }
    {
        for i in self.from..self.count {
            if self.is_free(i) {
                return Some(i);
            }
        }
        None
    }

    /// Puts the lowest free descriptors into a path, `count` of them; false where fewer are free.
    pub fn find_free<const N: usize>(&self, count: usize, path: &mut ArrayVec<u16, N>) -> bool
        requires some { 0 < count }
        requires room { min count MAX_DESCRIPTORS ≤ N }
        requires empty { path.old.items ≡ [] }
        ensures found { result ≡ true →
            path.new.items ≡ take count (numbers (is_unused self.now) (length self.now)) }
        ensures count { result ≡ true → length path.new.items ≡ count }
        ensures few { result ≡ false →
            length (numbers (is_unused self.now) (length self.now)) < count }
    {
        for i in self.from..self.count {
            if self.is_free(i) {
                path.push(i);
                if path.len() == count {
                    return true;
                }
            }
        }
        false
    }

    /// Gives the descriptors of a path to the chain that begins with its first.
    pub fn claim(&mut self, path: &[u16])
        requires { IsFreeChain self.old path.now }
        ensures { self.new ≡ claimed path.now (slice_index path.now 0) self.old }
    {
        let head = path[0];
        claim(&mut self.owner[..usize::from(self.count)], path, head);
        let last = path[path.len() - 1];
        self.last[usize::from(head)] = last;
        self.from = last + 1;
        self.out += 1;
    }

    /// Frees the descriptors of the chain of a head.
    pub fn release(&mut self, head: u16)
        requires { is_head self.old head ≡ true }
        ensures { self.new ≡ released head self.old }
    {
        let last = self.last[usize::from(head)];
        release(&mut self.owner[..usize::from(self.count)], head, last);
        self.from = self.from.min(head);
        self.out -= 1;
    }
}
