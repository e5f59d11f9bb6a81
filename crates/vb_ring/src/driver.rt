//! The driver's end.

ghost use Rattle.std.specs.Prelude.{◌≡◌, ◌<◌, ◌≤◌, length, min};
ghost use Rattle.vb_chain.specs.declared.pieces.TheConstants.{MAX_DESCRIPTORS};
ghost use Rattle.vb_ring.specs.Layout.{layout_of, IsSize, IsInside, IsBacked};
ghost use Rattle.vb_ring.specs.Ends.{IsDriverEnd, next_head, outstanding, fresh_end};
ghost use Rattle.vb_ring.specs.Calls.{AddsBy, TakesUsedBy};

use crate::Layout;
use crate::entries::{next_used, put_avail};
use crate::owners::Owners;
use arrayvec::ArrayVec;
use std::marker::Model;
use vb_chain::{MAX_DESCRIPTORS, Piece, write_chain};
use vb_ram::GuestBytes;

/// A chain of so few pieces is added without an array of all descriptors.
const FEW_PIECES: usize = 8;

/// Why `add` refuses.
#[derive(Clone, Copy, Debug, PartialEq, Eq)]
pub enum Full {
    /// Fewer descriptors are free than the chain has pieces.
    TooFewFree,
}

/// What a used ring says that no device may say.
#[derive(Clone, Copy, Debug, PartialEq, Eq)]
pub enum RingBroken {
    /// Its index is further ahead than there are outstanding chains.
    IndexAhead,
    /// The element's id is no head of an outstanding chain.
    NotOutstanding,
}

/// The driver's end of a split virtqueue. It remembers how many chains it published and how many
/// used elements it has seen, and for each descriptor the head of the chain that it belongs to.
#[derive(Drop)]
pub struct DriverRing {
    /// Where it lies.
    layout: Layout,
    /// How many descriptors it has.
    size: u16,
    /// How many chains were published, modulo 65,536.
    published: u16,
    /// How many used elements were seen, modulo 65,536.
    seen: u16,
    /// For each descriptor the head of the chain that it belongs to, or none.
    owners: Owners,
}

impl Model for DriverRing {
    ghost use Rattle.vb_ring.specs.Ends.{DriverEnd, IsDriverEnd};

    ghost Value = { DriverEnd };

    ghost view = { λ s. record {
      layout = s.layout;
      size = s.size;
      published = s.published;
      seen = s.seen;
      owner = s.owners;
    } };

    ghost invariant = { λ s. IsDriverEnd (record {
      layout = s.layout;
      size = s.size;
      published = s.published;
      seen = s.seen;
      owner = s.owners;
    }) };
}

impl DriverRing {
    /// A ring of `size` descriptors from page `page` on, of which nothing is out. Its pages are to
    /// be zeroed before the first `add`.
    pub fn new(page: u16, size: u16) -> DriverRing
        requires { IsSize size }
        ensures is_end { IsDriverEnd result }
        ensures value { result ≡ fresh_end (layout_of page size) size }
    {
        DriverRing {
            layout: Layout::at(page, size),
            size,
            published: 0,
            seen: 0,
            owners: Owners::new(size),
        }
    }

    /// Where the ring lies.
    pub fn layout(&self) -> Layout
        ensures is_end { IsDriverEnd self.now }
        ensures value { result ≡ self.now.layout }
    {
        self.layout
    }

    /// The head of the next `add`: the lowest free descriptor, if one is free.
    pub fn next_head(&self) -> Option<u16>
        ensures is_end { IsDriverEnd self.now }
        ensures value { result ≡ next_head self.now }
    {
        self.owners.lowest_free()
    }

    /// How many chains were added and not taken back.
    pub fn outstanding(&self) -> u16
        ensures is_end { IsDriverEnd self.now }
        ensures value { result ≡ outstanding self.now }
    {
        self.owners.outstanding()
    }

    /// Publishes a chain of these pieces on the lowest free descriptors, in rising order (VIRTIO
    /// 1.1, 2.6.13), and answers its head.
    pub fn add<G: GuestBytes>(&mut self, ram: &mut G, pieces: &[Piece]) -> Result<u16, Full>
        requires backed { IsBacked (G.mem ram.old) self.old.layout }
        requires some { 0 < length pieces.now }
        ensures adds { AddsBy (G.mem ram.old) (G.mem ram.new) self.old self.new pieces.now result }
        ensures part { G.part ram.new ≡ G.part ram.old }
    {
        if pieces.len() <= FEW_PIECES {
            self.add_along::<G, FEW_PIECES>(ram, pieces)
        } else {
            self.add_along::<G, MAX_DESCRIPTORS>(ram, pieces)
        }
    }

    /// Publishes a chain whose path has room in an array of N: the larger that is, the longer it
    /// takes to be made.
    fn add_along<G: GuestBytes, const N: usize>(
        &mut self,
        ram: &mut G,
        pieces: &[Piece],
    ) -> Result<u16, Full>
        requires backed { IsBacked (G.mem ram.old) self.old.layout }
        requires some { 0 < length pieces.now }
        requires room { min (length pieces.now) MAX_DESCRIPTORS ≤ N }
        requires few { N ≤ MAX_DESCRIPTORS }
        ensures adds { AddsBy (G.mem ram.old) (G.mem ram.new) self.old self.new pieces.now result }
        ensures part { G.part ram.new ≡ G.part ram.old }
    {
        let mut path = ArrayVec::<u16, N>::new();
        if !self.owners.find_free(pieces.len(), &mut path) {
            return Err(Full::TooFewFree);
        }
        let path: &[u16] = &path;
        let head = path[0];
        write_chain(ram, self.layout.table, self.size, path, pieces);
        put_avail(ram, self.layout, self.size, self.published, head);
        self.published = self.published.wrapping_add(1);
        self.owners.claim(path);
        Ok(head)
    }

    /// Takes the next chain that the device has used, and answers its head; its descriptors are
    /// free again (VIRTIO 1.1, 2.6.14).
    pub fn take_used<G: GuestBytes>(&mut self, ram: &G) -> Result<Option<u16>, RingBroken>
        requires { IsInside (G.mem ram.now) self.old.layout }
        ensures { TakesUsedBy (G.mem ram.now) self.old self.new result }
    {
        let most = self.owners.outstanding();
        let id = match next_used(ram, self.layout, self.size, self.seen, most) {
            Ok(Some(id)) => id,
            Ok(None) => return Ok(None),
            Err(broken) => return Err(broken),
        };
        if id >= u32::from(self.size) || !self.owners.is_head(id as u16) {
            return Err(RingBroken::NotOutstanding);
        }
        let head = id as u16;
        self.owners.release(head);
        self.seen = self.seen.wrapping_add(1);
        Ok(Some(head))
    }
}
