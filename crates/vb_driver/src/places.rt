//! Where each page of the guest is.

mod lowest;
mod ranges;

ghost use Rattle.std.specs.Prelude.{◌≡◌, ◌≤◌, ◌<◌, ◌+◌, ◌-◌, ◌||◌, length, map};
ghost use Rattle.std.specs.Prelude.{slice_set};
ghost use Rattle.std.specs.Prelude.{count_by, IfOk};
ghost use Rattle.vb_bits.specs.Sets.{has};
ghost use Rattle.vb_model.specs.Pages.{all_free, place_of};
ghost use Rattle.vb_model.specs.declared.places.Place.TheVariants.{Taking};
ghost use Rattle.vb_model.specs.Pages.{is_lent, is_stranded, is_reporting};
ghost use Rattle.vb_virtio.specs.declared.limits.TheConstants.{MAX_GUEST_PAGES};
ghost use Rattle.vb_model.specs.Life.{place_after_reset};
ghost use Rattle.vb_driver.specs.Places.{number_of, is_at};

pub(crate) use ranges::count_pages;
use std::alloc::{AllocError, Global};
use std::marker::Model;
use vb_bits::BitSet;
use vb_model::Place;

/// Where each page is. A contract sees the places, by page.
#[derive(Drop)]
pub(crate) struct PlaceTable {
    /// The place of each page.
    places: Vec<Place>,
    /// How many pages have a place, by the number of the place.
    counts: [u32; 8],
    /// The lent pages.
    lent: BitSet,
    /// The stranded pages.
    stranded: BitSet,
}

impl Model for PlaceTable {
    ghost use Rattle.std.specs.Prelude.{List};
    ghost use Rattle.vb_model.specs.declared.places.Place.{Place};
    ghost use Rattle.vb_driver.specs.Places.{IsTable};

    ghost Value = { List Place };

    ghost view = { λ t. t.places.items };

    ghost invariant = { λ t. IsTable t.counts t.lent t.stranded t.places.items };
}

/// The number of a place in a table of counts.
fn number_of(place: Place) -> usize
    ensures { result ≡ number_of place }
{
    match place {
        Place::Reserved => 0,
        Place::Free => 1,
        Place::Used => 2,
        Place::Giving => 3,
        Place::Lent => 4,
        Place::Taking => 5,
        Place::Stranded => 6,
        Place::Reporting => 7,
    }
}

/// Whether a page is lent to the host.
fn is_lent(place: Place) -> bool
    ensures { result ≡ is_lent place }
{
    matches!(place, Place::Lent)
}

/// Whether a page is stranded.
fn is_stranded(place: Place) -> bool
    ensures { result ≡ is_stranded place }
{
    matches!(place, Place::Stranded)
}

/// Whether a page is reported to the host.
pub(crate) fn is_reporting(place: Place) -> bool
    ensures { result ≡ is_reporting place }
{
    matches!(place, Place::Reporting)
}

/// Puts a page into the set of a place or takes it out of it, where that changes the set.
fn mark(set: &mut BitSet, page: u32, was: bool, is: bool)
    requires inside { page < length set.old }
    requires was { was ≡ has set.old page }
    ensures { set.new ≡ slice_set set.old page is }
{
    if is == was {
        return;
    }
    if is {
        set.insert(page);
    } else {
        set.remove(page);
    }
}

/// Whether the pages of a place are kept as a set.
fn is_in_set(place: Place) -> bool
    ensures { result ≡ (is_lent place || is_stranded place) }
{
    is_lent(place) || is_stranded(place)
}

impl PlaceTable {
    /// The place of a page; one that isn't there counts as reserved.
    pub(crate) fn place(&self, page: u32) -> Place
        ensures { result ≡ place_of self.now page }
    {
        match self.places.get(page as usize) {
            Some(place) => *place,
            None => Place::Reserved,
        }
    }

    /// The places, by page.
    pub(crate) fn as_slice(&self) -> &[Place]
        ensures places { result.now ≡ self.now }
        ensures few { length result.now ≤ MAX_GUEST_PAGES }
    {
        &self.places
    }

    /// How many pages there are.
    pub(crate) fn pages(&self) -> u32
        ensures { result ≡ length self.now }
    {
        self.places.len() as u32
    }

    /// Moves a page to a place.
    pub(crate) fn set(&mut self, page: u32, place: Place)
        requires { page < length self.old }
        ensures { self.new ≡ slice_set self.old page place }
    {
        let old = self.places[page as usize];
        if old == place {
            return;
        }
        self.counts[number_of(old)] -= 1;
        self.counts[number_of(place)] += 1;
        self.places[page as usize] = place;
        mark(&mut self.lent, page, is_lent(old), is_lent(place));
        mark(
            &mut self.stranded,
            page,
            is_stranded(old),
            is_stranded(place),
        );
    }

    /// The table of a guest of `pages` pages as it is plugged in: `reserved` are reserved, and all
    /// others are free.
    pub(crate) fn new(alloc: Global, pages: u32, reserved: u32) -> Result<Self, AllocError>
        requires some { 0 < pages }
        requires most { pages ≤ MAX_GUEST_PAGES }
        ensures { IfOk result (λ table. table ≡ all_free reserved pages) }
    {
        let places = vec![in alloc; Place::Reserved; pages as usize]?;
        let mut counts = [0; 8];
        counts[number_of(Place::Reserved)] = pages;
        let mut table = PlaceTable {
            places,
            counts,
            lent: BitSet::new(alloc, pages)?,
            stranded: BitSet::new(alloc, pages)?,
        };
        table.renew(reserved);
        Ok(table)
    }

    /// Moves each page to the place that it has where the guest is plugged in, of whose pages
    /// `reserved` are reserved.
    pub(crate) fn renew(&mut self, reserved: u32)
        ensures { self.new ≡ all_free reserved (length self.old) }
    {
        let pages = self.pages();
        let reserved = reserved.min(pages);
        self.set_range(0, reserved, Place::Reserved);
        self.set_range(reserved, pages, Place::Free);
    }

    /// Moves each page to the place that it has after a reset of the device.
    pub(crate) fn strand(&mut self)
        ensures { self.new ≡ map place_after_reset self.old }
    {
        let pages = self.places.len();
        for page in 0..pages {
            let page = page as u32;
            let place = self.place(page);
            self.set(page, after_reset(place));
        }
    }

    /// How many pages have a place.
    pub(crate) fn count(&self, place: Place) -> u32
        ensures value { result ≡ count_by (is_at place) self.now }
        ensures few { result ≤ MAX_GUEST_PAGES }
    {
        self.counts[number_of(place)]
    }
}

/// The place that a page has after a reset of the device.
fn after_reset(place: Place) -> Place
    ensures { result ≡ place_after_reset place }
{
    match place {
        Place::Giving | Place::Lent | Place::Taking => Place::Stranded,
        Place::Reporting => Place::Free,
        place => place,
    }
}
