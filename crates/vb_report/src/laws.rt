//! Laws about reports. Each is the contract of a function that does nothing.

ghost use Rattle.std.specs.Prelude.{◌≡◌, ℕ, List, length};
ghost use Rattle.vb_model.specs.declared.places.Place.{Place};
ghost use Rattle.vb_model.specs.Pages.{is_free, place_of, reported, maximal_free_blocks};
ghost use Rattle.vb_pages.specs.PageState.{PageState, page_count, is_free_page};
ghost use Rattle.vb_report.specs.Blocks.{blocks_to_report};

/// Where a guest's places say which pages of its allocator are free, the blocks of a report are
/// those that the definitions give for these places.
pub fn reports_name_free_places()
    ensures { (s : PageState) (places : List Place) → length places ≡ page_count s →
        ((page : ℕ) → is_free_page s page ≡ is_free (place_of places page)) →
        (from room : ℕ) → blocks_to_report s from room ≡
        reported room from (maximal_free_blocks places) }
{}
