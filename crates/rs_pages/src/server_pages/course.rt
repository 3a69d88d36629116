//! How a page goes on: the page behind its head, behind an item, or behind a piece.

ghost use Rattle.std.specs.Prelude.{◌≡◌, ◌+◌, ◌<◌, nat_le, false};
ghost use Rattle.rs_pages.specs.Counting.{behind_count, counting};
ghost use Rattle.rs_pages.specs.Listings.{IsHead, comma_text, behind_head, behind_member, behind_route, passing_over, next_table, stopped};

use rs_octets::Prefix;
use rs_page_parts::keys::key;
use rs_page_parts::views::{Stage, View};
use rs_window::page::{Next, Page, Piece};

/// The page behind its head.
fn behind_head(view: View, page: Page) -> Page
    ensures { result ≡ behind_head view page }
{
    Page {
        which: view.at(Stage::First),
        ..page
    }
}

/// The page behind its head, where something comes behind that.
pub(crate) fn next_of_head(view: View, page: Page) -> Option<Page>
    ensures { IsHead view page result }
{
    match view {
        View::Status | View::Count | View::Member => None,
        _ => Some(behind_head(view, page)),
    }
}

/// The page behind what is shown of a member: from the next on.
pub(crate) fn behind_member(view: View, page: Page, member: usize) -> Page
    ensures { member < usize.MAX → result ≡ behind_member view page member }
{
    Page {
        which: view.at(Stage::Rest),
        member: member.saturating_add(1),
        ..page
    }
}

/// The page behind a route: from right behind its prefix on, and one less.
pub(crate) fn behind_route(view: View, page: Page, prefix: &Prefix) -> Page
    requires { 0 < page.left }
    ensures { result ≡ behind_route view page prefix.now }
{
    Page {
        which: view.at(Stage::Rest),
        at: key(prefix) + 1,
        left: page.left - 1,
        ..page
    }
}

/// The page behind a route that it doesn't list.
pub(crate) fn passing_over(page: Page, prefix: &Prefix) -> Page
    ensures { result ≡ passing_over page prefix.now }
{
    Page {
        at: key(prefix) + 1,
        ..page
    }
}

/// The page at the start of the next member's table.
pub(crate) fn next_table(page: Page) -> Page
    requires { page.member < usize.MAX }
    ensures { result ≡ next_table page }
{
    Page {
        member: page.member + 1,
        at: 0,
        ..page
    }
}

/// Whether no member comes behind this one, of so many.
pub(crate) fn is_last_of(count: usize, member: usize) -> bool
    ensures last { result ≡ nat_le count (member + 1) }
    ensures bound { result ≡ false → member < usize.MAX }
{
    match member.checked_add(1) {
        None => true,
        Some(next) => count <= next,
    }
}

/// What stands before an item: a comma before each but the first.
pub(crate) fn comma(stage: Stage) -> &'static [u8]
    ensures { result.now ≡ comma_text stage }
{
    match stage {
        Stage::Head | Stage::First => b"",
        Stage::Rest => b",",
    }
}

/// What comes behind a piece in which the next item has no room: nothing where it is empty, since the item
/// never has room then.
pub(crate) fn stopped(piece: &Piece, page: Page) -> Next
    ensures { result ≡ stopped piece.now page }
{
    if piece.octets().is_empty() {
        Next::Cut
    } else {
        Next::More(page)
    }
}

/// The page behind a route, which is counted where it is preferred.
pub(crate) fn counting(page: Page, prefix: &Prefix, is_preferred: bool) -> Page
    ensures { result ≡ counting page prefix.now is_preferred }
{
    let behind = passing_over(page, prefix);
    if is_preferred {
        Page {
            counted: page.counted.saturating_add(1),
            ..behind
        }
    } else {
        behind
    }
}

/// The page behind a member's count: with the next member, where it counts each.
pub(crate) fn behind_count(view: View, page: Page, counted: usize) -> Option<Page>
    requires { counted < usize.MAX }
    ensures { result ≡ behind_count view page counted }
{
    let at_member = Page {
        member: counted,
        ..page
    };
    match view {
        View::Protocols => Some(Page {
            which: view.at(Stage::Rest),
            counted: 0,
            ..next_table(at_member)
        }),
        _ => None,
    }
}
