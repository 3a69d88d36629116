//! The items of a page that lists the routes of a table.

ghost use Rattle.std.specs.Prelude.{◌≡◌, ◌<◌, false, [], option_map, IfOk, OnOk};
ghost use Rattle.std.specs.Arc.{arc_value};

use crate::judging::{is_accepted, is_filtered, is_kept_from};
use crate::routes::{put_more, put_row, put_table_row};
use crate::server_pages::ServerPages;
use crate::server_pages::course::{behind_route, comma, is_last_of, next_table, passing_over};
use rs_attrs::Attrs;
use rs_octets::Prefix;
use rs_page_parts::members::member_at;
use rs_page_parts::tables::{Rib, Tables};
use rs_page_parts::texts::put_prefix;
use rs_page_parts::views::{Item, Listing, Stage, View};
use rs_page_rows::attributes::{bgp_text, cells_text};
use rs_page_rows::members::put_origin;
use rs_page_rows::people::target_of;
use rs_window::page::Page;
use std::alloc::AllocError;
use std::sync::Arc;

impl<'a, T: Tables> ServerPages<'a, T> {
    ghost use Rattle.rs_pages.specs.Listings.{first_of, Lists, IsLast, IsBehindTable, IsNext, IsOwnEnd, IsTableEnd, IsEnd, IsListed, IsTableRow, IsRow, IsRouteItem};

    /// Puts the end of one of our own pages of routes: the prefix from which on more come.
    fn put_next(&self, listing: Listing, page: Page, text: &mut Vec<u8>) -> Result<(), AllocError>
        requires { text.old.items ≡ [] }
        ensures { OnOk result (IsOwnEnd (first_of (T.first self.now.tables.now) listing page) page.at text.new.items) }
    {
        let owner = listing.owner(page);
        match self.tables.first_from(listing.table(), owner, page.at) {
            None => text.extend_from_slice(b"],\"next\":null}\n"),
            Some((prefix, _)) => {
                text.extend_from_slice(b"],\"next\":\"")?;
                put_prefix(text, &prefix)?;
                text.extend_from_slice(b"\"}\n")
            }
        }
    }

    /// Puts the end of one for people, with a link to the page of those that come.
    fn put_table_end(
        &self,
        listing: Listing,
        page: Page,
        text: &mut Vec<u8>,
    ) -> Result<(), AllocError>
        requires { text.old.items ≡ [] }
        ensures { OnOk result (IsTableEnd (first_of (T.first self.now.tables.now) listing page) page text.new.items) }
    {
        let target = target_of(self.alloc, self.tables, listing, page)?;
        let owner = listing.owner(page);
        match self.tables.first_from(listing.table(), owner, page.at) {
            None => text.extend_from_slice(b"</table>\n</html>\n"),
            Some((prefix, _)) => {
                text.extend_from_slice(b"</table>\n")?;
                put_more(text, &target, &prefix, page.most)?;
                text.extend_from_slice(b"</html>\n")
            }
        }
    }

    /// Puts the end of a page of routes.
    fn put_end(
        &self,
        view: View,
        listing: Listing,
        page: Page,
        text: &mut Vec<u8>,
    ) -> Result<(), AllocError>
        requires { text.old.items ≡ [] }
        ensures { OnOk result (IsEnd view (first_of (T.first self.now.tables.now) listing page) page text.new.items) }
    {
        match view {
            View::Routes | View::Filtered | View::NoExport => text.extend_from_slice(b"]}\n"),
            View::ReceivedTable | View::SentTable => self.put_table_end(listing, page, text),
            _ => self.put_next(listing, page, text),
        }
    }

    /// The next route of the table that a page goes through; `None` where none is left to come, or to list.
    fn next_route(&self, listing: Listing, page: Page) -> Option<(Prefix, &Arc<Attrs>)>
        ensures { IsNext (first_of (T.first self.now.tables.now) listing page) page (option_map (λ route. (route.0, arc_value route.1.now)) result) }
    {
        if page.left == 0 {
            return None;
        }
        let owner = listing.owner(page);
        self.tables.first_from(listing.table(), owner, page.at)
    }

    /// Whether a page lists a route of that table.
    fn lists(&self, listing: Listing, page: Page, prefix: &Prefix, attrs: &Attrs) -> bool
        ensures { Lists (T.configured self.now.tables.now) listing page prefix.now attrs.now result }
    {
        let config = self.tables.config();
        match listing {
            Listing::Received | Listing::Sent => true,
            Listing::Imported => is_accepted(config, page.place, prefix, attrs),
            Listing::Filtered => is_filtered(config, page.place, prefix, attrs),
            Listing::NoExport => is_kept_from(config, page.member, page.place, prefix, attrs),
        }
    }

    /// Whether no other table comes behind that.
    fn is_last(&self, listing: Listing, page: Page) -> bool
        ensures last { IsLast (T.configured self.now.tables.now) listing page result }
        ensures bound { result ≡ false → page.member < usize.MAX }
    {
        match listing {
            Listing::Received | Listing::Sent | Listing::Imported | Listing::Filtered => true,
            Listing::NoExport => is_last_of(self.tables.config().clients(), page.member),
        }
    }

    /// What all rows of a member's table have in common.
    pub(super) fn common(&self, rib: Rib, member: usize) -> Result<Vec<u8>, AllocError> {
        let mut common = Vec::new(self.alloc);
        if rib == Rib::Received
            && let Some(member) = member_at(self.tables, member)
        {
            put_origin(&mut common, self.alloc, self.moments, &member)?;
        }
        Ok(common)
    }

    /// Puts the row of a route in JSON, with what all rows of its table have in common.
    pub(super) fn put_listed(
        &self,
        stage: Stage,
        common: &[u8],
        prefix: &Prefix,
        attrs: &Attrs,
        text: &mut Vec<u8>,
    ) -> Result<(), AllocError>
        requires { text.old.items ≡ [] }
        ensures { OnOk result (IsListed stage prefix.now attrs.now text.new.items) }
    {
        let bgp = bgp_text(self.alloc, attrs)?;
        text.extend_from_slice(comma(stage))?;
        put_row(text, prefix, attrs, common, &bgp)?;
        Ok(())
    }

    /// Puts the row of a route for people.
    fn put_shown(
        &self,
        prefix: &Prefix,
        attrs: &Attrs,
        text: &mut Vec<u8>,
    ) -> Result<(), AllocError>
        requires { text.old.items ≡ [] }
        ensures { OnOk result (IsTableRow prefix.now attrs.now text.new.items) }
    {
        let cells = cells_text(self.alloc, attrs)?;
        put_table_row(text, prefix, attrs, &cells)?;
        Ok(())
    }

    /// Puts the row of a route.
    fn put_route(
        &self,
        item: Item,
        listing: Listing,
        prefix: &Prefix,
        attrs: &Attrs,
        text: &mut Vec<u8>,
    ) -> Result<(), AllocError>
        requires { text.old.items ≡ [] }
        ensures { OnOk result (IsRow item.view item.stage prefix.now attrs.now text.new.items) }
    {
        match item.view {
            View::ReceivedTable | View::SentTable => self.put_shown(prefix, attrs, text),
            _ => {
                let common = self.common(listing.table(), listing.owner(item.page))?;
                self.put_listed(item.stage, &common, prefix, attrs, text)
            }
        }
    }

    /// Goes on to the next table, or puts the end.
    fn put_behind_table(
        &self,
        view: View,
        listing: Listing,
        page: Page,
        text: &mut Vec<u8>,
    ) -> Result<Option<Page>, AllocError>
        requires { text.old.items ≡ [] }
        ensures { IfOk result (IsBehindTable (T.first self.now.tables.now) (T.configured self.now.tables.now) view listing page text.new.items) }
    {
        if !self.is_last(listing, page) {
            return Ok(Some(next_table(page)));
        }
        self.put_end(view, listing, page, text)?;
        Ok(None)
    }

    /// Puts the next route of a page that lists some, or passes it over, or goes on to what is behind the table.
    pub(super) fn put_next_route(
        &self,
        item: Item,
        listing: Listing,
        text: &mut Vec<u8>,
    ) -> Result<Option<Page>, AllocError>
        requires { text.old.items ≡ [] }
        ensures { IfOk result (λ next. IsRouteItem (T.first self.now.tables.now) (T.configured self.now.tables.now) item.view listing item.stage item.page text.new.items next) }
    {
        let Some((prefix, attrs)) = self.next_route(listing, item.page) else {
            return self.put_behind_table(item.view, listing, item.page, text);
        };
        if !self.lists(listing, item.page, &prefix, attrs) {
            return Ok(Some(passing_over(item.page, &prefix)));
        }
        self.put_route(item, listing, &prefix, attrs, text)?;
        Ok(Some(behind_route(item.view, item.page, &prefix)))
    }
}
