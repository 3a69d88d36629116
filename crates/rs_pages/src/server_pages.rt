//! The pages, written an item at a time: a head, items, and an end.

ghost use Rattle.std.specs.Prelude.{◌≡◌, ℕ, [], Some, IfOk, OnOk};
ghost use Rattle.rs_page_parts.specs.Views.{counted_of, most_items};

mod counts;
mod course;
mod listings;

use crate::candidates::{Question, next_candidate, next_holder, ranks_to};
use crate::reasons::put_candidate;
use crate::server_pages::course::{behind_member, comma, next_of_head, stopped};
use rs_octets::Prefix;
use rs_page_parts::keys::prefix_at;
use rs_page_parts::members::member_at;
use rs_page_parts::tables::{Holder, Rib, Tables};
use rs_page_parts::views::{Item, Listing, Stage, View, most_items};
use rs_page_rows::attributes::cells_text;
use rs_page_rows::heads::{put_count, put_list, put_question, put_status, put_table};
use rs_page_rows::members::put_member_row;
use rs_page_rows::metrics::{Metric, put_server};
use rs_page_rows::moments::Moments;
use rs_page_rows::people::{put_found, put_holder, put_home, put_member, put_routes};
use rs_page_rows::targets::find_page;
use rs_window::page::{Next, PIECE, Page, Pages, Piece};
use std::alloc::{AllocError, Global};

/// The pages of a server as it stands.
#[derive(Drop)]
pub struct ServerPages<'a, T> {
    pub(crate) alloc: Global,
    pub(crate) tables: &'a T,
    pub(crate) moments: &'a Moments<'a>,
}

impl<'a, T: Tables> ServerPages<'a, T> {
    ghost use Rattle.rs_page_parts.specs.Holders.{holding};
    ghost use Rattle.rs_page_parts.specs.Keys.{IsAt};
    ghost use Rattle.rs_pages.specs.Listings.{IsHead, IsItem, IsListed, IsHolderItem, IsWhyItem, IsBehindHead, Writes};
    ghost use Rattle.rs_octets.specs.Prefixes.{Prefix};
    ghost use Rattle.rs_pages.specs.Counting.{IsCountItem};

    pub fn new(alloc: Global, tables: &'a T, moments: &'a Moments<'a>) -> ServerPages<'a, T> {
        ServerPages {
            alloc,
            tables,
            moments,
        }
    }

    /// Puts what a page begins with.
    fn put_front(&self, view: View, page: Page, text: &mut Vec<u8>) -> Result<(), AllocError> {
        let tables = self.tables;
        match view {
            View::Home => put_home(text, self.alloc, tables, self.moments),
            View::Member => put_member(text, self.alloc, tables, self.moments, page.place),
            View::Status => put_status(text, self.alloc, tables, self.moments),
            View::Count => put_count(text, self.alloc, tables, self.moments, page.place),
            View::Protocols | View::Protocol => put_list(
                text,
                self.alloc,
                self.moments,
                b"\"protocols\":{",
            ),
            View::Routes | View::Filtered | View::NoExport | View::AtPrefix => {
                put_list(text, self.alloc, self.moments, b"\"routes\":[")
            }
            View::Received => put_table(text, tables, page.place, b"received"),
            View::Sent => put_table(text, tables, page.place, b"sent"),
            View::ReceivedTable => put_routes(text, tables, Listing::Received, page),
            View::SentTable => put_routes(text, tables, Listing::Sent, page),
            View::Search => put_found(text, self.alloc, &prefix_at(page.at)),
            View::Why => put_question(text, tables, page),
            View::Metrics => put_server(text, tables, self.moments),
        }
    }

    /// Puts the head of a page; `None` where nothing comes behind it.
    fn put_head(
        &self,
        view: View,
        page: Page,
        text: &mut Vec<u8>,
    ) -> Result<Option<Page>, AllocError>
        ensures { IfOk result (IsHead view page) }
    {
        self.put_front(view, page, text)?;
        Ok(next_of_head(view, page))
    }

    /// Puts the row of the next member.
    fn put_next_member(&self, page: Page, text: &mut Vec<u8>) -> Result<Option<Page>, AllocError> {
        let Some(member) = member_at(self.tables, page.member) else {
            text.extend_from_slice(b"</table>\n</html>\n")?;
            return Ok(None);
        };
        put_member_row(text, self.alloc, self.tables, self.moments, &member)?;
        Ok(Some(behind_member(View::Home, page, member.place)))
    }

    /// Puts the next sample of the metrics, with what stands above where it is the first of its own.
    fn put_next_sample(&self, page: Page, text: &mut Vec<u8>) -> Result<Option<Page>, AllocError> {
        let Some(metric) = Metric::of(page.at) else {
            return Ok(None);
        };
        let member = page.member;
        if member == 0 {
            metric.put_head(text)?;
        }
        if member >= self.tables.config().clients() {
            return Ok(Some(Page {
                at: page.at.saturating_add(1),
                member: 0,
                ..page
            }));
        }
        metric.put_sample(text, self.tables, self.moments, member)?;
        Ok(Some(behind_member(View::Metrics, page, member)))
    }

    /// Puts the row of one who holds a prefix.
    fn put_held(
        &self,
        stage: Stage,
        prefix: &Prefix,
        holder: &Holder<'_>,
        text: &mut Vec<u8>,
    ) -> Result<(), AllocError>
        requires { text.old.items ≡ [] }
        ensures { OnOk result (IsListed stage prefix.now (holding holder.now).attributes text.new.items) }
    {
        let common = self.common(Rib::Received, holder.member)?;
        self.put_listed(stage, &common, prefix, holder.attrs, text)
    }

    /// Puts the row of the next who holds a prefix.
    fn put_next_holder(&self, item: Item, text: &mut Vec<u8>) -> Result<Option<Page>, AllocError>
        requires { text.old.items ≡ [] }
        ensures { IfOk result (λ next. (p : Prefix) → IsAt item.page.at p → IsHolderItem (T.configured self.now.tables.now) (T.holders self.now.tables.now) item.stage item.page p text.new.items next) }
    {
        let prefix = prefix_at(item.page.at);
        let holders = self.tables.holders_of(self.alloc, &prefix)?;
        let Some(holder) = next_holder(self.tables.config(), &holders, item.page.member) else {
            text.extend_from_slice(b"]}\n")?;
            return Ok(None);
        };
        self.put_held(item.stage, &prefix, &holder, text)?;
        Ok(Some(behind_member(View::AtPrefix, item.page, holder.member)))
    }

    /// Puts the row of the next who holds a prefix.
    fn put_next_found(&self, page: Page, text: &mut Vec<u8>) -> Result<Option<Page>, AllocError> {
        let prefix = prefix_at(page.at);
        let holders = self.tables.holders_of(self.alloc, &prefix)?;
        let Some(holder) = next_holder(self.tables.config(), &holders, page.member) else {
            text.extend_from_slice(b"</table>\n</html>\n")?;
            return Ok(None);
        };
        if let Some(member) = member_at(self.tables, holder.member) {
            let cells = cells_text(self.alloc, holder.attrs)?;
            put_holder(text, &member, &prefix, holder.attrs, &cells)?;
        }
        Ok(Some(behind_member(View::Search, page, holder.member)))
    }

    /// Puts the next candidate for a prefix, and what becomes of it.
    fn put_next_candidate(
        &self,
        stage: Stage,
        page: Page,
        text: &mut Vec<u8>,
    ) -> Result<Option<Page>, AllocError>
        requires { text.old.items ≡ [] }
        ensures { IfOk result (λ next. (p : Prefix) → IsAt page.at p → IsWhyItem (T.configured self.now.tables.now) (T.holders self.now.tables.now) (T.speaks self.now.tables.now) stage page p text.new.items next) }
    {
        let config = self.tables.config();
        let question = Question {
            config,
            to: page.place,
            speech: self.tables.speech(page.place),
            prefix: prefix_at(page.at),
        };
        let holders = self.tables.holders_of(self.alloc, &question.prefix)?;
        let Some(holder) = next_candidate(&question, &holders, page.member) else {
            text.extend_from_slice(b"]}\n")?;
            return Ok(None);
        };
        let ranks = ranks_to(self.alloc, &question, &holders)?;
        text.extend_from_slice(comma(stage))?;
        put_candidate(text, self.alloc, &question, &ranks, &holder)?;
        Ok(Some(behind_member(View::Why, page, holder.member)))
    }

    /// Puts the next item of a page, and answers the page behind it; `None` behind its last.
    fn put_item(&self, page: Page, text: &mut Vec<u8>) -> Result<Option<Page>, AllocError>
        requires { text.old.items ≡ [] }
        ensures { IfOk result (λ next. IsItem (T.first self.now.tables.now) (T.configured self.now.tables.now) (T.holders self.now.tables.now) (T.speaks self.now.tables.now) page text.new.items next) }
    {
        let Some((view, stage)) = View::read(page.which) else {
            return Ok(None);
        };
        if stage.is_head() {
            return self.put_head(view, page, text);
        }
        self.put_behind_head(view, stage, page, text)
    }

    /// Puts the next item of a page behind its head.
    fn put_behind_head(
        &self,
        view: View,
        stage: Stage,
        page: Page,
        text: &mut Vec<u8>,
    ) -> Result<Option<Page>, AllocError>
        requires { text.old.items ≡ [] }
        ensures { IfOk result (IsBehindHead (T.first self.now.tables.now) (T.configured self.now.tables.now) (T.holders self.now.tables.now) (T.speaks self.now.tables.now) view stage page text.new.items) }
    {
        let item = Item { view, stage, page };
        match view {
            View::AtPrefix => self.put_next_holder(item, text),
            View::Why => self.put_next_candidate(stage, page, text),
            _ => match view.listing() {
                None => self.put_unlisted(item, text),
                Some(listing) => self.put_next_route(item, listing, text),
            },
        }
    }

    /// Puts the next item of a page that lists no routes.
    fn put_unlisted(&self, item: Item, text: &mut Vec<u8>) -> Result<Option<Page>, AllocError>
        requires { text.old.items ≡ [] }
        ensures { IfOk result (λ next. (c : ℕ) → counted_of item.view item.page ≡ Some c → IsCountItem (T.first self.now.tables.now) (T.configured self.now.tables.now) (T.holders self.now.tables.now) item.view item.page c text.new.items next) }
    {
        match item.view.counted(item.page) {
            None => self.put_other(item.view, item.page, text),
            Some(counted) => self.put_next_count(item.view, item.stage, item.page, counted, text),
        }
    }

    /// Puts the next item of a page that neither lists nor counts routes.
    fn put_other(
        &self,
        view: View,
        page: Page,
        text: &mut Vec<u8>,
    ) -> Result<Option<Page>, AllocError> {
        match view {
            View::Home => self.put_next_member(page, text),
            View::Search => self.put_next_found(page, text),
            View::Metrics => self.put_next_sample(page, text),
            View::Member
            | View::Status
            | View::Protocols
            | View::Protocol
            | View::Count
            | View::AtPrefix
            | View::Why
            | View::Routes
            | View::Filtered
            | View::NoExport
            | View::Received
            | View::Sent
            | View::ReceivedTable
            | View::SentTable => Ok(None),
        }
    }

    /// Puts items until one has no room.
    fn put_items(&self, page: Page, piece: &mut Piece) -> Result<Next, AllocError>
        requires { piece.old ≡ [] }
        ensures { IfOk result (λ next. Writes (IsItem (T.first self.now.tables.now) (T.configured self.now.tables.now) (T.holders self.now.tables.now) (T.speaks self.now.tables.now)) (most_items page.which) 0 0 page piece.new next) }
    {
        let mut text = Vec::with_capacity(self.alloc, PIECE)?;
        let mut at = page;
        for count in 0..most_items(page.which) {
            text.clear();
            let next = self.put_item(at, &mut text)?;
            if !piece.put(&text) {
                return Ok(stopped(piece, at));
            }
            match next {
                None => return Ok(Next::Last),
                Some(behind) => at = behind,
            }
        }
        Ok(Next::More(at))
    }
}

impl<T: Tables> Pages for ServerPages<'_, T> {
    ghost use Rattle.rs_page_parts.specs.Views.{most_items};
    ghost use Rattle.rs_pages.specs.Listings.{IsItem, Writes};

    ghost finds = { λ pages target page. Unit {0} };

    ghost writes = { λ pages page octets next. Writes (IsItem (T.first pages.tables.now) (T.configured pages.tables.now) (T.holders pages.tables.now) (T.speaks pages.tables.now)) (most_items page.which) 0 0 page octets next };

    fn find(&self, target: &[u8]) -> Option<Page> {
        find_page(self.tables, target)
    }

    fn write(&self, page: Page, piece: &mut Piece) -> Result<Next, AllocError> {
        self.put_items(page, piece)
    }
}
