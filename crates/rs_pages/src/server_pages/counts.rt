//! The items of a page that counts members' preferred routes.

ghost use Rattle.std.specs.Prelude.{◌≡◌, ◌<◌, [], IfOk, OnOk};
ghost use Rattle.rs_pages.specs.Counting.{closing_text};

use crate::counting::is_preferred;
use crate::server_pages::ServerPages;
use crate::server_pages::course::{behind_count, comma, counting};
use rs_octets::Prefix;
use rs_page_parts::members::{Member, member_at, put_counts};
use rs_page_parts::tables::{Rib, Tables};
use rs_page_parts::views::{Stage, View};
use rs_page_rows::members::{imported, put_protocol};
use rs_window::page::Page;
use std::alloc::AllocError;

impl<'a, T: Tables> ServerPages<'a, T> {
    ghost use Rattle.rs_pages.specs.Counting.{IsPreferred, IsTold, IsCountItem};

    /// Whether a member's route for a prefix is preferred.
    fn is_preferred(&self, member: usize, prefix: &Prefix) -> Result<bool, AllocError>
        ensures { IfOk result (IsPreferred (T.configured self.now.tables.now) (T.holders self.now.tables.now) member prefix.now) }
    {
        let config = self.tables.config();
        let holders = self.tables.holders_of(self.alloc, prefix)?;
        is_preferred(self.alloc, config, prefix, &holders, member)
    }

    /// Puts what is known of a member, with how many routes are preferred.
    fn put_told(
        &self,
        view: View,
        stage: Stage,
        preferred: u64,
        member: &Member<'_>,
        text: &mut Vec<u8>,
    ) -> Result<(), AllocError>
        ensures { OnOk result (IsTold view preferred text.new.items) }
    {
        text.extend_from_slice(comma(stage))?;
        put_protocol(text, self.alloc, self.tables, self.moments, member)?;
        let imported = imported(self.tables, member);
        let filtered = self.tables.dropped(member.place) as u64;
        let exported = self.tables.count(Rib::Sent, member.place) as u64;
        put_counts(text, imported, filtered, exported, preferred)?;
        text.extend_from_slice(closing(view))
    }

    /// Counts the next route of a member, or puts the count behind its last.
    pub(super) fn put_next_count(
        &self,
        view: View,
        stage: Stage,
        page: Page,
        counted: usize,
        text: &mut Vec<u8>,
    ) -> Result<Option<Page>, AllocError>
        requires { text.old.items ≡ [] }
        ensures { IfOk result (IsCountItem (T.first self.now.tables.now) (T.configured self.now.tables.now) (T.holders self.now.tables.now) view page counted text.new.items) }
    {
        let Some(member) = member_at(self.tables, counted) else {
            text.extend_from_slice(b"}}\n")?;
            return Ok(None);
        };
        match self.tables.first_from(Rib::Received, counted, page.at) {
            Some((prefix, _)) => {
                let is_preferred = self.is_preferred(counted, &prefix)?;
                Ok(Some(counting(page, &prefix, is_preferred)))
            }
            None => {
                self.put_told(view, stage, page.counted, &member, text)?;
                Ok(behind_count(view, page, counted))
            }
        }
    }
}

/// What closes a page behind a member's counts.
fn closing(view: View) -> &'static [u8]
    ensures { result.now ≡ closing_text view }
{
    match view {
        View::Protocol => b"}}\n",
        _ => b"",
    }
}
