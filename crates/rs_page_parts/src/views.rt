//! Which pages there are, and how far one is: what `Page.which` says.

ghost use Rattle.std.specs.Prelude.{◌≡◌};
ghost use Rattle.rs_page_parts.specs.Views.{is_head, view_number, stage_number, which_of, listing_of, counted_of, most_of, most_items, table_of, owner_of, view_at, stage_at, read_which};

use crate::tables::Rib;
use rs_window::page::{Kind, Page};

/// A page.
#[derive(Clone, Copy)]
pub enum View {
    /// The members, for people.
    Home,
    /// A member, for people.
    Member,
    /// Birdwatcher's `/status`.
    Status,
    /// Birdwatcher's `/protocols/bgp`.
    Protocols,
    /// One member of it, `/protocols/bgp/NAME`.
    Protocol,
    /// Birdwatcher's `/routes/protocol/NAME`: what its import list passes of a member's Adj-RIB-In.
    Routes,
    /// Birdwatcher's `/routes/filtered/NAME`: what its import list drops of it.
    Filtered,
    /// Birdwatcher's `/routes/noexport/NAME`: what its export list keeps from it.
    NoExport,
    /// Birdwatcher's `/routes/count/protocol/NAME`: how many those are.
    Count,
    /// Birdwatcher's `/routes/prefix`: who holds a prefix.
    AtPrefix,
    /// The Adj-RIB-In of a member.
    Received,
    /// The Loc-RIB of a member.
    Sent,
    /// `Received`, for people.
    ReceivedTable,
    /// `Sent`, for people.
    SentTable,
    /// Who holds a prefix, for people.
    Search,
    /// Why a member is sent one route for a prefix, and not another.
    Why,
    /// Prometheus. `Page.at` counts the metrics.
    Metrics,
}

/// An item of a page: the page as it is read, and as it stands.
#[derive(Clone, Copy)]
pub struct Item {
    pub view: View,
    pub stage: Stage,
    pub page: Page,
}

/// Which routes a page lists.
#[derive(Clone, Copy)]
pub enum Listing {
    /// What a member announced.
    Received,
    /// What is due to it.
    Sent,
    /// What it announced and its import list passes.
    Imported,
    /// What it announced and its import list drops.
    Filtered,
    /// What the others announced, their import lists pass and its export list drops.
    NoExport,
}

impl Listing {
    /// The table that is gone through.
    pub fn table(self) -> Rib
        ensures { result ≡ table_of self }
    {
        match self {
            Listing::Received | Listing::Imported | Listing::Filtered | Listing::NoExport => {
                Rib::Received
            }
            Listing::Sent => Rib::Sent,
        }
    }

    /// The member whose table it is.
    pub fn owner(self, page: Page) -> usize
        ensures { result ≡ owner_of self page }
    {
        match self {
            Listing::Received | Listing::Sent | Listing::Imported | Listing::Filtered => page.place,
            Listing::NoExport => page.member,
        }
    }
}

/// How far a page is.
#[derive(Clone, Copy)]
pub enum Stage {
    /// Nothing was written.
    Head,
    /// Its head was, and no item.
    First,
    /// Some items were.
    Rest,
}

impl Stage {
    /// Nothing was written.
    pub fn is_head(self) -> bool
        ensures { result ≡ is_head self }
    {
        match self {
            Stage::Head => true,
            Stage::First | Stage::Rest => false,
        }
    }

    fn number(self) -> u32
        ensures { result ≡ stage_number self }
    {
        match self {
            Stage::Head => 0,
            Stage::First => 1,
            Stage::Rest => 2,
        }
    }

    fn of(number: u32) -> Stage
        ensures { result ≡ stage_at number }
    {
        match number {
            0 => Stage::Head,
            1 => Stage::First,
            _ => Stage::Rest,
        }
    }
}

impl View {
    pub(crate) fn number(self) -> u32
        ensures { result ≡ view_number self }
    {
        match self {
            View::Home => 0,
            View::Member => 1,
            View::Status => 2,
            View::Protocols => 3,
            View::Routes => 4,
            View::Filtered => 5,
            View::NoExport => 6,
            View::Count => 7,
            View::AtPrefix => 8,
            View::Received => 9,
            View::Sent => 10,
            View::Why => 11,
            View::Metrics => 12,
            View::Protocol => 13,
            View::ReceivedTable => 14,
            View::SentTable => 15,
            View::Search => 16,
        }
    }

    fn of(number: u32) -> Option<View>
        ensures { result ≡ view_at number }
    {
        match number {
            0 => Some(View::Home),
            1 => Some(View::Member),
            2 => Some(View::Status),
            3 => Some(View::Protocols),
            4 => Some(View::Routes),
            5 => Some(View::Filtered),
            6 => Some(View::NoExport),
            7 => Some(View::Count),
            8 => Some(View::AtPrefix),
            9 => Some(View::Received),
            10 => Some(View::Sent),
            11 => Some(View::Why),
            12 => Some(View::Metrics),
            13 => Some(View::Protocol),
            14 => Some(View::ReceivedTable),
            15 => Some(View::SentTable),
            16 => Some(View::Search),
            _ => None,
        }
    }

    /// The routes that it lists.
    pub fn listing(self) -> Option<Listing>
        ensures { result ≡ listing_of self }
    {
        match self {
            View::Received | View::ReceivedTable => Some(Listing::Received),
            View::Sent | View::SentTable => Some(Listing::Sent),
            View::Routes => Some(Listing::Imported),
            View::Filtered => Some(Listing::Filtered),
            View::NoExport => Some(Listing::NoExport),
            View::Home
            | View::Member
            | View::Status
            | View::Protocols
            | View::Protocol
            | View::Count
            | View::AtPrefix
            | View::Search
            | View::Why
            | View::Metrics => None,
        }
    }

    /// The member whose preferred routes it counts.
    pub fn counted(self, page: Page) -> Option<usize>
        ensures { result ≡ counted_of self page }
    {
        match self {
            View::Protocols => Some(page.member),
            View::Protocol => Some(page.place),
            View::Home
            | View::Count
            | View::Member
            | View::Status
            | View::Routes
            | View::Filtered
            | View::NoExport
            | View::AtPrefix
            | View::Received
            | View::Sent
            | View::ReceivedTable
            | View::SentTable
            | View::Search
            | View::Why
            | View::Metrics => None,
        }
    }

    /// How many of its items a piece has at most, so that members don't wait for it: fewer where each is compared
    /// with all others.
    fn most(self) -> usize
        ensures { result ≡ most_of self }
    {
        match self {
            View::Why | View::Protocols | View::Protocol => 16,
            _ => 32,
        }
    }

    fn kind(self) -> Kind {
        match self {
            View::Home | View::Member | View::ReceivedTable | View::SentTable | View::Search => {
                Kind::Html
            }
            View::Metrics => Kind::Metrics,
            View::Status
            | View::Protocols
            | View::Protocol
            | View::Routes
            | View::Filtered
            | View::NoExport
            | View::Count
            | View::AtPrefix
            | View::Received
            | View::Sent
            | View::Why => Kind::Json,
        }
    }

    /// The number of this page at this stage.
    pub fn at(self, stage: Stage) -> u32
        ensures { result ≡ which_of self stage }
    {
        self.number() * 3 + stage.number()
    }

    /// The page with this number, and its stage.
    pub fn read(which: u32) -> Option<(View, Stage)>
        ensures { result ≡ read_which which }
    {
        let view = View::of(which / 3)?;
        Some((view, Stage::of(which % 3)))
    }

    /// The page of this member, of which nothing was written: from this number on, and so many items.
    pub fn page(self, place: usize, at: u64, left: u32) -> Page {
        Page {
            which: self.at(Stage::Head),
            kind: self.kind(),
            place,
            member: 0,
            at,
            left,
            most: left,
            counted: 0,
        }
    }
}

/// How many items a piece of the page with this number has at most.
pub fn most_items(which: u32) -> usize
    ensures { result ≡ most_items which }
{
    match View::read(which) {
        None => 1,
        Some((view, _)) => view.most(),
    }
}
