//! A line of text with a place in a configuration.

ghost use Rattle.std.specs.Prelude.{◌≡◌, ◌+◌, ◌≤◌, ◌^◌, ◌<◌, length, codes, decimal, ◌++◌};
ghost use Rattle.rs_policy.specs.FaultTexts.{client_text, named_list_text, owner_text, rule_text, shared_text, table_text, place_text};

use crate::faults::{List, Place, Table};
use std::fmt;
use std::marker::Model;

/// Up to 96 octets of text.
#[derive(Drop)]
pub(crate) struct Line {
    octets: [u8; 96],
    len: usize,
}

impl Model for Line {
    ghost use Rattle.std.specs.Prelude.{List, ℕ, take, ◌≤◌};

    ghost Value = { List ℕ };

    ghost view = { λ l. take l.len l.octets };

    ghost invariant = { λ l. l.len ≤ 96 };
}

impl Line {
    pub(crate) fn of(text: &[u8]) -> Line
        requires { length text.now ≤ 96 }
        ensures { result ≡ text.now }
    {
        let mut octets = [0; 96];
        octets[..text.len()].copy_from_slice(text);
        Line {
            octets,
            len: text.len(),
        }
    }

    pub(crate) fn octets(&self) -> &[u8]
        ensures text { result.now ≡ self.now }
        ensures short { length self.now ≤ 96 }
    {
        &self.octets[..self.len]
    }

    fn with(mut self, text: &[u8]) -> Line
        requires { length self + length text.now ≤ 96 }
        ensures { result ≡ self ++ text.now }
    {
        let start = self.len;
        let end = start + text.len();
        self.octets[start..end].copy_from_slice(text);
        self.len = end;
        self
    }

    fn with_digits(self, number: usize) -> Line
        requires { length self + length (decimal number) ≤ 96 }
        ensures { result ≡ self ++ decimal number }
    {
        let last = b'0' + (number % 10) as u8;
        if number < 10 {
            return self.with(&[last]);
        }
        self.with_digits(number / 10).with(&[last])
    }

    fn with_number(self, number: usize) -> Line
        requires { length self ≤ 76 }
        ensures text { result ≡ self ++ decimal number }
        ensures short { length result ≤ length self + 20 }
    {
        self.with_digits(number)
    }

    pub(crate) fn with_client(self, client: usize) -> Line
        requires { length self ≤ 20 }
        ensures text { result ≡ self ++ client_text client }
        ensures short { length result ≤ length self + 27 }
    {
        self.with(b"client ").with_number(client)
    }

    pub(crate) fn with_named_list(self, list: usize) -> Line
        requires { length self ≤ 20 }
        ensures text { result ≡ self ++ named_list_text list }
        ensures short { length result ≤ length self + 25 }
    {
        self.with(b"list ").with_number(list)
    }

    pub(crate) fn with_shared(self, rules: usize) -> Line
        requires { length self ≤ 20 }
        ensures text { result ≡ self ++ shared_text rules }
        ensures short { length result ≤ length self + 26 }
    {
        self.with(b"rules ").with_number(rules)
    }

    /// Whose list of rules it is.
    fn with_owner(self, list: List, number: usize) -> Line
        requires { length self ≤ 20 }
        ensures text { result ≡ self ++ owner_text list number }
        ensures short { length result ≤ length self + 27 }
    {
        match list {
            List::Import | List::Export => self.with_client(number),
            List::Shared => self.with_shared(number),
        }
    }

    fn with_rule(self, list: List, rule: usize) -> Line
        requires { length self ≤ 40 }
        ensures text { result ≡ self ++ rule_text list rule }
        ensures short { length result ≤ length self + 28 }
    {
        match list {
            List::Import => self.with(b" import ").with_number(rule),
            List::Export => self.with(b" export ").with_number(rule),
            List::Shared => self.with(b" rules ").with_number(rule),
        }
    }

    fn with_table(self, table: Table) -> Line
        requires { length self ≤ 10 }
        ensures text { result ≡ self ++ table_text table }
        ensures short { length result ≤ length self + 56 }
    {
        match table {
            Table::Top => self,
            Table::Client(client) => self.with_client(client).with(b" "),
            Table::Rules(rules) => self.with_shared(rules).with(b" "),
            Table::Rule(number, list, rule) => self
                .with_owner(list, number)
                .with_rule(list, rule)
                .with(b" "),
            Table::List(list) | Table::Entry(list, _) => self.with_named_list(list).with(b" "),
        }
    }

    /// Which entry of an array it is.
    fn with_entry(self, entry: usize) -> Line
        requires { length self ≤ 72 }
        ensures { result ≡ self ++ codes " " ++ decimal entry }
    {
        self.with(b" ").with_number(entry)
    }

    #[tactic(auto, using(crate::proofs::Decimals::key_text_short), unfolding(crate::specs::FaultTexts::place_text))]
    pub(crate) fn with_place(self, place: &Place) -> Line
        requires { length self ≤ 10 }
        ensures { result ≡ self ++ place_text place.now }
    {
        let key = place.key.text().as_bytes();
        match place.table {
            Table::Entry(list, entry) => self
                .with_named_list(list)
                .with(b" ")
                .with(key)
                .with_entry(entry),
            table => self.with_table(table).with(key),
        }
    }
}

impl fmt::Display for Line {
    fn fmt<W: fmt::Write>(&self, f: &mut fmt::Formatter<W>) -> fmt::Result {
        match str::from_utf8(self.octets()) {
            Ok(text) => f.write_str(text),
            Err(_) => Err(fmt::Error),
        }
    }
}
