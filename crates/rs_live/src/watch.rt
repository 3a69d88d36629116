//! Reports of what has become of each client between two rounds: at most one of each client in a second,
//! so that no member can fill a disk.

ghost use Rattle.rs_live.specs.Leaving.{KeepsOn};

use crate::live_link::LiveLink;
use crate::ports::Ports;
use rs_core::Core;
use rs_reports::rate_limits::RateLimit;
use rs_reports::reports::{Holder, Report};
use std::alloc::{AllocError, Global};

/// What was reported of a client.
#[derive(Clone, Copy)]
struct Reported {
    /// Its session was Established.
    is_up: bool,
    /// How many of its UPDATEs were at fault.
    faulted: u64,
    mp_reach: MpReach,
    reports: RateLimit<Report>,
}

/// What was reported of the routes in MP_REACH_NLRI of a client's session.
#[derive(Clone, Copy)]
enum MpReach {
    /// Nothing; before the session there were so many UPDATEs with some.
    Before(u64),
    /// That there are some.
    Reported,
}

/// What was reported of each client.
#[derive(Drop)]
pub struct Watch {
    all: Vec<Reported>,
    strangers: Option<u64>,
}

/// What a client's session is, where it is Established.
fn up(core: &Core, client: usize) -> Option<Report> {
    if client >= core.clients() {
        return None;
    }
    Some(Report::Up {
        client,
        mode: core.mode(client)?,
        limit: core.limit(client)?,
        hold: core.hold(client)?,
    })
}

/// How many UPDATEs of a client had MP_REACH_NLRI.
fn with_mp_reach(core: &Core, client: usize) -> u64 {
    if client < core.clients() {
        core.faulted(client).mp_reach
    } else {
        0
    }
}

/// How the last session of a client ended.
fn down<P: Ports>(core: &Core, link: &LiveLink<'_, P>, client: usize) -> Report {
    let ending = if client < core.clients() {
        core.ending(client)
    } else {
        None
    };
    Report::Down {
        client,
        ending,
        offered: link.offered(client),
    }
}

/// Reports how many reports of a client were left out, where there are some.
fn report_left_out<P: Ports>(link: &mut LiveLink<'_, P>, client: usize, count: u64)
    ensures { KeepsOn P.asked link.old link.new }
{
    if count > 0 {
        link.log(&Report::LeftOut { client, count });
    }
}

impl Reported {
    /// Makes a report that is shown, now or in a later second.
    fn report<P: Ports>(&mut self, link: &mut LiveLink<'_, P>, client: usize, report: &Report)
        ensures { KeepsOn P.asked link.old link.new }
    {
        if link.shows(report) {
            self.reports.put(*report);
        }
        self.report_waiting(link, client);
    }

    /// Makes the report that waits for this second, after the count of those that were left out.
    fn report_waiting<P: Ports>(&mut self, link: &mut LiveLink<'_, P>, client: usize)
        ensures { KeepsOn P.asked link.old link.new }
    {
        if let Some(due) = self.reports.take(link.now()) {
            report_left_out(link, client, due.left_out);
            link.log(&due.item);
        }
    }

    /// Reports the end of a client's session, where one ended.
    fn report_end<P: Ports>(&mut self, core: &Core, link: &mut LiveLink<'_, P>, client: usize)
        ensures { KeepsOn P.asked link.old link.new }
    {
        if link.take_ended(client) {
            self.is_up = false;
            self.mp_reach = MpReach::Before(with_mp_reach(core, client));
            let report = down(core, link, client);
            self.report(link, client, &report);
        }
    }

    /// Reports the begin of a client's session, where one is Established.
    fn report_begin<P: Ports>(&mut self, core: &Core, link: &mut LiveLink<'_, P>, client: usize)
        ensures { KeepsOn P.asked link.old link.new }
    {
        if self.is_up {
            return;
        }
        if let Some(report) = up(core, client) {
            self.is_up = true;
            self.report(link, client, &report);
        }
    }

    /// What has the place of the client's connection.
    fn holder<P: Ports>(&self, link: &LiveLink<'_, P>, client: usize) -> Holder {
        if self.is_up {
            Holder::Session
        } else if link.live_key(client).is_some() {
            Holder::Connection
        } else {
            Holder::Nothing
        }
    }

    /// Reports the connections beside a client's own that were closed, where there was no report in this
    /// second.
    fn report_busy<P: Ports>(&mut self, link: &mut LiveLink<'_, P>, client: usize)
        ensures { KeepsOn P.asked link.old link.new }
    {
        if !self.reports.is_free(link.now()) {
            return;
        }
        if let Some((address, count)) = link.take_busy(client) {
            let report = Report::Busy {
                client,
                address,
                count,
                holder: self.holder(link, client),
            };
            self.report(link, client, &report);
        }
    }

    /// Reports the connections of a client that were closed as it is kept down, where there was no report in
    /// this second.
    fn report_kept_out<P: Ports>(&mut self, link: &mut LiveLink<'_, P>, client: usize)
        ensures { KeepsOn P.asked link.old link.new }
    {
        if !self.reports.is_free(link.now()) {
            return;
        }
        if let Some((address, count)) = link.take_kept_out(client) {
            let report = Report::KeptOut {
                client,
                address,
                count,
            };
            self.report(link, client, &report);
        }
    }

    /// Reports the UPDATEs that were not taken as they came, where there are more than were reported and
    /// there was no report in this second.
    fn report_faulted<P: Ports>(&mut self, core: &Core, link: &mut LiveLink<'_, P>, client: usize)
        ensures { KeepsOn P.asked link.old link.new }
    {
        if client >= core.clients() || !self.reports.is_free(link.now()) {
            return;
        }
        let faulted = core.faulted(client);
        let count = faulted.count.saturating_sub(self.faulted);
        if count > 0 {
            self.faulted = faulted.count;
            let last = faulted.last;
            self.report(
                link,
                client,
                &Report::Faulted {
                    client,
                    count,
                    last,
                },
            );
        }
    }

    /// Reports that a client sends routes in MP_REACH_NLRI, once in a session, where there was no report in
    /// this second.
    fn report_passed_over<P: Ports>(
        &mut self,
        core: &Core,
        link: &mut LiveLink<'_, P>,
        client: usize,
    )
        ensures { KeepsOn P.asked link.old link.new }
    {
        let MpReach::Before(count) = self.mp_reach else {
            return;
        };
        if with_mp_reach(core, client) > count && self.reports.is_free(link.now()) {
            self.mp_reach = MpReach::Reported;
            self.report(link, client, &Report::PassedOver { client });
        }
    }
}

impl Watch {
    /// Nothing was reported yet of so many clients.
    pub fn new(alloc: Global, count: usize) -> Result<Watch, AllocError> {
        let nothing = Reported {
            is_up: false,
            faulted: 0,
            mp_reach: MpReach::Before(0),
            reports: RateLimit::new(),
        };
        Ok(Watch {
            all: vec![in alloc; nothing; count]?,
            strangers: None,
        })
    }

    /// Reports what has changed since the last call.
    pub fn report<P: Ports>(&mut self, core: &Core, link: &mut LiveLink<'_, P>)
        ensures { KeepsOn P.asked link.old link.new }
    {
        self.report_strangers(link);
        for (client, reported) in self.all.iter_mut().enumerate() {
            reported.report_waiting(link, client);
            reported.report_end(core, link, client);
            reported.report_begin(core, link, client);
            reported.report_faulted(core, link, client);
            reported.report_passed_over(core, link, client);
            reported.report_busy(link, client);
            reported.report_kept_out(link, client);
        }
    }

    /// Reports connections of strangers, at most once in a second.
    fn report_strangers<P: Ports>(&mut self, link: &mut LiveLink<'_, P>)
        ensures { KeepsOn P.asked link.old link.new }
    {
        if self.strangers == Some(link.now()) {
            return;
        }
        if let Some((address, count)) = link.take_strangers() {
            self.strangers = Some(link.now());
            link.log(&Report::Strangers { address, count });
        }
    }
}
