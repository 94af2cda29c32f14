// What each kind of record does to a session, once it is in its place and its body fits: document 01, "Order of
// checks", Later records, 9 to 12, 14 and 20; #103, 22, 23 and 33.
#![tactic(auto)]

ghost use Rattle.std.specs.Prelude.{◌≡◌, true, cond, Ok, Err, map, ◌≤◌, ◌<◌, ◌+◌, ◌*◌, length, take};
ghost use Rattle.rising.specs.Rising.{rising, rank, held};
ghost use Rattle.session.specs.Session.{LentParts, part_of, key_of, wafer_head};
ghost use Rattle.session.specs.Verdicts.{still_open};
ghost use Rattle.kind_effects.specs.Effects.{judge_pir, judge_prr, judge_mrr, judge_wir, judge_wrr};
ghost use Rattle.kind_effects.specs.Effects.{judge_said};

use answers::Answer;
use bodies::Record;
use rising::{holds, rank_of};
use session::{Change, Session, Standing, Verdict};

// A part with its site, and a wafer with its site group.
fn part_of(head: u8, site: u8) -> u64
    ensures { result ≡ part_of head site }
{
    u64::from(head) * 256 + u64::from(site)
}

fn key_of(head: u8, site: u8, bin: u16) -> u32
    ensures { result ≡ key_of head site bin }
{
    (u32::from(head) * 256 + u32::from(site)) * 65536 + u32::from(bin)
}

// The rank of a number among those that are open, `Ok` where it is one of them.
fn place_of(cells: &[u64], used: usize, number: u64) -> Result<usize, usize>
    requires { (used ≤ length cells.now) × (rising (take used cells.now) ≡ true) }
    ensures { result ≡ cond (held number (take used cells.now)) Ok Err (rank number (take used cells.now)) }
{
    let rank = rank_of(cells, used, number);
    if holds(cells, used, rank, number) {
        Ok(rank)
    } else {
        Err(rank)
    }
}

fn judge_pir(st: Standing, parts: &[u64], part: u64) -> Verdict
    requires { LentParts st parts.now }
    ensures { result ≡ judge_pir st (take st.opened parts.now) part }
{
    let Err(rank) = place_of(parts, st.opened, part) else {
        return Verdict::Refused(Answer::PartOpen);
    };
    if Session::PARTS <= st.opened {
        return Verdict::Refused(Answer::TooManyParts);
    }
    let next = Standing {
        opened: st.opened + 1,
        ..st
    };
    Verdict::Taken(Change::Opens { next, rank, part })
}

fn judge_prr(st: Standing, parts: &[u64], part: u64, key: u32) -> Verdict
    requires { LentParts st parts.now }
    ensures { result ≡ judge_prr st (take st.opened parts.now) part key }
{
    let Ok(rank) = place_of(parts, st.opened, part) else {
        return Verdict::Refused(Answer::PartNotOpen);
    };
    let Some(results) = st.results.checked_add(1) else {
        return Verdict::Refused(Answer::TooManyResults);
    };
    let next = Standing {
        opened: st.opened - 1,
        results,
        ..st
    };
    Verdict::Wanted(Change::Closes { next, rank }, key)
}

// 12 names the smallest of the open parts. They rise, so it is the first.
fn still_open(parts: &[u64]) -> Answer
    requires { 0 < length parts.now }
    ensures { result ≡ still_open parts.now }
{
    let part = parts[0];
    Answer::StillOpen((part / 256 % 256) as u8, (part % 256) as u8)
}

fn judge_mrr(st: Standing, parts: &[u64]) -> Verdict
    requires { LentParts st parts.now }
    ensures { result ≡ judge_mrr st (take st.opened parts.now) }
{
    if st.opened != 0 {
        return Verdict::Refused(still_open(parts));
    }
    if st.wafers != 0 {
        return Verdict::Refused(Answer::WaferOpen);
    }
    if !st.pcr {
        return Verdict::Refused(Answer::NoPcr);
    }
    Verdict::Taken(Change::Stands(st))
}

// The same of a head among those of the open wafers. As many wafers are below the first of a head as heads are below it.
fn place_on(wafers: &[u64], used: usize, head: u8) -> Result<usize, usize>
    requires { (used ≤ length wafers.now) × (rising (map wafer_head (take used wafers.now)) ≡ true) }
    ensures { result ≡ cond (held head (map wafer_head (take used wafers.now))) Ok Err
        (rank head (map wafer_head (take used wafers.now))) }
{
    let rank = rank_of(wafers, used, part_of(head, 0));
    if rank < used && wafers[rank] / 256 == u64::from(head) {
        Ok(rank)
    } else {
        Err(rank)
    }
}

// The wafers are lent by themselves. judge_wir and judge_wrr are no instances of judge_pir and judge_prr: what they count,
// the answers and the change differ, so a function of both would be parameters alone.
fn judge_wir(st: Standing, wafers: &[u64], head: u8, group: u8) -> Verdict
    requires { (st.wafers ≤ length wafers.now)
        × (rising (map wafer_head (take st.wafers wafers.now)) ≡ true) }
    ensures { result ≡ judge_wir st (take st.wafers wafers.now) head group }
{
    let Err(rank) = place_on(wafers, st.wafers, head) else {
        return Verdict::Refused(Answer::WrongWafer);
    };
    if Session::WAFERS <= st.wafers {
        return Verdict::Refused(Answer::TooManyWafers);
    }
    let next = Standing {
        wafers: st.wafers + 1,
        ..st
    };
    let wafer = part_of(head, group);
    Verdict::Taken(Change::WaferOpens { next, rank, wafer })
}

fn judge_wrr(st: Standing, wafers: &[u64], wafer: u64) -> Verdict
    requires { (st.wafers ≤ length wafers.now)
        × (rising (map wafer_head (take st.wafers wafers.now)) ≡ true) }
    ensures { result ≡ judge_wrr st (take st.wafers wafers.now) wafer }
{
    let Ok(rank) = place_of(wafers, st.wafers, wafer) else {
        return Verdict::Refused(Answer::WrongWafer);
    };
    let next = Standing {
        wafers: st.wafers - 1,
        ..st
    };
    Verdict::Taken(Change::WaferCloses { next, rank })
}

// What a record that is in its place and fits its kind does, to a session whose cells are lent.
pub fn judge_said(st: Standing, parts: &[u64], said: Record) -> Verdict
    requires { LentParts st parts.now }
    ensures { result ≡ judge_said st parts.now said }
{
    match said {
        Record::Pir(p) => judge_pir(st, parts, part_of(p.head, p.site)),
        Record::Prr(p) => judge_prr(
            st,
            parts,
            part_of(p.head, p.site),
            key_of(p.head, p.site, p.bin),
        ),
        Record::Mrr => judge_mrr(st, parts),
        Record::Wir(w) => judge_wir(st, &parts[Session::PARTS..], w.head, w.group),
        Record::Wrr(w) => judge_wrr(st, &parts[Session::PARTS..], part_of(w.head, w.group)),
        Record::Pcr(_) => Verdict::Taken(Change::Stands(Standing { pcr: true, ..st })),
        Record::Far(_) | Record::Mir | Record::Bin(_) | Record::Unread => {
            Verdict::Taken(Change::Stands(st))
        }
    }
}
