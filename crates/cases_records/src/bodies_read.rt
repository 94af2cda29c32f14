// What is read of a body, field by field.
use bodies::{Record, read_body};
use case_lines::Field;
use count_bodies::{Bin, Pcr};
use kinds::Kind;
use numbers::Order;
use std::io;
use transcript::Decimal;

fn field(value: Option<u32>) -> Field<Decimal> {
    Field(value.map(|n| Decimal(n.into())))
}

fn say_two(rt: &impl Print, first: &str, a: u8, second: &str, b: u8) -> io::Result<()> {
    println!(rt;
        "{first} {} {second} {}",
        Decimal(a.into()),
        Decimal(b.into())
    )
}

fn say_pcr(rt: &impl Print, p: Pcr) -> io::Result<()> {
    println!(rt;
        " PCR head {} site {} parts {} retest {} abort {} good {} functional {}",
        Decimal(p.head.into()),
        Decimal(p.site.into()),
        Decimal(p.parts.into()),
        field(p.retest),
        field(p.abort),
        field(p.good),
        field(p.functional)
    )
}

fn say_bin(rt: &impl Print, b: Bin) -> io::Result<()> {
    println!(rt;
        " {}BR head {} site {} bin {} count {} P/F {} name {} at {}",
        if b.soft { 'S' } else { 'H' },
        Decimal(b.head.into()),
        Decimal(b.site.into()),
        Decimal(b.bin.into()),
        Decimal(b.count.into()),
        field(b.pf),
        Field(b.name.map(|name| Decimal(name.len as u64))),
        Field(b.name.map(|name| Decimal(name.at as u64)))
    )
}

fn say_record(rt: &impl Print, record: Record) -> io::Result<()> {
    match record {
        Record::Far(f) => println!(rt;
            " FAR CPU_TYPE {} STDF_VER {}",
            Decimal(f.cpu.into()),
            Decimal(f.version.into())
        ),
        Record::Mir => println!(rt; " MIR"),
        Record::Mrr => println!(rt; " MRR"),
        Record::Pcr(p) => say_pcr(rt, p),
        Record::Bin(b) => say_bin(rt, b),
        Record::Pir(p) => say_two(rt, " PIR head", p.head, "site", p.site),
        Record::Prr(p) => println!(rt;
            " PRR head {} site {} flags {} hard bin {}",
            Decimal(p.head.into()),
            Decimal(p.site.into()),
            Decimal(p.flags.into()),
            Decimal(p.bin.into())
        ),
        Record::Wir(w) => say_two(rt, " WIR head", w.head, "group", w.group),
        Record::Wrr(w) => say_two(rt, " WRR head", w.head, "group", w.group),
        Record::Unread => println!(rt; " unread"),
    }
}

pub(crate) fn say_body(rt: &impl Print, order: Order, kind: Kind, body: &[u8]) -> io::Result<()> {
    match read_body(order, kind, body) {
        Some(record) => say_record(rt, record),
        None => println!(rt; " 7"),
    }
}
