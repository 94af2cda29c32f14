// Which kind of record a type and a subtype name: document 01, "Record frame and kinds".
#![tactic(auto)]

mod display;

ghost use Rattle.std.specs.Prelude.{◌≡◌};
ghost use Rattle.kinds.specs.Kinds.{pairs, named, has_type, custom, beyond_table, kind_of, known};

// The kinds of STDF V4 whose bodies this house does not read and whose places within the body it does not judge.
#[derive(Clone, Copy, PartialEq, Eq)]
pub enum Remaining {
    Pmr,
    Pgr,
    Plr,
    Wcr,
    Tsr,
    Ptr,
    Mpr,
    Ftr,
    Bps,
    Eps,
    Gdr,
    Dtr,
}

// The kind of a record: one of STDF V4's twenty-five, a custom one, or unknown.
#[derive(Clone, Copy, PartialEq, Eq)]
pub enum Kind {
    Far,
    Atr,
    Mir,
    Mrr,
    Pcr,
    Hbr,
    Sbr,
    Rdr,
    Sdr,
    Wir,
    Wrr,
    Pir,
    Prr,
    Remaining(Remaining),
    Custom,
    Unknown,
}

// A type, a subtype and the kind that they name.
#[derive(Clone, Copy)]
pub struct Pair {
    pub typ: u8,
    pub sub: u8,
    pub kind: Kind,
}

#[rattlefmt::skip]
static PAIRS: [Pair; 25] = [
    Pair { typ: 0, sub: 10, kind: Kind::Far },
    Pair { typ: 0, sub: 20, kind: Kind::Atr },
    Pair { typ: 1, sub: 10, kind: Kind::Mir },
    Pair { typ: 1, sub: 20, kind: Kind::Mrr },
    Pair { typ: 1, sub: 30, kind: Kind::Pcr },
    Pair { typ: 1, sub: 40, kind: Kind::Hbr },
    Pair { typ: 1, sub: 50, kind: Kind::Sbr },
    Pair { typ: 1, sub: 60, kind: Kind::Remaining(Remaining::Pmr) },
    Pair { typ: 1, sub: 62, kind: Kind::Remaining(Remaining::Pgr) },
    Pair { typ: 1, sub: 63, kind: Kind::Remaining(Remaining::Plr) },
    Pair { typ: 1, sub: 70, kind: Kind::Rdr },
    Pair { typ: 1, sub: 80, kind: Kind::Sdr },
    Pair { typ: 2, sub: 10, kind: Kind::Wir },
    Pair { typ: 2, sub: 20, kind: Kind::Wrr },
    Pair { typ: 2, sub: 30, kind: Kind::Remaining(Remaining::Wcr) },
    Pair { typ: 5, sub: 10, kind: Kind::Pir },
    Pair { typ: 5, sub: 20, kind: Kind::Prr },
    Pair { typ: 10, sub: 30, kind: Kind::Remaining(Remaining::Tsr) },
    Pair { typ: 15, sub: 10, kind: Kind::Remaining(Remaining::Ptr) },
    Pair { typ: 15, sub: 15, kind: Kind::Remaining(Remaining::Mpr) },
    Pair { typ: 15, sub: 20, kind: Kind::Remaining(Remaining::Ftr) },
    Pair { typ: 20, sub: 10, kind: Kind::Remaining(Remaining::Bps) },
    Pair { typ: 20, sub: 20, kind: Kind::Remaining(Remaining::Eps) },
    Pair { typ: 50, sub: 10, kind: Kind::Remaining(Remaining::Gdr) },
    Pair { typ: 50, sub: 30, kind: Kind::Remaining(Remaining::Dtr) },
];

// Whether any of the table's pairs has the type.
#[tactic(auto, unfolding(crate::specs::Kinds::has_type))]
fn has_type(typ: u8) -> bool
    ensures { result ≡ has_type pairs typ }
{
    PAIRS.iter().any(|p| p.typ == typ)
}

// Whether a pair that is none of the table's is custom.
fn is_custom(typ: u8, sub: u8) -> bool
    ensures { result ≡ custom typ sub }
{
    200 < typ || (200 < sub && has_type(typ))
}

// The kind that a table gives a type and a subtype, or else another.
fn named(table: &[Pair], typ: u8, sub: u8, other: Kind) -> Kind
    ensures { result ≡ named table.now typ sub other }
{
    match table.iter().find(|p| p.typ == typ && p.sub == sub) {
        Some(p) => p.kind,
        None => other,
    }
}

// The kind of a pair that is none of the table's.
#[tactic(auto, unfolding(crate::specs::Kinds::beyond_table))]
fn beyond(typ: u8, sub: u8) -> Kind
    ensures { result ≡ beyond_table typ sub }
{
    if is_custom(typ, sub) {
        Kind::Custom
    } else {
        Kind::Unknown
    }
}

// The kind that a type and a subtype name. PIR and PRR are asked for before the table is searched: of the records whose
// kind a stream's walk has to know they are nearly all.
pub fn kind_of(typ: u8, sub: u8) -> Kind
    ensures { result ≡ kind_of typ sub }
{
    match (typ, sub) {
        (5, 10) => Kind::Pir,
        (5, 20) => Kind::Prr,
        _ => named(&PAIRS, typ, sub, beyond(typ, sub)),
    }
}

// Whether a kind is known; where it is not, the refusal is 6.
pub fn is_known(kind: Kind) -> bool
    ensures { result ≡ known kind }
{
    !matches!(kind, Kind::Unknown)
}
