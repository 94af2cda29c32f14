// The names of kinds, as transcripts write them.
use crate::{Kind, Remaining};
use std::fmt;

impl fmt::Display for Remaining {
    fn fmt<W: fmt::Write>(&self, f: &mut fmt::Formatter<W>) -> fmt::Result {
        f.pad(match *self {
            Remaining::Pmr => "PMR",
            Remaining::Pgr => "PGR",
            Remaining::Plr => "PLR",
            Remaining::Wcr => "WCR",
            Remaining::Tsr => "TSR",
            Remaining::Ptr => "PTR",
            Remaining::Mpr => "MPR",
            Remaining::Ftr => "FTR",
            Remaining::Bps => "BPS",
            Remaining::Eps => "EPS",
            Remaining::Gdr => "GDR",
            Remaining::Dtr => "DTR",
        })
    }
}

impl fmt::Display for Kind {
    fn fmt<W: fmt::Write>(&self, f: &mut fmt::Formatter<W>) -> fmt::Result {
        f.pad(match *self {
            Kind::Far => "FAR",
            Kind::Atr => "ATR",
            Kind::Mir => "MIR",
            Kind::Mrr => "MRR",
            Kind::Pcr => "PCR",
            Kind::Hbr => "HBR",
            Kind::Sbr => "SBR",
            Kind::Rdr => "RDR",
            Kind::Sdr => "SDR",
            Kind::Wir => "WIR",
            Kind::Wrr => "WRR",
            Kind::Pir => "PIR",
            Kind::Prr => "PRR",
            Kind::Remaining(kind) => return kind.fmt(f),
            Kind::Custom => "custom",
            Kind::Unknown => "unknown",
        })
    }
}
