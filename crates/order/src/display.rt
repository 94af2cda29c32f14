// The names of places, as transcripts write them.
use crate::Place;
use std::fmt;

impl fmt::Display for Place {
    fn fmt<W: fmt::Write>(&self, f: &mut fmt::Formatter<W>) -> fmt::Result {
        f.pad(match *self {
            Place::Start => "start",
            Place::Header => "header",
            Place::Lot => "lot",
            Place::Setup => "setup",
            Place::Body => "body",
            Place::Ended => "ended",
        })
    }
}
