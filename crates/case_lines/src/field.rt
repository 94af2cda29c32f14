// A field that a record may lack.
use std::fmt;

#[derive(Clone, Copy)]
pub struct Field<T>(pub Option<T>);

impl<T: fmt::Display> fmt::Display for Field<T> {
    fn fmt<W: fmt::Write>(&self, f: &mut fmt::Formatter<W>) -> fmt::Result {
        match &self.0 {
            Some(value) => value.fmt(f),
            None => f.write_str("missing"),
        }
    }
}
