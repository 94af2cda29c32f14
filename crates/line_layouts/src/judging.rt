// What a field of a line says.
ghost use Rattle.std.specs.Prelude.{◌≡◌, ◌<◌, get_or};
ghost use Rattle.line_layouts.specs.Columns.{most_columns};
ghost use Rattle.line_layouts.specs.Entries.{no_field, is_missing};

use super::{Line, Said};

pub fn said_at(line: Line, j: usize) -> Said
    requires { j < most_columns }
    ensures { result ≡ get_or line.fields j no_field }
{
    line.fields[j]
}

pub fn is_missing(said: Said) -> bool
    ensures { result ≡ is_missing said }
{
    matches!(said, Said::Missing)
}
