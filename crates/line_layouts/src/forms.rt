// The types of fields and the ways in which they are missing.
ghost use Rattle.std.specs.Prelude.{◌≡◌};
ghost use Rattle.line_layouts.specs.Layouts.{is_time, missing_value, is_name};
ghost use Rattle.line_layouts.specs.Fitting.{is_number, is_own, is_beside};

use super::{Flag, Form};

pub fn is_time(form: Form) -> bool
    ensures { result ≡ is_time form }
{
    matches!(form, Form::Time)
}

pub fn missing_value(form: Form) -> u32
    ensures { result ≡ missing_value form }
{
    match form {
        Form::U1 => 255,
        Form::U2 => 65535,
        Form::U4 => 4294967295,
        Form::Time => 0,
        Form::C1 => 32,
        Form::Cn => 0,
    }
}

pub fn is_name(form: Form) -> bool
    ensures { result ≡ is_name form }
{
    matches!(form, Form::Cn)
}

pub fn is_number(form: Form) -> bool
    ensures { result ≡ is_number form }
{
    !matches!(form, Form::C1 | Form::Cn)
}

pub fn is_own(flag: Flag) -> bool
    ensures { result ≡ is_own flag }
{
    matches!(flag, Flag::Own)
}

pub fn is_beside(flag: Flag) -> bool
    ensures { result ≡ is_beside flag }
{
    matches!(flag, Flag::Beside)
}
