// The settings and the table that a call is given.
ghost use Rattle.std.specs.Prelude.{◌≡◌};
ghost use Rattle.language.specs.Rules.Table.{are_settings, is_table};
ghost use Rattle.tables.specs.Given.{given_in};

use crate::Span;

// What every call is given beside its text, part by part as it is lent: the settings, and the table.
#[derive(Clone, Copy)]
pub struct Given<'a> {
    pub days: &'a [i64],
    pub span: Span,
    pub factors: &'a [i64],
    pub bounds: &'a [i64],
    pub values: &'a [i64],
}

impl Given<'_> {
    pub fn settings_ok(&self) -> bool
        ensures { result ≡ are_settings self.now.days.now }
    {
        crate::settings_ok(self.days)
    }

    pub fn table_ok(&self) -> bool
        ensures { result ≡ is_table (given_in self.now).table }
    {
        crate::table_ok(self.span, self.factors, self.bounds, self.values)
    }
}
