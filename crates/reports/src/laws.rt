//! Laws of reports: contracts of functions with an empty body.

ghost use Rattle.reports.specs.Laws.{NamesThatSayTheSame, ExplanationsSayTheSame, AsciiNamesStay};

/// Equivalent names give the same reports and texts of explanations.
pub fn same_names_give_same_reports()
    ensures reports { NamesThatSayTheSame }
    ensures explanations { ExplanationsSayTheSame }
{}

/// ASCII names stand in JSON as they are.
pub fn ascii_names_stay()
    ensures { AsciiNamesStay }
{}
