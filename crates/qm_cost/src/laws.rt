//! The laws of reports.
ghost use Rattle.qm_cost.specs.Reports.{OneReport, SomeReport};

/// One report alone is made of a schedule.
pub fn one_report_law()
    ensures { OneReport }
{}

/// There is one of each schedule.
pub fn some_report_law()
    ensures { SomeReport }
{}
