//! Direct predecessors and reports that were worked out by hand.
ghost use Rattle.qm_cost.specs.Worked.{WorkedLinks, WorkedReports};

/// The model's schedules have the direct predecessors that were worked out by hand.
fn worked_links()
    ensures { WorkedLinks }
{}

/// And the times and chains.
fn worked_reports()
    ensures { WorkedReports }
{}
