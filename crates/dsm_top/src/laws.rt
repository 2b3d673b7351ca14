ghost use Rattle.dsm_top.specs.Plans.{AskForOnePlan};

/// What holds of the words of a command line, whatever they are.
pub fn plan_law()
    ensures { AskForOnePlan }
{}
