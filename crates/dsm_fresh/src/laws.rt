// Laws over the definitions alone.
ghost use Rattle.dsm_fresh.specs.Laws.{Fresh, Since, Usable, SinceBreak, SinceStart, Alone};
ghost use Rattle.dsm_fresh.specs.Examples.{worked, MeetsAll, EndsAsWorked, Breaks, Anything, IsStampedFault, IsIdle, NoneMapped, Faults, IsRegisteredFault, IsUsedFault, IsNotEntering, IsNotAlone, IsNotOpen, IsUnused, Rests, LooksUnheld, IsFlagging, IsDrained, IsTaken, IsTakenIdle, without_reset, without_register, without_claim, without_share, without_current_unregistered, without_leave_mapped, without_leave_fetching, without_draw, without_current_unfetched, without_current_stale, without_current_sole, without_enter, without_map, without_send_alone, without_send_entering, without_pass_by, without_tell, without_break_used, without_break_fetching, without_pass, without_drain_none, without_flagged, without_other_time, without_give, without_take, without_skip, without_keep, without_keep_sole, without_settle};

/// The law of one page at one node, of the list of what happened to it. It does nothing: its clauses are what it is for.
pub fn fresh_law()
    // A processor at rest that maps the page has every send that was told before its last pass: its node has got as many.
    ensures fresh { Fresh }
    // In places of the list: a fetch of its node has finished whose first operation came behind the end of that send.
    ensures since { Since }
    // Where a processor maps the page, its node is registered, has a copy, and has got all breaks.
    ensures usable { Usable }
    // In places of the list: it has fetched behind each break that ended,
    ensures since_break { SinceBreak }
    // and some fetch has finished at all.
    ensures since_start { SinceStart }
    // An exclusive node has got every send.
    ensures alone { Alone }
{}

/// A list that meets every premise, and lists in which one event does not meet its own, and behind which a processor maps a copy that is not
/// fresh. It does nothing: its clauses are what it is for.
pub fn fresh_examples()
    // Every kind of event, with every premise met,
    ensures worked { MeetsAll worked }
    // and what it leaves.
    ensures worked_end { EndsAsWorked }
    // Each of these has one event that meets this part of its premise at most.
    ensures reset { Breaks Anything without_reset }
    ensures register { Breaks Anything without_register }
    ensures claim { Breaks Anything without_claim }
    ensures share { Breaks Anything without_share }
    ensures current_unregistered { Breaks IsStampedFault without_current_unregistered }
    ensures leave_mapped { Breaks IsIdle without_leave_mapped }
    ensures leave_fetching { Breaks NoneMapped without_leave_fetching }
    ensures draw { Breaks Faults without_draw }
    ensures current_unfetched { Breaks IsRegisteredFault without_current_unfetched }
    ensures current_stale { Breaks IsUsedFault without_current_stale }
    ensures current_sole { Breaks Faults without_current_sole }
    ensures enter { Breaks Anything without_enter }
    ensures map { Breaks Anything without_map }
    ensures send_alone { Breaks IsNotEntering without_send_alone }
    ensures send_entering { Breaks IsNotAlone without_send_entering }
    ensures pass_by { Breaks Anything without_pass_by }
    ensures tell { Breaks Anything without_tell }
    ensures break_used { Breaks IsNotOpen without_break_used }
    ensures break_fetching { Breaks IsUnused without_break_fetching }
    ensures pass { Breaks Rests without_pass }
    ensures drain_none { Breaks LooksUnheld without_drain_none }
    ensures flagged { Breaks IsFlagging without_flagged }
    ensures other_time { Breaks Anything without_other_time }
    ensures give { Breaks IsDrained without_give }
    ensures take { Breaks Anything without_take }
    ensures skip { Breaks IsTaken without_skip }
    ensures keep { Breaks IsTakenIdle without_keep }
    ensures keep_sole { Breaks IsTaken without_keep_sole }
    ensures settle { Breaks Anything without_settle }
{}
