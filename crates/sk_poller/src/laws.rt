// What follows from the table of a turn.
ghost use Rattle.std.specs.Prelude.{List};
ghost use Rattle.sk_link.specs.Walk.{Walk};
ghost use Rattle.sk_poller.specs.Event.{Event};
ghost use Rattle.sk_poller.specs.Stage.{Step, Watch, resting};
ghost use Rattle.sk_poller.specs.TurnForm.{MarkedOnce, WholeTurn};
ghost use Rattle.sk_poller.specs.declared.report.PollReport.{PollReport};
ghost use Rattle.sk_poller.specs.declared.stage.Stage.TheVariants.{Over};

/// A turn with a report reads the clock once and sends SK.BEAT, SK.DUE for the schedule and for the retries, SK.RESCUE and SK.LEAD; where it leads,
/// each loop with a last slot has one SK.CRON behind them, in the loops' order. The report sums what the replies said.
pub fn a_whole_turn_is_this_list()
    ensures { (w : Watch) (events : List Event) (n : PollReport) → Walk (Step w) resting events (Over n) → WholeTurn w events n }
{}

/// An SK.CRON that was answered `+OK` marks its loop with its slot. In a turn with a report each loop is marked once at most, with its last slot, and
/// `pushed` counts the marks.
pub fn each_loop_is_marked_once_at_most()
    ensures { (w : Watch) (events : List Event) (n : PollReport) → Walk (Step w) resting events (Over n) → MarkedOnce w events n }
{}
