// Which of several faults a launcher answers.
ghost use Rattle.std.specs.Prelude.{◌≡◌};
ghost use Rattle.sk_launcher.specs.Launching.{IsLeastOf, lesser};

use crate::LaunchFault;

// The first of these, or the second, where its status is less.
fn lesser(least: Option<LaunchFault>, fault: LaunchFault) -> LaunchFault
    ensures { result ≡ lesser least fault }
{
    let Some(least) = least else {
        return fault;
    };
    if least.status() <= fault.status() {
        least
    } else {
        fault
    }
}

/// One with the least status.
pub(crate) fn least(faults: Vec<LaunchFault>) -> Option<LaunchFault>
    ensures { IsLeastOf faults.items result }
{
    let mut least: Option<LaunchFault> = None;
    for fault in faults {
        least = Some(lesser(least, fault));
    }
    least
}
