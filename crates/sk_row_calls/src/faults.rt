// The faults of links, in words.
use sk_link::LinkFault;

pub fn link_fault(fault: &LinkFault) -> &'static str {
    match fault {
        LinkFault::Failed => "link failed",
        LinkFault::Unreadable(_) => "link unreadable",
        LinkFault::Ended => "link ended",
        LinkFault::Memory => "link memory",
    }
}
