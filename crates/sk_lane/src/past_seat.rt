// A seat that has ended.
use sk_desk::Call;
use std::collections::LinkedList;

/// A seat that has ended, with the calls of its desk, where that told them.
#[derive(Drop)]
pub struct PastSeat {
    pub seat: u32,
    pub calls: Option<LinkedList<Call>>,
}
