// What the commands answer that move or bury rows.
ghost use Rattle.std.specs.Prelude.{◌≡◌, map};
ghost use Rattle.sk_resp.specs.Reply.{wire};
ghost use Rattle.sk_resp.specs.Number.{IsI64};
ghost use Rattle.sk_link.specs.Report.{as_count as count_value, count_of, int_of as int_in, is_array_reply, report_in, report_of, with_counts};

use sk_base::limits::MOST_REPORTED;
use sk_resp::Reply;

/// The numbers of a report: how many rows a command moved to queues, and how many it buried, each from 0 to 2^62.
#[derive(Clone, Copy)]
pub struct Report {
    pub moved: u64,
    pub buried: u64,
}

// The number that an integer is, from 0 to 2^62.
fn as_count(n: i64) -> Option<u64>
    ensures count { result ≡ count_value n }
    ensures range { IsI64 n }
{
    if n < 0 || n > MOST_REPORTED as i64 {
        return None;
    }
    Some(n as u64)
}

fn int_of(reply: &Reply) -> Option<i64>
    ensures { result ≡ int_in reply.now }
{
    match reply {
        Reply::Int(n) => Some(*n),
        _ => None,
    }
}

fn count(reply: &Reply) -> Option<u64>
    ensures { result ≡ count_of (wire reply.now) }
{
    match int_of(reply) {
        None => None,
        Some(n) => as_count(n),
    }
}

// An array, or the null array.
fn is_array(reply: &Reply) -> bool
    ensures { result ≡ is_array_reply reply.now }
{
    matches!(reply, Reply::Array(_) | Reply::NullArray)
}

fn report_with(moved: Option<u64>, buried: Option<u64>) -> Option<Report>
    ensures { result ≡ with_counts moved buried }
{
    Some(Report {
        moved: moved?,
        buried: buried?,
    })
}

// The report whose elements these are.
fn read_elements(elements: &[Reply]) -> Option<Report>
    ensures { result ≡ report_in (map wire elements.now) }
{
    let [moved, buried, fired, trimmed] = elements else {
        return None;
    };
    if !is_array(fired) {
        return None;
    }
    if !is_array(trimmed) {
        return None;
    }
    report_with(count(moved), count(buried))
}

impl Report {
    /// The report that a reply is, if it is one: an array of two integers from 0 to 2^62 and two arrays.
    pub fn read(reply: &Reply) -> Option<Report>
        ensures { result ≡ report_of reply.now }
    {
        match reply {
            Reply::Array(elements) => read_elements(elements.list()),
            _ => None,
        }
    }
}
