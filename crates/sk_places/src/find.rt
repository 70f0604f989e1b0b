// Where the row at an end of a place stands and where the first of a text.
ghost use Rattle.std.specs.Prelude.{◌≡◌, ◌<◌, IfSome, length};
ghost use Rattle.sk_cmd.specs.declared.argument.Side.TheVariants.{Left};
ghost use Rattle.sk_places.specs.Rows.{row_at_end, row_of, rows_at};
ghost use Rattle.sk_places.specs.Segments.{IsIndexOf};

use crate::{Place, Rows};
use sk_cmd::Side;
use sk_payload::JobText;

/// The index at a place of the row at an end of it.
pub fn find_end(rows: &Rows, place: &Place, side: Side) -> Option<usize>
    ensures is { IsIndexOf side (row_at_end side place.now rows.now.list.current) place.now rows.now.list.current result }
    ensures within { IfSome result (λ at. at < length (rows_at place.now rows.now.list.current)) }
{
    let len = rows.len_at(place);
    if len == 0 {
        return None;
    }
    match side {
        Side::Left => Some(0),
        Side::Right => Some(len - 1),
    }
}

/// The index at a place of the first row of a text. Logarithmic in a set; looks at the rows of a queue or a private list one after another.
pub fn find_text(rows: &Rows, place: &Place, text: &[u8]) -> Option<usize>
    ensures is { IsIndexOf Left (row_of text.now (rows_at place.now rows.now.list.current)) place.now rows.now.list.current result }
    ensures within { IfSome result (λ at. at < length (rows_at place.now rows.now.list.current)) }
{
    let len = rows.len_at(place);
    let at = rows.position_of(place, text);
    if at < len { Some(at) } else { None }
}

/// The same of a payload's text. In a queue or a private list it reads the texts of the rows with its tag alone.
pub fn find_payload(rows: &Rows, place: &Place, payload: &JobText) -> Option<usize>
    ensures is { IsIndexOf Left (row_of payload.now (rows_at place.now rows.now.list.current)) place.now rows.now.list.current result }
    ensures within { IfSome result (λ at. at < length (rows_at place.now rows.now.list.current)) }
{
    let len = rows.len_at(place);
    let at = rows.position_of_payload(place, payload);
    if at < len { Some(at) } else { None }
}
