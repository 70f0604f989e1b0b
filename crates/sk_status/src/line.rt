// Lines of a name and a number.
ghost use Rattle.std.specs.Prelude.{◌≡◌, ◌++◌, OnOk};
ghost use Rattle.sk_status.specs.Line.{line};

use crate::Memory;
use std::alloc::Global;

/// Writes a line behind what is there.
pub fn write_line(alloc: Global, out: &mut Vec<u8>, name: &str, n: u64) -> Result<(), Memory>
    ensures { OnOk result (out.new.items ≡ out.old.items ++ line name.now n) }
{
    let text = format!(in alloc; "{name} {n}\n")?;
    out.extend_from_slice(text.as_bytes())
}
