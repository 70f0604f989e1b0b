// Lines, bulk strings and the heads of arrays, as RESP2 spells them.
ghost use Rattle.std.specs.Prelude.{◌≡◌, ◌++◌, OnOk};
ghost use Rattle.std.specs.Fmt.{decimal, signed_decimal};
ghost use Rattle.sk_resp.specs.Spelling.{line, header, bulk};

use crate::Memory;

// Appends a number's digits.
#[tactic(auto, using(std::proofs::lemmas::Fmt::decimal_step, std::proofs::lemmas::Fmt::decimal_digit))]
fn write_decimal(n: u64, out: &mut Vec<u8>) -> Result<(), Memory>
    ensures { OnOk result (out.new.items ≡ out.old.items ++ decimal n) }
{
    if n < 10 {
        out.push(b'0' + n as u8)?;
        return Ok(());
    }
    write_decimal(n / 10, out)?;
    out.push(b'0' + (n % 10) as u8)?;
    Ok(())
}

/// Appends a number, with its sign where it is negative.
pub fn write_int(n: i64, out: &mut Vec<u8>) -> Result<(), Memory>
    ensures { OnOk result (out.new.items ≡ out.old.items ++ signed_decimal n) }
{
    if n >= 0 {
        return write_decimal(n.unsigned_abs(), out);
    }
    out.push(b'-')?;
    write_decimal(n.unsigned_abs(), out)
}

/// Appends a text, CR and LF.
pub fn write_line(text: &[u8], out: &mut Vec<u8>) -> Result<(), Memory>
    ensures { OnOk result (out.new.items ≡ out.old.items ++ line text.now) }
{
    out.extend_from_slice(text)?;
    out.extend_from_slice(b"\r\n")
}

/// Appends the line in front of so many elements.
#[tactic(auto, unfolding(crate::specs::Spelling::header))]
pub fn write_header(n: usize, out: &mut Vec<u8>) -> Result<(), Memory>
    ensures { OnOk result (out.new.items ≡ out.old.items ++ header n) }
{
    out.push(b'*')?;
    write_decimal(n as u64, out)?;
    out.extend_from_slice(b"\r\n")
}

/// Appends the bytes as a bulk string.
#[tactic(auto, unfolding(crate::specs::Spelling::bulk))]
pub fn write_bulk(bytes: &[u8], out: &mut Vec<u8>) -> Result<(), Memory>
    ensures { OnOk result (out.new.items ≡ out.old.items ++ bulk bytes.now) }
{
    out.push(b'$')?;
    write_decimal(bytes.len() as u64, out)?;
    out.extend_from_slice(b"\r\n")?;
    write_line(bytes, out)
}
