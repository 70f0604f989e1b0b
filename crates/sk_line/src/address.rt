// The options that say where the store is.
ghost use Rattle.std.specs.Prelude.{◌≡◌, IfOk, codes};
ghost use Rattle.clap.specs.Words.{App, app_of, found_of, rows_of};
ghost use Rattle.sk_line.specs.Lines.{IsAddress, Reads, addressed};
ghost use Rattle.sk_line.specs.Values.{Has, IsPort};

use crate::LineFault;
use crate::defaults::{HOST, PORT};
use crate::help_lines::{HOST_HELP, PORT_HELP};
use crate::option::{Options, with_default};
use crate::value::{number_of, text_of};
use clap::ArgMatches;
use sk_launcher::Address;
use std::alloc::Global;

/// The options `--host` and `--port`.
pub fn addressed<'a>(alloc: Global, options: Options<'a>) -> Options<'a>
    ensures { (app : App) → IfOk options.entry (λ c. app_of c ≡ app) → IfOk result (λ c. app_of c ≡ addressed app) }
{
    let options = with_default(alloc, options, "host", HOST, HOST_HELP);
    with_default(alloc, options, "port", PORT, PORT_HELP)
}

/// Their values.
pub fn address_of(alloc: Global, matches: &ArgMatches<'_>) -> Result<Address, LineFault>
    ensures { Reads (IsAddress (rows_of (found_of matches.now))) result }
{
    let port = port_of(matches)?;
    let host = text_of(alloc, matches, "host")?;
    Ok(Address { host, port })
}

/// The value of `--port`.
pub fn port_of(matches: &ArgMatches<'_>) -> Result<u16, LineFault>
    ensures { Reads (Has IsPort (rows_of (found_of matches.now)) (codes "port")) result }
{
    Ok(number_of(matches, "port", 1, 65_535)? as u16)
}
