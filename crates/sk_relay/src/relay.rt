// A job that another program runs. Each run has a connection of its own, so a reply can be no earlier request's.
ghost use Rattle.std.specs.Prelude.{◌≡◌, IfOk, None};
ghost use Rattle.sk_relay.specs.Relaying.{RunsOver, run_request};

use crate::outcome::{outcome_of, unreachable_run};
use sk_edge::{Door, DoorFault};
use sk_link::{Link, WireLink, words_of};
use sk_payload::Head;
use sk_resp::{Text, Words};
use sk_worker::{Job, Memory, Outcome};
use std::alloc::Global;

/// Runs jobs in another program, which listens at a port of TCP. For a run it dials that port, sends one request, an array of five bulk strings, `RUN
/// class jid failures args`, reads one reply, and hangs up. It tells no runs.
///
/// `+OK` returns. An error reply `-CLASS message` raises that error: its class is what stands before the first space, and its message what stands
/// behind it. Whatever else comes is an error, too: `Unreachable` where nobody takes the connection, so that nothing was run; `Lost` where no whole
/// reply comes, so that the job may have run or not; and `BadReply` where the reply is another one, or an error that isn't UTF-8.
#[derive(Drop)]
pub struct Relay<N: Door + Drop> {
    /// Where the connections come from. How long they wait for a reply is the door's.
    pub net: N,
    /// The host of the other program, a name or a number.
    pub host: Text,
    /// Its port of TCP.
    pub port: u16,
}

// What the other program is asked.
fn request(alloc: Global, head: &Head) -> Result<Words, Memory>
    ensures { IfOk result (λ words. words ≡ run_request head.now) }
{
    let failures = format!(in alloc; "{}", head.gen_)?;
    let words = words_of(
        alloc,
        &[
            b"RUN".as_slice(),
            head.class.text().as_bytes(),
            head.jid.text().as_bytes(),
            failures.as_bytes(),
            head.args.text().as_bytes(),
        ],
    )?;
    Ok(Words::new(words))
}

impl<N: Door + Drop> Job for Relay<N> {
    ghost runs = { λ _. None };

    /// Asks the other program to run the job with this head.
    fn run(&mut self, alloc: Global, head: &Head) -> Result<Outcome, Memory>
        ensures { IfOk result (RunsOver N.Door N.Conn.Source N.Conn.Sink self.old.net self.new.net head.now) }
    {
        let words = request(alloc, head)?;
        let conn = match self.net.connect(self.host.text(), self.port) {
            Ok(conn) => conn,
            Err(DoorFault::Failed) => return unreachable_run(alloc),
            Err(DoorFault::Memory) => return Err(Memory),
        };
        let mut link = WireLink::new(alloc, conn);
        let came = link.call(alloc, &words);
        self.net.leave(link.into_conn());
        outcome_of(alloc, came)
    }
}
