// The store's own commands for jobs, batches, workers and leases: how their arguments are read.
ghost use Rattle.std.specs.Prelude.{◌≡◌};
ghost use Rattle.sk_resp.specs.declared.name.Name.TheVariants as Name;
ghost use Rattle.sk_cmd.specs.Table.{Reads};

use crate::argument::{read_due_set, read_limit, read_scored, read_slot};
use crate::counts::{five_and, four, is_from, one, one_and, two, zero};
use crate::forms::{key_texts, script};
use crate::scores::score_option;
use crate::{CmdFault, Command, ScriptCommand};
use sk_resp::{Name, Word};

/// `SK.BEAT ident`
pub fn beat(words: &mut Vec<Word>) -> Result<Command, CmdFault>
    ensures { Reads Name.Beat words.old.items result }
{
    script(ScriptCommand::Beat(one(Name::Beat, words)?))
}

/// `SK.JOIN ident`
pub fn join(words: &mut Vec<Word>) -> Result<Command, CmdFault>
    ensures { Reads Name.Join words.old.items result }
{
    script(ScriptCommand::Join(one(Name::Join, words)?))
}

/// `SK.START payload`
pub fn start(words: &mut Vec<Word>) -> Result<Command, CmdFault>
    ensures { Reads Name.Start words.old.items result }
{
    script(ScriptCommand::Start(one(Name::Start, words)?))
}

/// `SK.OK payload`
pub fn ok(words: &mut Vec<Word>) -> Result<Command, CmdFault>
    ensures { Reads Name.Ok words.old.items result }
{
    script(ScriptCommand::Ok(one(Name::Ok, words)?))
}

/// `SK.FAIL payload`
pub fn fail(words: &mut Vec<Word>) -> Result<Command, CmdFault>
    ensures { Reads Name.Fail words.old.items result }
{
    script(ScriptCommand::Fail(one(Name::Fail, words)?))
}

/// `SK.DROP payload`
pub fn drop_held(words: &mut Vec<Word>) -> Result<Command, CmdFault>
    ensures { Reads Name.Drop words.old.items result }
{
    script(ScriptCommand::Drop(one(Name::Drop, words)?))
}

/// `SK.BURY payload`
pub fn bury(words: &mut Vec<Word>) -> Result<Command, CmdFault>
    ensures { Reads Name.Bury words.old.items result }
{
    script(ScriptCommand::Bury(one(Name::Bury, words)?))
}

/// `SK.BACK payload`
pub fn back(words: &mut Vec<Word>) -> Result<Command, CmdFault>
    ensures { Reads Name.Back words.old.items result }
{
    script(ScriptCommand::Back(one(Name::Back, words)?))
}

/// `SK.DUE schedule|retry limit`
pub fn due(words: &mut Vec<Word>) -> Result<Command, CmdFault>
    ensures { Reads Name.Due words.old.items result }
{
    let (set, limit) = two(Name::Due, words)?;
    let set = read_due_set(set.bytes())?;
    let limit = read_limit(limit.bytes())?;
    script(ScriptCommand::Due(set, limit))
}

/// `SK.RESCUE`
pub fn rescue(words: &mut Vec<Word>) -> Result<Command, CmdFault>
    ensures { Reads Name.Rescue words.old.items result }
{
    zero(Name::Rescue, words)?;
    script(ScriptCommand::Rescue)
}

/// `SK.UPUSH payload [score]`
pub fn upush(words: &mut Vec<Word>) -> Result<Command, CmdFault>
    ensures { Reads Name.Upush words.old.items result }
{
    let fits = is_from(1, 2, words.len());
    let (payload, score) = one_and(Name::Upush, fits, words)?;
    let score = score_option(score.list())?;
    script(ScriptCommand::Upush(payload, score))
}

/// `SK.BPUSH bid parent complete success death [payload ..]`
pub fn bpush(words: &mut Vec<Word>) -> Result<Command, CmdFault>
    ensures { Reads Name.Bpush words.old.items result }
{
    let (bid, parent, complete, success, death, payloads) = five_and(Name::Bpush, words)?;
    script(ScriptCommand::Bpush(bid, parent, complete, success, death, payloads))
}

/// `SK.BADD bid payload ..`
pub fn badd(words: &mut Vec<Word>) -> Result<Command, CmdFault>
    ensures { Reads Name.Badd words.old.items result }
{
    let (key, texts) = key_texts(Name::Badd, words)?;
    script(ScriptCommand::Badd(key, texts))
}

/// `SK.BSTAT bid`
pub fn bstat(words: &mut Vec<Word>) -> Result<Command, CmdFault>
    ensures { Reads Name.Bstat words.old.items result }
{
    script(ScriptCommand::Bstat(one(Name::Bstat, words)?))
}

/// `SK.LEAD ident`
pub fn lead(words: &mut Vec<Word>) -> Result<Command, CmdFault>
    ensures { Reads Name.Lead words.old.items result }
{
    script(ScriptCommand::Lead(one(Name::Lead, words)?))
}

/// `SK.CRON ident loop slot payload`
pub fn cron(words: &mut Vec<Word>) -> Result<Command, CmdFault>
    ensures { Reads Name.Cron words.old.items result }
{
    let (ident, name, slot, payload) = four(Name::Cron, words)?;
    let slot = read_slot(slot.bytes())?;
    script(ScriptCommand::Cron(ident, name, slot, payload))
}

/// `SK.REVIVE schedule|retry|dead payload`
pub fn revive(words: &mut Vec<Word>) -> Result<Command, CmdFault>
    ensures { Reads Name.Revive words.old.items result }
{
    let (set, payload) = two(Name::Revive, words)?;
    let set = read_scored(set.bytes())?;
    script(ScriptCommand::Revive(set, payload))
}

/// `SK.KILL schedule|retry payload`
pub fn kill(words: &mut Vec<Word>) -> Result<Command, CmdFault>
    ensures { Reads Name.Kill words.old.items result }
{
    let (set, payload) = two(Name::Kill, words)?;
    let set = read_due_set(set.bytes())?;
    script(ScriptCommand::Kill(set, payload))
}

/// `SK.WHERE jid`
pub fn where_is(words: &mut Vec<Word>) -> Result<Command, CmdFault>
    ensures { Reads Name.Where words.old.items result }
{
    script(ScriptCommand::Where(one(Name::Where, words)?))
}

/// `SK.STATUS`
pub fn status(words: &mut Vec<Word>) -> Result<Command, CmdFault>
    ensures { Reads Name.Status words.old.items result }
{
    zero(Name::Status, words)?;
    script(ScriptCommand::Status)
}
