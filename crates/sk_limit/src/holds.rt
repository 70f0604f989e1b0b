// Holds of a name, of which so many stand at one time (Sidekiq Enterprise's wiki page "Ent Rate Limiting", concurrent limiters).
ghost use Rattle.std.specs.Prelude.{◌≡◌, ◌↔◌, ℕ, Err, IfOk, false};
ghost use Rattle.sk_limit.specs.Hold.{Gives, Holds, Takes, Tries, is_held, is_hold, wish, wish_of};

use crate::ask::{is_limiter, is_name_within, number_of, request};
use crate::limits::LONGEST_LIMITER;
use crate::request::{give_request, set_request, slot_key};
use crate::{LimitFault, Memory};
use sk_base::limits::LONGEST_ID;
use sk_link::{Answer, Link};
use sk_resp::{Reply, Text};
use std::alloc::Global;

/// A slot of a limiter, with the token that stands in it until its time is over or it is given back.
#[derive(Drop)]
pub struct HeldSlot {
    /// The limiter's name, of at most 100 bytes.
    pub name: Text,
    /// From 0 on.
    pub slot: u32,
    /// Who holds it: a name of at most 64 bytes.
    pub token: Text,
}

// Asks for the slot, and answers whether it was free.
fn take<L: Link>(
    alloc: Global,
    link: &mut L,
    slot: &HeldSlot,
    millis: u64,
) -> Result<bool, LimitFault>
    ensures { (most : ℕ) → Takes (L.carried link.old link.new) (wish_of slot.now most millis) slot.now.slot result }
{
    let key = slot_key(alloc, slot)?;
    let words = set_request(alloc, &key, slot.token.text().as_bytes(), millis)?;
    match request(alloc, link, &words, Answer::OkayOrNull) {
        Ok(Reply::Null) => Ok(false),
        Ok(_) => Ok(true),
        Err(fault) => Err(fault),
    }
}

// Asks for one slot after another, from this one on.
fn take_first<L: Link>(
    alloc: Global,
    link: &mut L,
    mut slot: HeldSlot,
    most: u32,
    millis: u64,
) -> Result<Option<HeldSlot>, LimitFault>
    requires { slot.slot ≡ 0 }
    ensures { Tries (L.carried link.old link.new) (wish_of slot most millis) result }
{
    while slot.slot < most {
        match take(alloc, link, &slot, millis) {
            Ok(false) => slot.slot += 1,
            Ok(true) => return Ok(Some(slot)),
            Err(fault) => return Err(fault),
        }
    }
    Ok(None)
}

// The first slot, for whoever has the token.
fn first_slot(alloc: Global, name: &str, token: &str) -> Result<HeldSlot, Memory>
    ensures { IfOk result (λ slot. slot ≡ record { name = name.now; slot = 0; token = token.now }) }
{
    Ok(HeldSlot {
        name: Text::new(name.to_string(alloc)?),
        slot: 0,
        token: Text::new(token.to_string(alloc)?),
    })
}

/// Asks for a slot of the name, of which there are `most`, from 1 to 1,000: `SET limit:name:slot token NX PX millis` for the slots from 0 up, until one
/// is answered `+OK`, and answers that slot. None says that each of them is held. The slot is free again after the milliseconds, from 1 to
/// 1,000,000,000, or once it is given back. The token is of one hold alone, as a fresh job id is.
pub fn hold<L: Link>(
    alloc: Global,
    link: &mut L,
    name: &str,
    most: u32,
    millis: u64,
    token: &str,
) -> Result<Option<HeldSlot>, LimitFault>
    ensures named { (result ≡ Err LimitFault.Name) ↔ (is_hold (wish name.now most millis token.now) ≡ false) }
    ensures told { Holds (L.carried link.old link.new) (wish name.now most millis token.now) result }
{
    if !is_limiter(name, most, millis) || !is_name_within(token, LONGEST_ID) {
        return Err(LimitFault::Name);
    }
    let slot = first_slot(alloc, name, token)?;
    take_first(alloc, link, slot, most, millis)
}

/// Gives the slot back (`SK.GIVE limit:name:slot token`), and answers whether the hold still stood: its time may be over, and the slot may be another's.
pub fn give<L: Link>(alloc: Global, link: &mut L, held: &HeldSlot) -> Result<bool, LimitFault>
    ensures named { (result ≡ Err LimitFault.Name) ↔ (is_held held.now ≡ false) }
    ensures told { Gives (L.carried link.old link.new) held.now result }
{
    let named = is_name_within(held.name.text(), LONGEST_LIMITER);
    if !named || !is_name_within(held.token.text(), LONGEST_ID) {
        return Err(LimitFault::Name);
    }
    let words = give_request(alloc, held)?;
    match request(alloc, link, &words, Answer::Number) {
        Ok(reply) => Ok(number_of(&reply) == 1),
        Err(fault) => Err(fault),
    }
}
