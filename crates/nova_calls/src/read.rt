ghost use Rattle.std.specs.Prelude.{◌≡◌, ◌==◌, if◌then◌else◌, IfSome, ◌<◌, ◌↔◌, IfOk};
ghost use Rattle.nova_range.specs.Ranges.{IsRange};
ghost use Rattle.nova_calls.specs.Hypercalls.{is_selector, is_flag, kind_of, action_of, range_of, call_of, call_row, create_pd_row, create_ec_row, create_sc_row, create_pt_row, create_sm_row, revoke_row, lookup_row, ec_ctrl_row, sc_ctrl_row, pt_ctrl_row, sm_ctrl_row};
ghost use Rattle.rv_model.specs.Registers.{reg};
ghost use Rattle.nova_calls.specs.SoundCalls.{IsSoundCall};

use crate::call::{Call, SmAction};
use crate::numbers;
use nova_objects::EcKind;
use nova_range::{Flags, Mtd, Range, Status, read_word};
use rv_model::Regs;

/// The selector `word`, or nothing where the word is none.
pub(crate) fn selector(word: u32) -> Option<u32>
    ensures { result ≡ (if is_selector word then Some word else None) }
{
    if word < 1 << 20 { Some(word) } else { None }
}

/// The flag `word`, or nothing where the word is neither 0 nor 1.
pub(crate) fn flag(word: u32) -> Option<bool>
    ensures { result ≡ (if is_flag word then Some (word == 1) else None) }
{
    match word {
        0 => Some(false),
        1 => Some(true),
        _ => None,
    }
}

/// The kind of execution context of `number`, or nothing where no kind has the number.
pub(crate) fn ec_kind(number: u32) -> Option<EcKind>
    ensures { result ≡ kind_of number }
{
    match number {
        0 => Some(EcKind::Local),
        1 => Some(EcKind::Global),
        2 => Some(EcKind::Vcpu),
        _ => None,
    }
}

/// The action on a semaphore that has `number`, or nothing where none has it; a down that is limited waits for at most `ticks` ticks.
pub(crate) fn sm_action(number: u32, ticks: u32) -> Option<SmAction>
    ensures { result ≡ action_of number ticks }
{
    match number {
        0 => Some(SmAction::Up),
        1 => Some(SmAction::Down),
        2 => Some(SmAction::DownWithin(ticks)),
        _ => None,
    }
}

/// The range of the range word `word`, or nothing where the word doesn't read or is null.
pub(crate) fn range(word: u32) -> Option<Range>
    ensures range { result ≡ range_of word }
    ensures sound { IfSome result IsRange }
{
    match read_word(word) {
        Ok(Some((range, _))) => Some(range),
        _ => None,
    }
}

// Each function reads one row of the table of hypercalls. It answers nothing where an argument is
// outside what the row takes.

/// `CALL`: x10 portal, x11 flag.
fn call(regs: &Regs) -> Option<Call>
    ensures row { result ≡ call_row regs.now }
    ensures sound { IfSome result IsSoundCall }
{
    Some(Call::Call {
        portal: selector(regs.get(10))?,
        flag: flag(regs.get(11))?,
    })
}

/// `CREATE_PD`: x10 target, x11 PD, x12 first range.
fn create_pd(regs: &Regs) -> Option<Call>
    ensures row { result ≡ create_pd_row regs.now }
    ensures sound { IfSome result IsSoundCall }
{
    Some(Call::CreatePd {
        target: selector(regs.get(10))?,
        pd: selector(regs.get(11))?,
        first: read_word(regs.get(12)).ok()?,
    })
}

/// `CREATE_EC`: x10 target, x11 PD, x12 processor in bits 0 to 7 and kind above, x13 initial x2, x14 event base.
fn create_ec(regs: &Regs) -> Option<Call>
    ensures row { result ≡ create_ec_row regs.now }
    ensures sound { IfSome result IsSoundCall }
{
    let event = regs.get(14);
    if event > (1 << 20) - 9 {
        return None;
    }
    Some(Call::CreateEc {
        target: selector(regs.get(10))?,
        pd: selector(regs.get(11))?,
        cpu: regs.get(12) % (1 << 8),
        kind: ec_kind(regs.get(12) >> 8)?,
        sp: regs.get(13),
        event,
    })
}

/// `CREATE_SC`: x10 target, x11 PD, x12 EC, x13 priority in bits 0 to 7 and quantum above.
fn create_sc(regs: &Regs) -> Option<Call>
    ensures row { result ≡ create_sc_row regs.now }
    ensures sound { IfSome result IsSoundCall }
{
    let quantum = regs.get(13) >> 8;
    if quantum == 0 {
        return None;
    }
    Some(Call::CreateSc {
        target: selector(regs.get(10))?,
        pd: selector(regs.get(11))?,
        ec: selector(regs.get(12))?,
        quantum,
        priority: (regs.get(13) % (1 << 8)) as u8,
    })
}

/// `CREATE_PT`: x10 target, x11 PD, x12 EC, x13 message transfer descriptor, x14 instruction pointer.
fn create_pt(regs: &Regs) -> Option<Call>
    ensures row { result ≡ create_pt_row regs.now }
    ensures sound { IfSome result IsSoundCall }
{
    let mtd = regs.get(13);
    let ip = regs.get(14);
    if mtd > 15 || ip % 4 != 0 {
        return None;
    }
    Some(Call::CreatePt {
        target: selector(regs.get(10))?,
        pd: selector(regs.get(11))?,
        ec: selector(regs.get(12))?,
        mtd: Mtd::from_bits_retain(mtd),
        ip,
    })
}

/// `CREATE_SM`: x10 target, x11 PD, x12 counter.
fn create_sm(regs: &Regs) -> Option<Call>
    ensures row { result ≡ create_sm_row regs.now }
    ensures sound { IfSome result IsSoundCall }
{
    Some(Call::CreateSm {
        target: selector(regs.get(10))?,
        pd: selector(regs.get(11))?,
        count: regs.get(12),
    })
}

/// `REVOKE`: x10 range word, x11 flag.
fn revoke(regs: &Regs) -> Option<Call>
    ensures row { result ≡ revoke_row regs.now }
    ensures sound { IfSome result IsSoundCall }
{
    Some(Call::Revoke {
        range: range(regs.get(10))?,
        own: flag(regs.get(11))?,
    })
}

/// `LOOKUP`: x10 range word.
fn lookup(regs: &Regs) -> Option<Call>
    ensures row { result ≡ lookup_row regs.now }
    ensures sound { IfSome result IsSoundCall }
{
    Some(Call::Lookup {
        range: range(regs.get(10))?,
    })
}

/// `EC_CTRL`: x10 EC.
fn ec_ctrl(regs: &Regs) -> Option<Call>
    ensures row { result ≡ ec_ctrl_row regs.now }
    ensures sound { IfSome result IsSoundCall }
{
    Some(Call::EcCtrl {
        ec: selector(regs.get(10))?,
    })
}

/// `SC_CTRL`: x10 SC.
fn sc_ctrl(regs: &Regs) -> Option<Call>
    ensures row { result ≡ sc_ctrl_row regs.now }
    ensures sound { IfSome result IsSoundCall }
{
    Some(Call::ScCtrl {
        sc: selector(regs.get(10))?,
    })
}

/// `PT_CTRL`: x10 PT, x11 identifier.
fn pt_ctrl(regs: &Regs) -> Option<Call>
    ensures row { result ≡ pt_ctrl_row regs.now }
    ensures sound { IfSome result IsSoundCall }
{
    Some(Call::PtCtrl {
        pt: selector(regs.get(10))?,
        identifier: regs.get(11),
    })
}

/// `SM_CTRL`: x10 SM, x11 0 up, 1 down or 2 down with a deadline, x12 its ticks.
fn sm_ctrl(regs: &Regs) -> Option<Call>
    ensures row { result ≡ sm_ctrl_row regs.now }
    ensures sound { IfSome result IsSoundCall }
{
    Some(Call::SmCtrl {
        sm: selector(regs.get(10))?,
        action: sm_action(regs.get(11), regs.get(12))?,
    })
}

/// Reads the hypercall that `regs`, a thread's registers, ask for: its number from x17, and its arguments from
/// x10 to x14. It is `BadHyp` where no call has the number, and else `BadPar` where an argument is outside what
/// the call takes.
#[tactic(auto, unfolding(crate::specs::Hypercalls::call_of))]
pub fn read_call(regs: &Regs) -> Result<Call, Status>
    ensures exact { result ≡ call_of regs.now }
    ensures unknown { (result ≡ Err Status.BadHyp) ↔ (12 < reg regs.now 17) }
    ensures sound { IfOk result IsSoundCall }
{
    let call = match regs.get(17) {
        numbers::CALL => call(regs),
        numbers::REPLY => Some(Call::Reply),
        numbers::CREATE_PD => create_pd(regs),
        numbers::CREATE_EC => create_ec(regs),
        numbers::CREATE_SC => create_sc(regs),
        numbers::CREATE_PT => create_pt(regs),
        numbers::CREATE_SM => create_sm(regs),
        numbers::REVOKE => revoke(regs),
        numbers::LOOKUP => lookup(regs),
        numbers::EC_CTRL => ec_ctrl(regs),
        numbers::SC_CTRL => sc_ctrl(regs),
        numbers::PT_CTRL => pt_ctrl(regs),
        numbers::SM_CTRL => sm_ctrl(regs),
        _ => return Err(Status::BadHyp),
    };
    call.ok_or(Status::BadPar)
}
