ghost use Rattle.std.specs.Prelude.{◌≡◌, ◌^◌, ◌<◌, ℕ, IfOk, IsSome};
ghost use Rattle.nova_calls.specs.SoundCalls.{IsSoundCall};
ghost use Rattle.nova_model.specs.Hypercalls.{maker, unless_busy, new_domain, create_pd, create_ec, is_scheduled, create_sc, create_pt, create_sm, looked_up, ticks_in, row, or_refuses, hypercall};
ghost use Rattle.nova_model.specs.State.{KernelState, budget_at, context_at, context, pd_of};
ghost use Rattle.nova_turn.specs.Parts.{state_of};
ghost use Rattle.nova_deeds.specs.Counted.{IsCharged, IsCounted};
ghost use Rattle.nova_deeds.specs.Acts.{IsToBeDone};
ghost use Rattle.nova_turn.specs.Revoking.{AreRunning};

use crate::decide::capabilities::ObjectType;
use crate::parts::Parts;
use crate::tables::inventory::Numbers;
use bitflags::Flags;
use nova_calls::{Call, numbers, read_call};
use nova_model::{Deed, EcKind, NewObject, Object, Rights};
use nova_range::{Range, Status, word_of};

/// Where an object is to be made: the protection domain of the maker, the selector in it that the
/// new capability takes, and the selector in it of the domain that the object is to lie in.
#[derive(Clone, Copy)]
pub struct Site {
    pub domain: u32,
    pub target: u32,
    pub pd_selector: u32,
}

impl Site {
    fn new(domain: u32, target: u32, pd_selector: u32) -> Site
        ensures { result ≡ record { domain = domain; target = target; pd_selector = pd_selector } }
    {
        Site {
            domain,
            target,
            pd_selector,
        }
    }
}

/// A refusal of a hypercall is a deed too.
#[inline(always)]
fn or_refuses(number: u32, asked: Result<Deed, Status>) -> Deed
    ensures deed { result ≡ or_refuses number asked }
    ensures fits { (k : KernelState) (ec : ℕ) → IfOk asked (IsToBeDone k ec) → IsToBeDone k ec result }
{
    match asked {
        Ok(deed) => deed,
        Err(status) => Deed::Refuses {
            call: number,
            status,
        },
    }
}

impl Parts {
    /// The protection domain in which the object is to be made. `BadCap` where the capability names
    /// no protection domain with the right to create, or where the target is held.
    fn maker(&self, site: Site) -> Result<u32, Status>
        ensures { result ≡ maker (state_of self.now) site.domain site.target site.pd_selector }
    {
        let owner = self.named(
            site.domain,
            ObjectType::Pd,
            Rights::CREATE,
            site.pd_selector,
        )?;
        if self.is_held(site.domain, site.target) {
            return Err(Status::BadCap);
        }
        Ok(owner)
    }

    /// What comes last of the create rules: `Busy` where an execution context of the maker's domain revokes
    /// an object range that contains the target.
    fn unless_busy(&self, site: Site, deed: Deed) -> Result<Deed, Status>
        requires { AreRunning (state_of self.now) self.now.revokes }
        ensures answer { result ≡ unless_busy (state_of self.now) site.domain site.target deed }
        ensures same { IfOk result (λ d. d ≡ deed) }
    {
        if self.revokes.forbids(site.domain, site.target) {
            return Err(Status::Busy);
        }
        Ok(deed)
    }

    /// A protection domain is made; it goes on where there is a first range to be given.
    fn new_domain(&self, target: u32, first: Option<(Range, Rights)>) -> Deed
        requires counted { IsCounted (state_of self.now) }
        requires target { target < 2 ^ 20 }
        ensures deed { result ≡ new_domain (state_of self.now) target first }
        ensures fits { (ec : ℕ) → IsToBeDone (state_of self.now) ec result }
    {
        match first {
            None => Deed::Makes {
                call: numbers::CREATE_PD,
                target,
                new: NewObject::Pd,
            },
            Some(_) => Deed::Opens {
                target,
                domain: self.objects.len() as u32,
            },
        }
    }

    /// `CREATE_PD`: makes a protection domain, and goes on where there is a first range to be given.
    fn create_pd(&self, site: Site, first: Option<(Range, Rights)>) -> Result<Deed, Status>
        requires counted { IsCounted (state_of self.now) }
        requires running { AreRunning (state_of self.now) self.now.revokes }
        requires target { site.target < 2 ^ 20 }
        ensures row { result ≡ create_pd (state_of self.now) site.domain site.target site.pd_selector first }
        ensures fits { (ec : ℕ) → IfOk result (IsToBeDone (state_of self.now) ec) }
    {
        self.maker(site)?;
        self.unless_busy(site, self.new_domain(site.target, first))
    }

    /// `CREATE_EC`: makes an execution context.
    fn create_ec(
        &self,
        site: Site,
        cpu: u32,
        kind: EcKind,
        sp: u32,
        event: u32,
    ) -> Result<Deed, Status>
        requires target { site.target < 2 ^ 20 }
        requires running { AreRunning (state_of self.now) self.now.revokes }
        ensures row { result ≡ create_ec (state_of self.now) site.domain site.target site.pd_selector cpu kind sp event }
        ensures fits { (ec : ℕ) → IfOk result (IsToBeDone (state_of self.now) ec) }
    {
        let pd = self.maker(site)?;
        if cpu >= self.cpus {
            return Err(Status::BadCpu);
        }
        self.unless_busy(
            site,
            Deed::Makes {
                call: numbers::CREATE_EC,
                target: site.target,
                new: NewObject::Ec {
                    pd,
                    cpu,
                    kind,
                    sp,
                    event,
                },
            },
        )
    }

    /// Whether an execution context has a scheduling context. Of most that are asked for it is known that they have none.
    fn is_scheduled(&self, ec: u32) -> bool
        ensures { result ≡ is_scheduled (state_of self.now) ec }
    {
        if let Numbers::Empty = self.objects.schedules_of(ec) {
            return false;
        }
        for object in self.objects.as_slice() {
            if matches!(object, Object::Sc { ec: its, .. } if *its == ec) {
                return true;
            }
        }
        false
    }

    /// `CREATE_SC`: makes the one scheduling context of an execution context, on its processor.
    #[tactic(auto, using(nova_choice::proofs::Named::placed_there))]
    fn create_sc(
        &self,
        site: Site,
        ec_selector: u32,
        quantum: u32,
        priority: u8,
    ) -> Result<Deed, Status>
        requires target { site.target < 2 ^ 20 }
        requires running { AreRunning (state_of self.now) self.now.revokes }
        ensures row { result ≡ create_sc (state_of self.now) site.domain site.target site.pd_selector ec_selector quantum priority }
        ensures fits { (ec : ℕ) → IfOk result (IsToBeDone (state_of self.now) ec) }
    {
        self.maker(site)?;
        let ec = self.named(
            site.domain,
            ObjectType::Schedulable,
            Rights::BIND_SC,
            ec_selector,
        )?;
        if self.is_scheduled(ec) {
            return Err(Status::BadCap);
        }
        self.unless_busy(
            site,
            Deed::Makes {
                call: numbers::CREATE_SC,
                target: site.target,
                new: NewObject::Sc {
                    ec,
                    cpu: self.processor(ec),
                    priority,
                    quantum,
                },
            },
        )
    }

    /// `CREATE_PT`: makes a portal.
    fn create_pt(&self, site: Site, ec_selector: u32, mtd: u32, ip: u32) -> Result<Deed, Status>
        requires target { site.target < 2 ^ 20 }
        requires running { AreRunning (state_of self.now) self.now.revokes }
        ensures row { result ≡ create_pt (state_of self.now) site.domain site.target site.pd_selector ec_selector mtd ip }
        ensures fits { (ec : ℕ) → IfOk result (IsToBeDone (state_of self.now) ec) }
    {
        self.maker(site)?;
        let ec = self.named(site.domain, ObjectType::Local, Rights::BIND_PT, ec_selector)?;
        self.unless_busy(
            site,
            Deed::Makes {
                call: numbers::CREATE_PT,
                target: site.target,
                new: NewObject::Pt { ec, mtd, ip },
            },
        )
    }

    /// `CREATE_SM`: makes a semaphore.
    fn create_sm(&self, site: Site, count: u32) -> Result<Deed, Status>
        requires target { site.target < 2 ^ 20 }
        requires running { AreRunning (state_of self.now) self.now.revokes }
        ensures row { result ≡ create_sm (state_of self.now) site.domain site.target site.pd_selector count }
        ensures fits { (ec : ℕ) → IfOk result (IsToBeDone (state_of self.now) ec) }
    {
        self.maker(site)?;
        self.unless_busy(
            site,
            Deed::Makes {
                call: numbers::CREATE_SM,
                target: site.target,
                new: NewObject::Sm { count },
            },
        )
    }

    /// `LOOKUP`: the word of the derivation that covers the base of a range, with its own base, order
    /// and rights; 0 where there is none.
    fn looked_up(&self, domain: u32, range: Range) -> u32
        ensures { result ≡ looked_up (state_of self.now) domain range }
    {
        match self.reach.covering(domain, range.kind, range.base) {
            Some(found) => word_of(Some((found.range(), found.rights))),
            None => word_of(None),
        }
    }

    /// The turns that a scheduling context paid for before this one; 0 of another number.
    fn ticks_before(&self, sc: u32) -> u32
        requires { IsCharged (state_of self.now) }
        ensures { result ≡ ticks_in (budget_at (state_of self.now) sc) }
    {
        match self.ticks(sc) {
            Some(ticks) => ticks as u32,
            None => 0,
        }
    }

    /// The rows of the table of hypercalls.
    fn row(&self, ec: u32, domain: u32, call: Call) -> Result<Deed, Status>
        requires there { IsSome (context_at (state_of self.now) ec) }
        requires counted { IsCounted (state_of self.now) }
        requires running { AreRunning (state_of self.now) self.now.revokes }
        requires sound { IsSoundCall call }
        ensures row { result ≡ row (state_of self.now) ec domain call }
        ensures fits { IfOk result (IsToBeDone (state_of self.now) ec) }
    {
        match call {
            Call::Call { portal, flag } => self.call(ec, domain, portal, flag),
            Call::Reply => self.reply(ec),
            Call::CreatePd { target, pd, first } => {
                self.create_pd(Site::new(domain, target, pd), first)
            }
            Call::CreateEc {
                target,
                pd,
                cpu,
                kind,
                sp,
                event,
            } => self.create_ec(Site::new(domain, target, pd), cpu, kind, sp, event),
            Call::CreateSc {
                target,
                pd,
                ec: whose,
                quantum,
                priority,
            } => self.create_sc(Site::new(domain, target, pd), whose, quantum, priority),
            Call::CreatePt {
                target,
                pd,
                ec: handler,
                mtd,
                ip,
            } => self.create_pt(Site::new(domain, target, pd), handler, mtd.bits(), ip),
            Call::CreateSm { target, pd, count } => {
                self.create_sm(Site::new(domain, target, pd), count)
            }
            Call::Revoke { range, own } => Ok(Deed::Revokes { range, own }),
            Call::Lookup { range } => Ok(Deed::Tells {
                call: numbers::LOOKUP,
                value: self.looked_up(domain, range),
            }),
            Call::EcCtrl { ec: whose } => {
                let ec = self.named(domain, ObjectType::Ec, Rights::CONTROL, whose)?;
                Ok(Deed::Recalls { ec })
            }
            Call::ScCtrl { sc } => {
                let sc = self.named(domain, ObjectType::Sc, Rights::CONTROL, sc)?;
                Ok(Deed::Tells {
                    call: numbers::SC_CTRL,
                    value: self.ticks_before(sc),
                })
            }
            Call::PtCtrl { pt, identifier } => {
                let pt = self.named(domain, ObjectType::Pt, Rights::CONTROL, pt)?;
                Ok(Deed::Names { pt, identifier })
            }
            Call::SmCtrl { sm, action } => self.sm_ctrl(ec, domain, sm, action),
        }
    }

    /// The deed of a hypercall by its row of the table. Most that are asked are calls and replies, so that the table stays out of their code.
    #[inline(never)]
    fn row_or_refusal(&self, ec: u32, domain: u32, call: Call, number: u32) -> Deed
        requires there { IsSome (context_at (state_of self.now) ec) }
        requires counted { IsCounted (state_of self.now) }
        requires running { AreRunning (state_of self.now) self.now.revokes }
        requires sound { IsSoundCall call }
        ensures deed { result ≡ or_refuses number (row (state_of self.now) ec domain call) }
        ensures fits { IsToBeDone (state_of self.now) ec result }
    {
        or_refuses(number, self.row(ec, domain, call))
    }

    /// The deed of the hypercall that an execution context's registers ask for: a refusal is one too.
    pub(crate) fn hypercall(&self, ec: u32) -> Deed
        requires there { IsSome (context_at (state_of self.now) ec) }
        requires counted { IsCounted (state_of self.now) }
        requires running { AreRunning (state_of self.now) self.now.revokes }
        ensures deed { result ≡ hypercall (state_of self.now) ec (pd_of (state_of self.now) ec) (context (state_of self.now) ec).regs }
        ensures fits { IsToBeDone (state_of self.now) ec result }
    {
        let regs = &self.contexts.context(ec).regs;
        let domain = self.pd(ec);
        let number = regs.get(17);
        match read_call(regs) {
            Ok(Call::Call { portal, flag }) => {
                or_refuses(number, self.call(ec, domain, portal, flag))
            }
            Ok(Call::Reply) => or_refuses(number, self.reply(ec)),
            Ok(call) => self.row_or_refusal(ec, domain, call, number),
            Err(status) => or_refuses(number, Err(status)),
        }
    }
}
