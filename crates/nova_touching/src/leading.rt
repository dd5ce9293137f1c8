ghost use Rattle.std.specs.Prelude.{◌≡◌, option_map};
ghost use Rattle.std.specs.List.{find};
ghost use Rattle.nova_range.specs.declared.range.Kind.TheVariants.{Mem};
ghost use Rattle.nova_model.specs.Delegations.{covers, reach};

use nova_kernel::{Derivation, Kernel, Kind, Rights};

/// Whether a derivation is of memory of the protection domain `pd`, and covers `page`.
#[tactic(auto, using(crate::proofs::Covering::far))]
fn covers(derivation: &Derivation, pd: u32, page: u32) -> bool
    ensures { result ≡ covers Mem pd page derivation.now }
{
    matches!(derivation.kind, Kind::Mem)
        && derivation.pd == pd
        && derivation.base <= page
        && (derivation.order >= 32 || page - derivation.base < 1 << derivation.order)
}

/// The derivation through which a page of the protection domain `pd` leads; none where it leads nowhere.
fn covering(kernel: &Kernel, pd: u32, page: u32) -> Option<Derivation>
    ensures { result ≡ find (covers Mem pd page) kernel.now.state.delegations.list }
{
    let mut id = 0;
    while let Some(derivation) = kernel.derivation_from(id) {
        if covers(&derivation, pd, page) {
            return Some(derivation);
        }
        id = derivation.id + 1;
    }
    None
}

/// The frame that a page of the protection domain `pd` leads to, with what is allowed there; none where it leads nowhere.
pub(crate) fn leads_to(kernel: &Kernel, pd: u32, page: u32) -> Option<(u64, Rights)>
    ensures { result ≡ option_map (λ p. (p.frame, p.rights)) (reach kernel.now.state.delegations.list pd page) }
{
    let derivation = covering(kernel, pd, page)?;
    let frame = u64::from(derivation.target) + u64::from(page.saturating_sub(derivation.base));
    Some((frame, derivation.rights))
}
