ghost use Rattle.std.specs.Prelude.{◌≡◌, IfOk, IfSome, IsSome, option_map, true};
ghost use Rattle.nova_range.specs.RangeWords.{HasWord, meaning_of};
ghost use Rattle.nova_range.specs.Rights.{IsRights};
ghost use Rattle.nova_model.specs.Transfers.{read_as, job_of, source_of, is_left, next_source, child_of, judged};
ghost use Rattle.nova_model.specs.Delegations.{is_same_kind, is_held_in, with_id};
ghost use Rattle.nova_delegate.specs.Parts.{IsUnderWay, IsReady, first_ahead, busy_by, next_under, pair_of};
ghost use Rattle.nova_range.specs.Ranges.{IsRange, end_of};
ghost use Rattle.nova_nodes.specs.NodesStates.{IsPlaced, IsSound};

use bitflags::Flags;
use nova_model::{Derivation, Job, Reason, Skip};
use nova_nodes::{Guarded, Nodes};
use nova_range::{Index, Kind, Range, Rights, clamp, read_word};

/// The bytes of a page: a hotspot stands in the bits of its word above them.
const PAGE: u32 = 4096;

/// What the range word `word` reads as; nothing where it doesn't read or is null.
pub(crate) fn read(word: u32) -> Option<(Range, Rights)>
    ensures exact { result ≡ read_as (meaning_of word) }
    ensures sound { HasWord result }
{
    match read_word(word) {
        Ok(read) => read,
        Err(_) => None,
    }
}

/// Whether `a` and `b` are the same.
pub(crate) fn is_same_kind(a: Kind, b: Kind) -> bool
    ensures { result ≡ is_same_kind a b }
{
    match (a, b) {
        (Kind::Mem, Kind::Mem) | (Kind::Obj, Kind::Obj) => true,
        (Kind::Mem, Kind::Obj) | (Kind::Obj, Kind::Mem) => false,
    }
}

/// The delegation of an item by the protection domain `giver` to `receiver`, within `window`. `range_word` says
/// what is sent and with which rights, and `window` what the receiver takes; the larger of the two is cut to
/// the part that the hotspot lies in, the page number in `hotspot_word`. Refusals: `Empty` where either word
/// doesn't read or is null, then `Window` where the two are of different types.
pub fn job(
    range_word: u32,
    hotspot_word: u32,
    window: u32,
    giver: u32,
    receiver: u32,
) -> Result<Job, Skip>
    ensures exact { result ≡ job_of range_word hotspot_word window giver receiver }
    ensures sound { IfOk result IsUnderWay }
    ensures rights { IfOk result (λ j. IsRights j.rights) }
{
    let (sent, rights) = read(range_word).ok_or(Skip::Empty)?;
    let (taken, _) = read(window).ok_or(Skip::Empty)?;
    if !is_same_kind(sent.kind, taken.kind) {
        return Err(Skip::Window);
    }
    let parts = clamp(sent, taken, hotspot_word / PAGE);
    Ok(Job {
        giver,
        receiver,
        kind: sent.kind,
        source: parts.source,
        dest: parts.dest,
        order: parts.order,
        rights,
        cursor: 0,
    })
}

/// The first place after `range`, at most 2^20.
fn end(range: Range) -> u32
    requires { IsRange range }
    ensures { result ≡ end_of range }
{
    range.base + (1 << range.order)
}

/// The places that `job` gives.
fn source_of(job: &Job) -> Range
    ensures { result ≡ source_of job.now }
{
    Range {
        kind: job.kind,
        base: job.source,
        order: job.order,
    }
}

/// Of the giver's derivations at or after the cursor of `job` the first that ends after the source's first place.
fn first_ahead<I: Index>(nodes: &Nodes<I>, job: &Job) -> Option<Derivation>
    ensures found { result ≡ first_ahead nodes.now.delegations.list job.now }
    ensures placed { IfSome result IsPlaced }
    ensures sound { IsSound nodes.now.delegations }
{
    let place = job.cursor.max(job.source);
    match nodes.first_from(job.giver, job.kind, place) {
        Some(first) if first.base < job.cursor => {
            nodes.first_from(job.giver, job.kind, end(first.range()))
        }
        Some(first) => Some(first),
        None => None,
    }
}

/// The derivation that `job` gives next: of those that are left, that of least base.
fn next_source<I: Index>(nodes: &Nodes<I>, job: &Job) -> Option<Derivation>
    requires job { IsUnderWay job.now }
    ensures found { result ≡ next_source nodes.now.delegations.list job.now }
    ensures placed { IfSome result IsPlaced }
    ensures sound { IsSound nodes.now.delegations }
{
    match first_ahead(nodes, job) {
        Some(next) if next.base < end(source_of(job)) => Some(next),
        _ => None,
    }
}

/// Whether some place of `range` is held.
fn is_held_in<I: Index>(nodes: &Nodes<I>, pd: u32, range: Range) -> bool
    requires { IsRange range }
    ensures { result ≡ is_held_in nodes.now.delegations.list pd range }
{
    match nodes.first_from(pd, range.kind, range.base) {
        Some(first) => first.base < end(range),
        None => false,
    }
}

/// Whether `child`, which would be next, is busy for a revoke.
fn is_busy<I: Index, G: Guarded>(nodes: &Nodes<I>, revokes: &[G], child: &Derivation) -> bool
    requires placed { IsPlaced child.now }
    requires id { child.now.id ≡ nodes.now.delegations.next }
    requires parent { IfSome child.now.parent (λ id. IsSome (with_id nodes.now.delegations.list id)) }
    ensures { result ≡ busy_by G.revoke revokes.now nodes.now.delegations.list child.now }
{
    for revoke in revokes {
        if revoke.would_grow(nodes, child.parent, child.pd, child.range(), child.target) {
            return true;
        }
    }
    false
}

/// The child, of id `id`, that `job` makes of `source`, a derivation that is left.
fn child_of(job: &Job, source: &Derivation, id: u32) -> Derivation
    requires job { IsUnderWay job.now }
    requires placed { IsPlaced source.now }
    requires left { is_left job.now source.now ≡ true }
    ensures { result ≡ child_of job.now id source.now }
{
    let first = source.base.max(job.source);
    Derivation {
        id,
        pd: job.receiver,
        kind: job.kind,
        base: job.dest + (first - job.source),
        order: source.order.min(job.order),
        rights: Rights::from_bits_retain(source.rights.bits() & job.rights.bits()),
        target: source.target + (first - source.base),
        parent: Some(source.id),
    }
}

/// `child`, or the first reason to skip it.
fn judged<I: Index, G: Guarded>(
    nodes: &Nodes<I>,
    revokes: &[G],
    child: Derivation,
) -> Result<Derivation, Reason>
    requires placed { IsPlaced child }
    requires id { child.id ≡ nodes.now.delegations.next }
    requires parent { IfSome child.parent (λ id. IsSome (with_id nodes.now.delegations.list id)) }
    ensures { result ≡ judged (busy_by G.revoke revokes.now nodes.now.delegations.list) nodes.now.delegations.list child }
{
    if child.rights.bits() == 0 {
        Err(Reason::Rights)
    } else if is_held_in(nodes, child.pd, child.range()) {
        Err(Reason::Taken)
    } else if is_busy(nodes, revokes, &child) {
        Err(Reason::Busy)
    } else {
        Ok(child)
    }
}

/// The next part of `job` while `revokes` run: the giver's derivation of least base that is left, with the child to be made of it or the first reason
/// to skip it. The child has the next id and can be added. The answer is nothing where no derivation is left.
pub fn next_part<I: Index, G: Guarded>(
    nodes: &Nodes<I>,
    job: &Job,
    revokes: &[G],
) -> Option<(Derivation, Result<Derivation, Reason>)>
    requires job { IsUnderWay job.now }
    ensures part { result ≡ option_map pair_of (next_under G.revoke revokes.now nodes.now.delegations job.now) }
    ensures source { IfSome result (λ p. IsPlaced p.0) }
    ensures child { IfSome result (λ p. IfOk p.1 (IsReady nodes.now.delegations)) }
{
    match next_source(nodes, job) {
        None => None,
        Some(source) => {
            let child = child_of(job, &source, nodes.next());
            Some((source, judged(nodes, revokes, child)))
        }
    }
}
