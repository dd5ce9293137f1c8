// A side among the others of some labels, as tables.
ghost use Rattle.std.specs.Prelude.{◌≡◌, ◌≤◌, ◌||◌, ◌<◌, ◌^◌, IfOk, length};
ghost use Rattle.std.specs.List.{enumerate_from, list_any};
ghost use Rattle.nova_ties.specs.Ties.{is_another};
ghost use Rattle.nova_flowing.specs.Premises.{IsOf};
ghost use Rattle.nova_flowing.specs.Tables.{home_table, is_home, is_label, is_on, is_part, is_semaphore_of, others_table, own_table, part_table};
ghost use Rattle.nova_flowing.specs.Tests.{is_in};

use crate::capabilities::holds;
use crate::contexts::is_any_queued;
use crate::division::Division;
use crate::tables::{is_in, is_own};
use nova_kernel::{Derivation, Kernel, Object};
use std::alloc::{AllocError, Global};

fn own_table(alloc: Global, labels: &[u32], label: u32) -> Result<Vec<bool>, AllocError>
    ensures { IfOk result (λ table. table.items ≡ own_table labels.now label) }
{
    let mut table = Vec::new(alloc);
    for other in labels {
        table.push(*other == label)?;
    }
    Ok(table)
}

fn is_another(label: u32, other: u32) -> bool
    ensures { result ≡ is_another label other }
{
    other != 0 && other != label
}

fn others_table(alloc: Global, labels: &[u32], label: u32) -> Result<Vec<bool>, AllocError>
    ensures { IfOk result (λ table. table.items ≡ others_table labels.now label) }
{
    let mut table = Vec::new(alloc);
    for other in labels {
        table.push(is_another(label, *other))?;
    }
    Ok(table)
}

/// Whether `object` is an execution context of some domains, on the processor `cpu`.
fn is_on(own: &[bool], cpu: u32, object: Object) -> bool
    ensures { result ≡ is_on (is_in own.now) cpu object }
{
    match object {
        Object::Ec { pd, cpu: at, .. } => at == cpu && is_in(own, pd),
        _ => false,
    }
}

fn is_home_in(objects: &[Object], own: &[bool], cpu: u32) -> bool
    ensures { result ≡ list_any (is_on (is_in own.now) cpu) objects.now }
{
    objects.iter().any(|&object| is_on(own, cpu, object))
}

fn is_home(kernel: &Kernel, own: &[bool], cpu: u32) -> bool
    ensures { result ≡ is_home kernel.now.state (is_in own.now) cpu }
{
    is_home_in(kernel.objects(), own, cpu)
}

fn home_table(alloc: Global, kernel: &Kernel, own: &[bool]) -> Result<Vec<bool>, AllocError>
    ensures { IfOk result (λ table. table.items ≡ home_table kernel.now.state (is_in own.now)) }
{
    let mut table = Vec::new(alloc);
    for cpu in 0..kernel.cpus() {
        table.push(is_home(kernel, own, cpu))?;
    }
    Ok(table)
}

/// Whether the semaphore `n` is of a side's part.
fn is_semaphore_of(kernel: &Kernel, list: &[Derivation], own: &[bool], n: u32) -> bool
    requires list { list.now ≡ kernel.now.state.delegations.list }
    ensures { result ≡ is_semaphore_of kernel.now.state (is_in own.now) n }
{
    holds(list, own, n) || is_any_queued(kernel, own, n)
}

/// Whether `object` is of a side's part.
fn is_part(kernel: &Kernel, list: &[Derivation], own: &[bool], n: u32, object: Object) -> bool
    requires list { list.now ≡ kernel.now.state.delegations.list }
    ensures { result ≡ is_part kernel.now.state (is_in own.now) (n, object) }
{
    match object {
        Object::Sm => is_semaphore_of(kernel, list, own, n),
        _ => is_own(kernel, own, n, object),
    }
}

fn part_table(
    alloc: Global,
    kernel: &Kernel,
    list: &[Derivation],
    own: &[bool],
) -> Result<Vec<bool>, AllocError>
    requires list { list.now ≡ kernel.now.state.delegations.list }
    ensures { IfOk result (λ table. table.items ≡ part_table kernel.now.state (is_in own.now)) }
{
    let mut table = Vec::new(alloc);
    for (i, object) in kernel.objects().iter().enumerate() {
        table.push(is_part(kernel, list, own, i as u32, *object))?;
    }
    Ok(table)
}

/// The side of `label` among those of `labels`, the labels of the domains of `kernel` by number. The others are the domains of other sides; its
/// processors are those with an execution context of its, and its part of the objects is what is its own, with the semaphores that it holds,
/// or at which one of it waits.
pub fn division_of(
    alloc: Global,
    kernel: &Kernel,
    list: &[Derivation],
    labels: &[u32],
    label: u32,
) -> Result<Division, AllocError>
    requires list { list.now ≡ kernel.now.state.delegations.list }
    requires labels { length labels.now ≤ length kernel.now.state.objects }
    ensures own { IfOk result (λ v. v.own.items ≡ own_table labels.now label) }
    ensures others { IfOk result (λ v. v.others.items ≡ others_table labels.now label) }
    ensures part { IfOk result (λ v. v.part.items ≡ part_table kernel.now.state (is_in (own_table labels.now label))) }
    ensures home { IfOk result (λ v. v.home.items ≡ home_table kernel.now.state (is_in (own_table labels.now label))) }
    ensures of { IfOk result (IsOf kernel.now.state) }
{
    let own = own_table(alloc, labels, label)?;
    let others = others_table(alloc, labels, label)?;
    let home = home_table(alloc, kernel, &own)?;
    let part = part_table(alloc, kernel, list, &own)?;
    Ok(Division {
        own,
        others,
        part,
        home,
    })
}
