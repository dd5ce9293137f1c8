ghost use Rattle.std.specs.Prelude.{◌≡◌, ◌&&◌};
ghost use Rattle.law_renaming.specs.Forced.{alike_input, alike_map, alike_maps, is_given, same_state, suits};

use bitflags::Flags;
use nova_guest::{GuestState, Input, Map};

/// Whether `s` and `t` are equal.
pub fn same_state(s: GuestState, t: GuestState) -> bool
    ensures { result ≡ same_state s t }
{
    match (s, t) {
        (GuestState::Fresh, GuestState::Fresh) => true,
        (GuestState::Ready, GuestState::Ready) => true,
        (
            GuestState::Exit { reason, q0, q1 },
            GuestState::Exit {
                reason: r,
                q0: a,
                q1: b,
            },
        ) => { reason == r && q0 == a && q1 == b }
        (GuestState::Waiting, GuestState::Waiting) => true,
        (GuestState::Dead, GuestState::Dead) => true,
        _ => false,
    }
}

/// Whether `m` and `n` are equal but for their frames.
pub fn alike_map(m: &Map, n: &Map) -> bool
    ensures { result ≡ alike_map m.now n.now }
{
    m.base == n.base && m.order == n.order && m.rights.bits() == n.rights.bits()
}

/// Whether `i` and `j` are maps that are given, with equal contents, and are equal but for their frames.
fn alike_given(i: &Input, j: &Input) -> bool
    ensures { result ≡ is_given i.now && alike_input i.now j.now }
{
    match (i, j) {
        (
            Input::Given {
                base,
                order,
                rights,
                contents,
                ..
            },
            Input::Given {
                base: b,
                order: o,
                rights: r,
                contents: c,
                ..
            },
        ) => *base == *b
            && *order == *o
            && rights.bits() == r.bits()
            && contents.as_slice() == c.as_slice(),
        _ => false,
    }
}

/// Whether `i` and `j` are equal but for their frames.
pub fn alike_input(i: &Input, j: &Input) -> bool
    ensures { result ≡ alike_input i.now j.now }
{
    match (i, j) {
        (Input::Own, Input::Own) => true,
        (Input::Sent, Input::Sent) => true,
        (Input::Died, Input::Died) => true,
        (Input::Recall, Input::Recall) => true,
        (Input::Reply(mtd, words), Input::Reply(m, ws)) => mtd.bits() == m.bits() && words == ws,
        (Input::Given { .. }, Input::Given { .. }) => alike_given(i, j),
        (Input::Taken { base, order }, Input::Taken { base: b, order: o }) => *base == *b
            && *order == *o,
        (
            Input::Foreign {
                offset,
                width,
                value,
                ..
            },
            Input::Foreign {
                offset: o,
                width: w,
                value: v,
                ..
            },
        ) => *offset == *o && *width == *w && *value == *v,
        _ => false,
    }
}

/// Whether the pair of frames `p` suits `q`: first frames are equal just where second ones are.
pub fn suits(p: (u32, u32), q: (u32, u32)) -> bool
    ensures { result ≡ suits p q }
{
    (p.0 == q.0) == (p.1 == q.1)
}

/// Whether `ms` and `ns` are equal one by one but for their frames.
#[tactic(auto, using(crate::proofs::Pairing::unlike_many))]
pub fn alike_maps(ms: &[Map], ns: &[Map]) -> bool
    ensures { result ≡ alike_maps ms.now ns.now }
{
    if ms.len() != ns.len() {
        return false;
    }
    for i in 0..ms.len() {
        if !alike_map(&ms[i], &ns[i]) {
            return false;
        }
    }
    true
}
