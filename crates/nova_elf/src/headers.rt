ghost use Rattle.std.specs.Prelude.{◌≡◌, ◌<◌, [], ◌∷◌, ◌++◌, length, IfOk, OnOk};
ghost use Rattle.nova_elf.specs.Headers.{header_of, headers, first_fault_in, segments_of};
ghost use Rattle.nova_elf.specs.Executable.{HasTable};
ghost use Rattle.nova_elf.specs.Fields.{half};

use crate::fault::ElfFault;
use crate::fields::{half, word};
use crate::header::Header;
use crate::program::Segment;
use std::alloc::{AllocError, Global};

/// The program header of number `index`.
fn header(bytes: &[u8], index: u16) -> Header
    requires table { HasTable bytes.now }
    requires there { index < half bytes.now 44 }
    ensures { result ≡ header_of bytes.now index }
{
    Header::at(bytes, word(bytes, 28) as usize + 32 * index as usize)
}

/// The first fault of the program headers of `bytes`.
#[tactic(auto, using(crate::proofs::HeaderLemmas::all_left, crate::proofs::HeaderLemmas::none_left, crate::proofs::HeaderLemmas::one_left))]
pub fn header_fault(bytes: &[u8]) -> Option<ElfFault>
    requires { HasTable bytes.now }
    ensures { result ≡ first_fault_in (length bytes.now) 0 (headers bytes.now) }
{
    for index in 0..half(bytes, 44) {
        let fault = header(bytes, index).fault(bytes.len() as u64, u32::from(index));
        if fault.is_some() {
            return fault;
        }
    }
    None
}

/// Appends the segment of `header`, if it has one.
fn push_segment(segments: &mut Vec<Segment>, header: Header) -> Result<(), AllocError>
    ensures { OnOk result (segments.new.items ≡ segments.old.items ++ segments_of (header ∷ [])) }
{
    if header.is_loaded() {
        segments.push(header.segment())?;
    }
    Ok(())
}

/// The segments of the program headers of `bytes`.
#[tactic(auto, using(crate::proofs::HeaderLemmas::all_left, crate::proofs::HeaderLemmas::none_left, crate::proofs::HeaderLemmas::one_left, crate::proofs::HeaderLemmas::one_more))]
pub fn segments(alloc: Global, bytes: &[u8]) -> Result<Vec<Segment>, AllocError>
    requires { HasTable bytes.now }
    ensures { IfOk result (λ segments. segments.items ≡ segments_of (headers bytes.now)) }
{
    let mut segments = Vec::new(alloc);
    for index in 0..half(bytes, 44) {
        push_segment(&mut segments, header(bytes, index))?;
    }
    Ok(segments)
}
