ghost use Rattle.std.specs.Prelude.{◌≡◌, ◌<◌, true, length, slice_get, Some, option_map, IfOk};
ghost use Rattle.nova_model.specs.Capabilities.{is_held, named};
ghost use Rattle.nova_turn.specs.Parts.{state_of};
ghost use Rattle.nova_turn.specs.ObjectTypes.{is_of};
ghost use Rattle.nova_model.specs.Portals.{handler_of, ip_of, descriptor, identifier};

use crate::parts::Parts;
use bitflags::Flags;
use nova_model::{EcKind, Kind, Object, Rights};
use nova_range::{Mtd, Status};

/// The type of object that a hypercall asks a capability to lead to.
#[derive(Clone, Copy)]
pub enum ObjectType {
    Pd,
    Ec,
    /// An execution context that is a local thread.
    Local,
    /// An execution context that may have a scheduling context: any but a local thread.
    Schedulable,
    Sc,
    Pt,
    Sm,
}

impl ObjectType {
    /// Whether the object is of this type.
    fn has(self, object: Object) -> bool
        ensures { result ≡ is_of self object }
    {
        match self {
            ObjectType::Pd => matches!(object, Object::Pd),
            ObjectType::Ec => matches!(object, Object::Ec { .. }),
            ObjectType::Local => matches!(
                object,
                Object::Ec {
                    kind: EcKind::Local,
                    ..
                }
            ),
            ObjectType::Schedulable => matches!(
                object,
                Object::Ec {
                    kind: EcKind::Global | EcKind::Vcpu,
                    ..
                }
            ),
            ObjectType::Sc => matches!(object, Object::Sc { .. }),
            ObjectType::Pt => matches!(object, Object::Pt { .. }),
            ObjectType::Sm => matches!(object, Object::Sm),
        }
    }
}

impl Parts {
    /// Whether a capability is held at a selector of a protection domain.
    pub(crate) fn is_held(&self, pd: u32, selector: u32) -> bool
        ensures { result ≡ is_held (state_of self.now) pd selector }
    {
        self.reach.covering(pd, Kind::Obj, selector).is_some()
    }

    /// The number of the object that the capability at a selector leads to. `BadCap` where no
    /// capability is held there, its object isn't of this type, or the right is missing.
    #[inline(always)]
    pub(crate) fn named(
        &self,
        pd: u32,
        object_type: ObjectType,
        right: Rights,
        selector: u32,
    ) -> Result<u32, Status>
        ensures named { result ≡ named (state_of self.now) pd (is_of object_type) right.0 selector }
        ensures there { IfOk result (λ number. number < length (state_of self.now).objects) }
        ensures fits { IfOk result (λ number. option_map (is_of object_type) (slice_get (state_of self.now).objects number) ≡ Some true) }
    {
        let Some(capability) = self.reach.covering(pd, Kind::Obj, selector) else {
            return Err(Status::BadCap);
        };
        match self.objects.get(capability.target) {
            Some(object) if object_type.has(*object) && capability.rights.contains(right) => {
                Ok(capability.target)
            }
            _ => Err(Status::BadCap),
        }
    }

    /// The handler of the portal `pt`, where it begins, and which groups of an exit message the portal fills; each is 0 where there is none.
    pub(crate) fn portal(&self, pt: u32) -> (u32, u32, Mtd)
        ensures handler { result.0 ≡ handler_of (state_of self.now) pt }
        ensures ip { result.1 ≡ ip_of (state_of self.now) pt }
        ensures descriptor { result.2 ≡ descriptor (state_of self.now) pt }
    {
        match self.objects.get(pt) {
            Some(Object::Pt { ec, mtd, ip }) => (*ec, *ip, Mtd::from_bits_retain(*mtd)),
            _ => (0, 0, Mtd::from_bits_retain(0)),
        }
    }

    /// The identifier of the portal `pt`.
    pub(crate) fn identifier(&self, pt: u32) -> u32
        ensures { result ≡ identifier (state_of self.now) pt }
    {
        match self.identifiers.get(pt as usize) {
            Some(Some(identifier)) => *identifier,
            _ => 0,
        }
    }
}
