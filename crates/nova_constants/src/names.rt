use crate::rows::Row;
use nova_calls::numbers;
use nova_range::{Flags, Mtd, Rights, Status, Target};

/// The numbers of the hypercalls up to those that make objects.
pub(crate) fn makers() -> [Row; 7] {
    [
        ("NOVA_CALL", numbers::CALL),
        ("NOVA_REPLY", numbers::REPLY),
        ("NOVA_CREATE_PD", numbers::CREATE_PD),
        ("NOVA_CREATE_EC", numbers::CREATE_EC),
        ("NOVA_CREATE_SC", numbers::CREATE_SC),
        ("NOVA_CREATE_PT", numbers::CREATE_PT),
        ("NOVA_CREATE_SM", numbers::CREATE_SM),
    ]
}

/// The numbers of the other hypercalls.
pub(crate) fn controls() -> [Row; 6] {
    [
        ("NOVA_REVOKE", numbers::REVOKE),
        ("NOVA_LOOKUP", numbers::LOOKUP),
        ("NOVA_EC_CTRL", numbers::EC_CTRL),
        ("NOVA_SC_CTRL", numbers::SC_CTRL),
        ("NOVA_PT_CTRL", numbers::PT_CTRL),
        ("NOVA_SM_CTRL", numbers::SM_CTRL),
    ]
}

/// The statuses.
pub(crate) fn statuses() -> [Row; 9] {
    [
        ("NOVA_SUCCESS", Status::Success.code()),
        ("NOVA_TIMEOUT", Status::Timeout.code()),
        ("NOVA_ABORTED", Status::Aborted.code()),
        ("NOVA_OVERFLOW", Status::Overflow.code()),
        ("NOVA_BAD_HYP", Status::BadHyp.code()),
        ("NOVA_BAD_CAP", Status::BadCap.code()),
        ("NOVA_BAD_PAR", Status::BadPar.code()),
        ("NOVA_BAD_CPU", Status::BadCpu.code()),
        ("NOVA_BUSY", Status::Busy.code()),
    ]
}

/// The bits of `rights`.
fn bits(rights: Rights) -> u32 {
    u32::from(rights.bits())
}

/// The rights to memory and to objects.
pub(crate) fn rights() -> [Row; 13] {
    [
        ("NOVA_READ", bits(Rights::READ)),
        ("NOVA_WRITE", bits(Rights::WRITE)),
        ("NOVA_EXECUTE", bits(Rights::EXECUTE)),
        ("NOVA_PD_CREATE", bits(Rights::CREATE)),
        ("NOVA_EC_CONTROL", bits(Rights::CONTROL)),
        ("NOVA_EC_BIND_SC", bits(Rights::BIND_SC)),
        ("NOVA_EC_BIND_PT", bits(Rights::BIND_PT)),
        ("NOVA_SC_CONTROL", bits(Rights::CONTROL)),
        ("NOVA_PT_CONTROL", bits(Rights::CONTROL)),
        ("NOVA_PT_CALL", bits(Rights::CALL)),
        ("NOVA_PT_EVENT", bits(Rights::EVENT)),
        ("NOVA_SM_UP", bits(Rights::UP)),
        ("NOVA_SM_DOWN", bits(Rights::DOWN)),
    ]
}

/// All rights to each.
pub(crate) fn all_rights() -> [Row; 6] {
    [
        ("NOVA_ALL_OF_MEMORY", bits(Rights::all_to(Target::Memory))),
        ("NOVA_ALL_OF_PD", bits(Rights::all_to(Target::Pd))),
        ("NOVA_ALL_OF_EC", bits(Rights::all_to(Target::Ec))),
        ("NOVA_ALL_OF_SC", bits(Rights::all_to(Target::Sc))),
        ("NOVA_ALL_OF_PT", bits(Rights::all_to(Target::Pt))),
        ("NOVA_ALL_OF_SM", bits(Rights::all_to(Target::Sm))),
    ]
}

/// The groups of an exit's message.
pub(crate) fn groups() -> [Row; 4] {
    [
        ("NOVA_QUAL", Mtd::QUAL.bits()),
        ("NOVA_PC", Mtd::PC.bits()),
        ("NOVA_LOW", Mtd::LOW.bits()),
        ("NOVA_HIGH", Mtd::HIGH.bits()),
    ]
}
