//! The numbers of the hypercalls, as a caller puts them into x17.

pub const CALL: u32 = 0;

pub const REPLY: u32 = 1;

pub const CREATE_PD: u32 = 2;

pub const CREATE_EC: u32 = 3;

pub const CREATE_SC: u32 = 4;

pub const CREATE_PT: u32 = 5;

pub const CREATE_SM: u32 = 6;

pub const REVOKE: u32 = 7;

pub const LOOKUP: u32 = 8;

pub const EC_CTRL: u32 = 9;

pub const SC_CTRL: u32 = 10;

pub const PT_CTRL: u32 = 11;

pub const SM_CTRL: u32 = 12;
