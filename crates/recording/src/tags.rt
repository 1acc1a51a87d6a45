// The tags of a recording's fields: bytes as they stand in it, and no enum, since any other byte may stand there too.
pub const CONFIGURATION: u8 = 0x01;

pub const FRAME: u8 = 0x02;

pub const LOOKUP: u8 = 0x10;

pub const FREQUENCIES: u8 = 0x11;

pub const BITS: u8 = 0x12;

pub const ORDERS: u8 = 0x13;

pub const COEFFICIENTS: u8 = 0x14;
