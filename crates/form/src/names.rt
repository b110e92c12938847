// The four bytes of each name, as a number.
pub const FORM: u32 = 0x464F524D;

// '8SVX'
pub const FORM_TYPE: u32 = 0x38535658;

pub const VHDR: u32 = 0x56484452;

pub const CHAN: u32 = 0x4348414E;

// 'PAN ', with a space
pub const PAN: u32 = 0x50414E20;

pub const SEQN: u32 = 0x5345514E;

pub const FADE: u32 = 0x46414445;

pub const BODY: u32 = 0x424F4459;

pub const ATAK: u32 = 0x4154414B;

pub const RLSE: u32 = 0x524C5345;

pub const NAME: u32 = 0x4E414D45;

pub const AUTH: u32 = 0x41555448;

pub const ANNO: u32 = 0x414E4E4F;

// '(c) ', with a space
pub const COPYRIGHT: u32 = 0x28632920;

pub const CHRS: u32 = 0x43485253;
