// Full records of ISO/IEC 19794-7:2007 (clause 7): what they mean and what is demanded of them. Reading and writing them are rooms above.
#![tactic(auto)]

// The format identifier and the version (7.3.2, 7.3.3).
pub const IDENTIFIER: [u8; 4] = [0x53, 0x44, 0x49, 0x00];

pub const VERSION: [u8; 4] = [0x20, 0x31, 0x30, 0x00];
