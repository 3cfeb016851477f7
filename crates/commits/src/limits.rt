// The limits of a group.

// As many members as the deepest tree has leaves.
pub const MAX_MEMBERS: usize = 1024;

// The number that stands for nobody; members are numbered below it.
pub const NOBODY: u16 = 65535;

// The epoch after which there is no other.
pub const LAST_EPOCH: u32 = 4294967295;
