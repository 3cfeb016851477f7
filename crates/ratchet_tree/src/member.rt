// Members by their number, keys by their public half.

// A member's number; 65535 stands for nobody.
#[derive(Clone, Copy, PartialEq, Eq, Debug)]
pub struct MemberId(pub u16);

// The public half of a key, as the vault gives it.
#[derive(Clone, Copy, PartialEq, Eq, Debug)]
pub struct PublicKey(pub [u8; 32]);
