// Values that have bytes of their own: read from the front of some bytes, and appended to some.
ghost use Rattle.std.specs.Prelude.{◌≡◌, ℕ, ◌<◌, List, length, All, IfOk, OnOk, flat_map};
ghost use Rattle.std.proofs.Common.{refl, rules};
ghost use Rattle.ratchet_tree.specs.Keys.{Appends};
ghost use Rattle.wire.specs.Bytes.{Half, Holds, Reads, be16, key_bytes};

use ratchet_tree::{MemberId, PublicKey};
use std::alloc::{AllocError, Global};

// A value of N bytes.
pub trait Encode<const N: usize>: Copy {
    // The values that have N bytes, and these bytes.
    ghost fits: { Self → Type 0 };

    ghost encoded: { Self → List ℕ };

    fn from_bytes(bytes: &[u8; N]) -> Self
        ensures fits { fits result }
        ensures value { encoded result ≡ bytes.now };

    fn to_bytes(self) -> [u8; N]
        ensures fits { fits self }
        ensures value { result ≡ encoded self };

    // What each type proves.
    ghost size: { (0 < N) × (N < 65536) };

    ghost width: { (x : Self) → fits x → length (encoded x) ≡ N };
}

// The high byte first.
impl Encode<2> for u16 {
    ghost fits = { λ n. n < 65536 };

    ghost encoded = { be16 };

    fn from_bytes(bytes: &[u8; 2]) -> u16 {
        u16::from_be_bytes(*bytes)
    }

    fn to_bytes(self) -> [u8; 2] {
        self.to_be_bytes()
    }

    ghost size = { (Prim.search rules, Prim.search rules) };

    ghost width = { λ _ _. refl };
}

impl Encode<2> for MemberId {
    ghost fits = { λ m. m.0 < 65536 };

    ghost encoded = { λ m. be16 m.0 };

    fn from_bytes(bytes: &[u8; 2]) -> MemberId {
        MemberId(u16::from_bytes(bytes))
    }

    fn to_bytes(self) -> [u8; 2] {
        self.0.to_bytes()
    }

    ghost size = { (Prim.search rules, Prim.search rules) };

    ghost width = { λ _ _. refl };
}

impl Encode<32> for PublicKey {
    ghost fits = { Half };

    ghost encoded = { key_bytes };

    fn from_bytes(bytes: &[u8; 32]) -> PublicKey {
        PublicKey(*bytes)
    }

    fn to_bytes(self) -> [u8; 32] {
        self.0
    }

    ghost size = { (Prim.search rules, Prim.search rules) };

    ghost width = { λ _ half. half };
}

// The value at the front, and what is behind it.
pub fn read<T: Encode<N>, const N: usize>(bytes: &[u8]) -> Option<(T, &[u8])>
    ensures value { Reads T.fits T.encoded bytes.now result }
{
    let (front, rest) = bytes.split_first_chunk::<N>()?;
    Some((T::from_bytes(front), rest))
}

// The values one after the other; a part of one at the end is left.
pub fn read_all<T: Encode<N> + Drop, const N: usize>(
    alloc: Global,
    bytes: &[u8],
) -> Result<Vec<T>, AllocError>
    ensures value { IfOk result (λ v. Holds T.fits T.encoded N v.items bytes.now) }
{
    let mut values = Vec::new(alloc);
    for part in bytes.as_chunks::<N>().0 {
        values.push(T::from_bytes(part))?;
    }
    Ok(values)
}

pub fn write<T: Encode<N>, const N: usize>(out: &mut Vec<u8>, value: T) -> Result<(), AllocError>
    ensures items { Appends out.old.items (T.encoded value) out.new.items result }
    ensures fits { T.fits value }
{
    out.extend_from_slice(&value.to_bytes())
}

pub fn write_all<T: Encode<N>, const N: usize>(
    out: &mut Vec<u8>,
    values: &[T],
) -> Result<(), AllocError>
    ensures items { Appends out.old.items (flat_map T.encoded values.now) out.new.items result }
    ensures fits { OnOk result (All T.fits values.now) }
{
    for value in values {
        write(out, *value)?;
    }
    Ok(())
}

#[cfg(test)]
mod tests {
    use super::*;
    use std::test::Fail;

    #[test]
    fn values_pass_through_bytes(rt: HostRuntime) -> Result<(), Fail> {
        let mut out = Vec::new(rt.alloc());
        write(&mut out, 258u16)?;
        write_all(&mut out, &[MemberId(3), MemberId(1027)])?;
        assert!(rt; out.as_slice() == [1, 2, 0, 3, 4, 3].as_slice());
        out.push(9)?;
        let numbers = read_all::<u16, 2>(rt.alloc(), &out)?;
        assert!(rt; numbers.as_slice() == [258, 3, 1027].as_slice());
        let first = read::<MemberId, 2>(&out).map(|(member, rest)| (member.0, rest.len()));
        assert!(rt; first == Some((258, 5)));
        Ok(())
    }
}
