// Parts of one size after their number.
ghost use Rattle.std.specs.Prelude.{◌<◌};
ghost use Rattle.wire.specs.Bytes.{ReadsAs, Whole, run_bytes};

use crate::encode::read;

// How many bytes each part of a run has.
#[derive(Clone, Copy)]
pub struct PartSize {
    pub bytes: usize,
    ghost some: { 0 < bytes },
    ghost few: { bytes < 65536 },
}

// The parts are lent, not copied.
pub fn read_run(bytes: &[u8], size: PartSize) -> Option<(&[u8], &[u8])>
    ensures value { ReadsAs (λ x. x.now) (Whole size.bytes 65536) (run_bytes size.bytes) bytes.now result }
{
    let (count, rest) = read::<u16, 2>(bytes)?;
    rest.split_at_checked(size.bytes * count as usize)
}
