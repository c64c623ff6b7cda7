//! A bay over a bay, some of whose slots are fenced.
ghost use Rattle.std.specs.Prelude.{◌≡◌, ℕ, true, false, slice_index_or};
ghost use Rattle.ddf_fenced.specs.Fences.{is_shut};

use ddf_bay::Bay;

/// A bay over a bay. On a fenced slot each call fails, and the bay below isn't called: a slot of which something that counts could not be
/// read is passed over as a failed disk is, and never read by halves. Every other slot is as it is below. Which ones are fenced is fixed when
/// the bay is made.
#[derive(Drop)]
pub struct Fenced<B: Bay + Drop> {
    pub(crate) inner: B,
    pub(crate) shut: Vec<bool>,
    pub(crate) read_faults: [u64; 64],
    pub(crate) write_faults: [u64; 64],
    pub(crate) made: u64,
}

impl<B: Bay + Drop> Fenced<B> {
    ghost use Rattle.ddf_fenced.specs.FencedBays.{disks_of, inner_of, is_fenced};

    /// Fences the slots that are marked. One past the marks isn't.
    pub fn new(inner: B, shut: Vec<bool>) -> Fenced<B>
        ensures inner { inner_of result ≡ inner }
        ensures fenced { (s : ℕ) → is_fenced result s ≡ slice_index_or shut.items s false }

        // Its own counts begin at 0.
        ensures calls { (disks_of B.disks result).calls ≡ 0 }
        ensures faults { (s : ℕ) → is_fenced result s ≡ true → ((disks_of B.disks result).failed_reads s ≡ 0) × ((disks_of B.disks result).failed_writes s ≡ 0) }
    {
        Fenced {
            inner,
            shut,
            read_faults: [0; 64],
            write_faults: [0; 64],
            made: 0,
        }
    }

    /// The bay below, to be asked.
    pub fn inner(&self) -> &B
        ensures { result.now ≡ inner_of self.now }
    {
        &self.inner
    }

    /// The bay below.
    pub fn into_inner(self) -> B
        ensures { result ≡ inner_of self }
    {
        self.inner
    }

    /// Whether a slot is fenced.
    pub fn is_fenced(&self, slot: usize) -> bool
        ensures { result ≡ is_fenced self.now slot }
    {
        is_shut(self.shut.as_slice(), slot)
    }
}

/// Whether a slot is marked.
pub(crate) fn is_shut(shut: &[bool], slot: usize) -> bool
    ensures { result ≡ is_shut shut.now slot }
{
    match shut.get(slot) {
        Some(marked) => *marked,
        None => false,
    }
}
