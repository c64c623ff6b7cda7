//! Disks whose bad block logs are honoured: one bay, of those that read and write where the logs say and that hide what is honoured.
ghost use Rattle.std.specs.Prelude.{◌≡◌, ℕ, [], false, None, IfErr, IfOk};
ghost use Rattle.ddf_badblocks.specs.State.{place};
ghost use Rattle.ddf_hidden_logs.specs.Masks.{hidden, turn};

use crate::hidden::Hidden;
use crate::hiding::hide_logs;
use ddf_badblocks::Remapped;
use ddf_bay::Bay;
use ddf_fenced::Fenced;
use ddf_logs::seen_through;
use std::alloc::Global;

/// Disks whose bad block logs are honoured: bad sectors are read and written where the logs say, and a log that is honoured shows no entries. A
/// slot whose copies could not be read fails each call: where its blocks lie isn't known.
#[derive(Drop)]
pub struct Honoured<B: Bay + Drop> {
    pub(crate) inner: Hidden<Fenced<Remapped<Fenced<B>>>>,
}

impl<B: Bay + Drop> Honoured<B> {
    ghost use Rattle.ddf_hidden_logs.specs.Honouring.{Hides, IsGivenBack, IsHonoured, LooksBehind, disks_of, inner_of, is_unread, is_unshown, logs_of, mask_of, ranges_of};

    /// Looks at the copies of each slot twice: for its bad sectors, which are exchanged with their spare ones from then on where its log is
    /// honoured (`ddf_logs::log_of`), and, as they are then seen, for the entries of its log that count against it, which alone are shown.
    ///
    /// # Errors
    /// The bay below, where memory ran out: nothing was written of it.
    pub fn new(alloc: Global, inner: B) -> Result<Honoured<B>, B>
        ensures made { IfOk result (IsHonoured B.tells B.disks inner) }
        ensures given_back { IfErr result (IsGivenBack B.disks inner) }
    {
        match seen_through(alloc, inner) {
            Ok(exchanged) => Honoured::hiding(alloc, exchanged),
            Err(back) => Err(back),
        }
    }

    /// Hides the logs of disks whose bad sectors are exchanged. Where memory ran out the bay below all comes back.
    fn hiding(alloc: Global, exchanged: Remapped<Fenced<B>>) -> Result<Honoured<B>, B>
        ensures hides { IfOk result (Hides B.tells B.disks exchanged) }
        ensures given_back { IfErr result (LooksBehind B.disks exchanged) }
    {
        match hide_logs(alloc, exchanged) {
            Ok(inner) => Ok(Honoured { inner }),
            Err(looked) => Err(looked.into_inner().into_inner()),
        }
    }

    /// Sees sectors and logs as they are written, without a look.
    pub fn as_written(alloc: Global, inner: B) -> Honoured<B>
        ensures inner { inner_of result ≡ inner }
        ensures held { (s l : ℕ) → (disks_of B.disks result).held s l ≡ (B.disks inner).held s l }

        // No slot has ranges, a mask or a fence.
        ensures ranges { (s : ℕ) → ranges_of result s ≡ [] }
        ensures masks { (s : ℕ) → mask_of result s ≡ None }
        ensures read { (s : ℕ) → is_unread result s ≡ false }
        ensures shown { (s : ℕ) → is_unshown result s ≡ false }

        // Its own count begins at 0.
        ensures calls { (disks_of B.disks result).calls ≡ 0 }
    {
        let all = Fenced::new(inner, Vec::new(alloc));
        match Remapped::new(all, Vec::new(alloc)) {
            Ok(bay) => Honoured {
                inner: Hidden::plain(alloc, Fenced::new(bay, Vec::new(alloc))),
            },
            Err(_) => unreachable!(),
        }
    }

    /// How many ranges of bad sectors a slot has, where its log is honoured: they are read and written at spare places.
    pub fn ranges(&self, slot: usize) -> u16
        ensures { result ≡ hidden (mask_of self.now slot) }
    {
        self.inner.hidden(slot)
    }

    /// The bay below, to be asked.
    pub fn inner(&self) -> &B
        ensures { result.now ≡ inner_of self.now }
    {
        self.inner.inner().inner().inner().inner()
    }

    /// The bay below.
    pub fn into_inner(self) -> B
        ensures inner { result ≡ inner_of self }

        // What is seen of a sector is what the one holds that stands for it, turned, and the other way round.
        ensures held { (s l : ℕ) → (disks_of B.disks self).held s l
            ≡ turn (mask_of self s) l ((B.disks result).held s (place (B.disks result).sizes (logs_of self) s l)) }
        ensures back { (s l : ℕ) → (B.disks result).held s l
            ≡ turn (mask_of self s) (place (B.disks result).sizes (logs_of self) s l) ((disks_of B.disks self).held s (place (B.disks result).sizes (logs_of self) s l)) }
    {
        self.inner
            .into_inner()
            .into_inner()
            .into_inner()
            .into_inner()
    }
}
