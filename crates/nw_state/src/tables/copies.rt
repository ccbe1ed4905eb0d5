//! Copies of the tables as a plain store.
ghost use Rattle.std.specs.Prelude.{◌≡◌, IfOk, List, Some, Contains};
ghost use Rattle.std.specs.FinMap as map;
ghost use Rattle.std.specs.Map.{lookup};
ghost use Rattle.std.specs.BTreeMap.{is_at};
ghost use Rattle.nw_digest.specs.declared.digest.Digest.{Digest};
ghost use Rattle.nw_digest.specs.Order.{digest_cmp};
ghost use Rattle.nw_codec.specs.declared.block.Block.{Block};
ghost use Rattle.nw_codec.specs.declared.certificate.Certificate.{Certificate};
ghost use Rattle.nw_model.specs.Sound.{IsIndex};

use super::StateTables;
use nw_digest::{Digest, NoMemory, Round, Shared};
use nw_plain::{Maps, Plain};
use nw_trie::DigestMap;
use std::alloc::Global;
use std::collections::BTreeMap;

impl StateTables {
    /// A plain store with the same state and the same bounds, which shares the blocks and certificates. The cost grows with the number of
    /// blocks and certificates, and with nothing else.
    ///
    /// `NoMemory` if allocation fails.
    pub fn copy(&self, alloc: Global) -> Result<Plain, NoMemory>
        ensures { IfOk result (λ plain. plain ≡ self.now) }
    {
        let listed = self.slots.all_digests(alloc)?;
        let digests = listed.as_slice();
        let blocks = shared_entries(alloc, &self.blocks, digests)?;
        let certificates = shared_entries(alloc, &self.certificates, digests)?;
        let firsts = self.copy_firsts(alloc, digests)?;
        let certified = self.copy_certified(alloc, digests)?;
        let maps = Maps {
            blocks,
            certificates,
            firsts,
            certified,
            floor: self.floor,
        };
        Ok(Plain::of_maps(alloc, maps, self.limit, self.window))
    }

    /// The first digest of each round and author. `digests` must include the digest of each held block.
    fn copy_firsts(
        &self,
        alloc: Global,
        digests: &[Digest],
    ) -> Result<BTreeMap<(Round, u16), Digest>, NoMemory>
        requires { (d : Digest) (b : Block)
            → map.get self.now.state.blocks d ≡ Some b → Contains digests.now d }
        ensures { IfOk result (λ firsts. map.from_entries firsts.entries ≡ self.now.state.firsts) }
    {
        let mut firsts = BTreeMap::new(alloc);
        for digest in digests {
            if let Some(name) = self.name(*digest) {
                if self.slots.first(name.round, name.author) == Some(*digest) {
                    firsts.insert((name.round, name.author), *digest)?;
                }
            }
        }
        Ok(firsts)
    }

    /// The certified digest of each round and author. `digests` must include each certified digest.
    fn copy_certified(
        &self,
        alloc: Global,
        digests: &[Digest],
    ) -> Result<BTreeMap<(Round, u16), Digest>, NoMemory>
        requires { (d : Digest) (c : Certificate)
            → map.get self.now.state.certificates d ≡ Some c → Contains digests.now d }
        ensures { IfOk result (λ certified.
            IsIndex self.now.state.certificates (map.from_entries certified.entries)) }
    {
        let mut certified = BTreeMap::new(alloc);
        for digest in digests {
            if let Some(certificate) = self.certificate(digest) {
                let certificate = certificate.get();
                certified.insert((certificate.round, certificate.author), *digest)?;
            }
        }
        Ok(certified)
    }
}

/// The entries as an ordered map, which shares their values. `digests` must include the digest of each entry.
fn shared_entries<V: Drop>(
    alloc: Global,
    entries: &DigestMap<Shared<V>, Global>,
    digests: &[Digest],
) -> Result<BTreeMap<Digest, Shared<V>>, NoMemory>
    requires { (d : Digest) (v : V)
        → lookup (is_at (digest_cmp d)) entries.now ≡ Some v → Contains digests.now d }
    ensures { IfOk result (λ shared.
        map.from_entries {R = digest_cmp} shared.entries ≡ map.from_entries entries.now) }
{
    let mut shared = BTreeMap::new(alloc);
    for digest in digests {
        if let Some(value) = entries.get(digest) {
            shared.insert(*digest, value.try_clone()?)?;
        }
    }
    Ok(shared)
}
