//! Comparisons of stores.
ghost use Rattle.std.specs.Prelude.{◌≡◌, ◌↔◌, IsTrue};
ghost use Rattle.std.specs.FinMap as map;
ghost use Rattle.nw_digest.specs.Order.{digest_cmp, slot_cmp};
ghost use Rattle.nw_model.specs.State.{opening};

use super::Plain;
use nw_codec::{Block, Certificate};
use nw_digest::{Digest, Round, Shared};
use std::collections::BTreeMap;

impl Plain {
    /// Whether its state is the opening state: three empty maps, and garbage round 0.
    pub(crate) fn is_opening(&self) -> bool
        ensures { IsTrue result ↔ self.now.state ≡ opening }
    {
        if self.block_count() > 0 || self.certificate_count() > 0 {
            return false;
        }
        self.first_count() == 0 && self.floor.get() == 0
    }

    /// How many rounds and authors have a first digest.
    fn first_count(&self) -> usize
        ensures { result ≡ map.len self.now.state.firsts }
    {
        self.firsts.len()
    }

    /// Whether the two stores have the same state and the same bounds. Allocates nothing, and compares each entry once.
    pub(crate) fn is_same(&self, other: &Plain) -> bool
        ensures { IsTrue result ↔ self.now ≡ other.now }
    {
        self.limit == other.limit
            && self.window == other.window
            && self.floor == other.floor
            && are_same_blocks(&self.blocks, &other.blocks)
            && are_same_certificates(&self.certificates, &other.certificates)
            && are_same_slots(&self.firsts, &other.firsts)
    }
}

/// Whether the two maps have the same entries.
fn are_same_blocks(
    one: &BTreeMap<Digest, Shared<Block>>,
    other: &BTreeMap<Digest, Shared<Block>>,
) -> bool
    ensures { IsTrue result
        ↔ map.from_entries {R = digest_cmp} one.now.entries ≡ map.from_entries other.now.entries }
{
    one.len() == other.len() && one == other
}

/// Whether the two maps have the same entries.
fn are_same_certificates(
    one: &BTreeMap<Digest, Shared<Certificate>>,
    other: &BTreeMap<Digest, Shared<Certificate>>,
) -> bool
    ensures { IsTrue result
        ↔ map.from_entries {R = digest_cmp} one.now.entries ≡ map.from_entries other.now.entries }
{
    one.len() == other.len() && one == other
}

/// Whether the two maps have the same entries.
fn are_same_slots(
    one: &BTreeMap<(Round, u16), Digest>,
    other: &BTreeMap<(Round, u16), Digest>,
) -> bool
    ensures { IsTrue result
        ↔ map.from_entries {R = slot_cmp} one.now.entries ≡ map.from_entries other.now.entries }
{
    one.len() == other.len() && one == other
}
