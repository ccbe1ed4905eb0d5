//! The sizes of loads.
ghost use Rattle.std.specs.Prelude.{◌↔◌, IsTrue};
ghost use Rattle.nw_load.specs.Size.{IsNodeCount, IsRoundCount};

/// Whether a load may have this number of nodes: 1, 4, 7, 10, 13 or 16.
pub(crate) fn is_node_count(nodes: u32) -> bool
    ensures { IsTrue result ↔ IsNodeCount nodes }
{
    nodes <= 16 && nodes % 3 == 1
}

/// Whether a load may have this number of rounds: 1 to 32.
pub(crate) fn is_round_count(rounds: u32) -> bool
    ensures { IsTrue result ↔ IsRoundCount rounds }
{
    1 <= rounds && rounds <= 32
}
