//! A law of the grammar. It is the contract of a function that does nothing.
ghost use Rattle.std.specs.Prelude.{◌≡◌, length};
ghost use Rattle.nw_codec.specs.declared.block.Block.{Block};
ghost use Rattle.nw_codec.specs.Fits.{body_size};
ghost use Rattle.nw_codec.specs.Grammar.{body};
ghost use Rattle.nw_codec.specs.Typed.{IsBlock};

/// A body has 13 bytes, 34 for each parent, and for each transaction its bytes and 4 more.
pub fn body_has_its_size()
    ensures { (b : Block) → IsBlock b → length (body b) ≡ body_size b }
{}
