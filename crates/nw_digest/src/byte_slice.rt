//! What definitions do not know of bytes.
ghost use Rattle.nw_digest.specs.Bytes.{AreBytes};

/// Tells the prover that the items of a byte slice are bytes. Definitions see them as numbers. It does nothing at run time.
pub fn note_bytes(bytes: &[u8])
    ensures { AreBytes bytes.now }
{}
