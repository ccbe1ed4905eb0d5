//! Reading a whole script.
ghost use Rattle.std.specs.Prelude.{◌≡◌, ◌≤◌, IfOk, IfErr, IfSome, vec_len};
ghost use Rattle.nw_play.specs.Unread.{IsUnread, longest_script};

use crate::PlayFault;
use std::alloc::Global;
use std::io::{ErrorKind, Read};

/// The largest size of a script, in bytes.
pub const MAX_SCRIPT: usize = 1_048_576;

/// Reads the reader to its end, in at most `MAX_SCRIPT` + 1 reads. An interrupted read counts and is repeated.
///
/// `TooLong` if the reader gives more than `MAX_SCRIPT` bytes, or these reads do not reach its end. `Read` if it fails, and
/// `NoMemory` if an allocation fails.
pub fn read_script<R: Read>(alloc: Global, reader: &mut R) -> Result<Vec<u8>, PlayFault>
    ensures within { IfOk result (λ script. vec_len script ≤ longest_script) }
    ensures whole { IfOk result (λ script.
        IfSome (R.remaining reader.old) (λ bytes. script.items ≡ bytes)) }
    ensures unread { IfErr result IsUnread }
{
    let mut script = Vec::new(alloc);
    let mut chunk = [0u8; 4096];
    for _ in 0..MAX_SCRIPT + 1 {
        match reader.read(&mut chunk) {
            Ok(0) => return Ok(script),
            Ok(count) if count > MAX_SCRIPT - script.len() => return Err(PlayFault::TooLong),
            Ok(count) => script.extend_from_slice(&chunk[..count])?,
            Err(error) if error.kind() == ErrorKind::Interrupted => {}
            Err(_) => return Err(PlayFault::Read),
        }
    }
    Err(PlayFault::TooLong)
}
