//! Encodings that are written to a buffer while all allocations fail.
use super::*;
use nw_codec::Signature;
use samples::fallible::vote;

/// Whether the buffer of nines begins with the text, and is as before behind it.
fn begins_with(buffer: &[u8], text: &[u8]) -> bool {
    let rest = buffer.strip_prefix(text);
    rest.is_some_and(|rest| rest.iter().all(|byte| *byte == 9))
}

/// Whether a block, its body and a vote are written to the front of a buffer, as they are encoded, without an allocation.
pub(super) fn are_written(alloc: Global, four: &Committee) -> Result<bool, Fail> {
    let block = retry!(NoMemory, unsigned(alloc, SLOT, &[], b"x"))?;
    let (signature, vote) = (Signature([7; 64]), vote(four, VOTED, SLOT, 1));
    if !block.fits() {
        drop(block);
        return Ok(false);
    }
    if block.body_size() > 256 || block.message_size() > 256 {
        drop(block);
        return Ok(false);
    }
    let body = retry!(NoMemory, block.body(alloc))?;
    let message = retry!(NoMemory, block.message(alloc, &signature))?;
    let voted = retry!(NoMemory, vote.message(alloc))?;
    let mut buffers = [[9; 256]; 3];
    fail_allocations(alloc);
    block.write_body(&mut buffers[0]);
    block.write_message(&signature, &mut buffers[1]);
    vote.write_message(&mut buffers[2]);
    allow_allocations(alloc);
    Ok(
        begins_with(&buffers[0], &body)
            && begins_with(&buffers[1], &message)
            && begins_with(&buffers[2], &voted),
    )
}

/// Whether a certificate is written to the front of a buffer, as it is encoded, without an allocation.
pub(super) fn is_certificate_written(alloc: Global, four: &Committee) -> Result<bool, Fail> {
    let message = certificate_message(alloc, four, &[0, 1, 2])?;
    let Message::Certificate(certificate) = &message else {
        return Ok(false);
    };
    if !certificate.fits() || certificate.message_size() > 256 {
        return Ok(false);
    }
    let text = retry!(NoMemory, certificate.message(alloc))?;
    let mut buffer = [9; 256];
    fail_allocations(alloc);
    certificate.write_message(&mut buffer);
    allow_allocations(alloc);
    Ok(begins_with(&buffer, &text))
}
