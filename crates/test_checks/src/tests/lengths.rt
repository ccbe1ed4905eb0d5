//! Messages that are cut or lengthened.
use super::signed::{block, certificate};
use super::*;

/// Whether each proper prefix of the text has the fault `Short`, and the text with any byte added has the fault `Trailing`.
fn ends_exactly(alloc: Global, committee: &Shared<Committee>, text: &[u8]) -> Result<bool, Fail> {
    for length in 0..text.len() {
        if judge(alloc, committee, &text[..length])? != Found::BadText(DecodeError::Short) {
            return Ok(false);
        }
    }
    for byte in 0..=255u8 {
        let mut longer = text.to_vec(alloc)?;
        longer.push(byte)?;
        if judge(alloc, committee, &longer)? != Found::BadText(DecodeError::Trailing) {
            return Ok(false);
        }
    }
    Ok(true)
}

#[test]
fn cut_and_lengthened_messages_are_refused(rt: HostRuntime) -> Result<(), Fail> {
    let four = committee(rt.alloc(), 4)?;
    let block = block(rt.alloc(), four.get(), 0)?;
    let certificate = certificate(rt.alloc(), four.get())?;
    assert!(rt; ends_exactly(rt.alloc(), &four, &block)?, "a block");
    assert!(rt;
        ends_exactly(rt.alloc(), &four, &certificate)?,
        "a certificate"
    );
    Ok(())
}
