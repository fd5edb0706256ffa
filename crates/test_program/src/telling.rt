//! Which sentences held.
use std::test::Fail;

/// Prints a sentence that held. One that didn't is told on standard error, and the failure goes on.
pub(crate) fn tell(
    rt: &HostRuntime,
    sentence: &str,
    outcome: Result<(), Fail>,
) -> Result<(), Fail> {
    match outcome {
        Ok(()) => {
            println!(rt; "{sentence}")?;
            Ok(())
        }
        Err(fail) => {
            // `main` ends with the failure in any case.
            let _ = eprintln!(rt; "it doesn't hold that {sentence}:");
            Err(fail)
        }
    }
}

/// A failure with this text, if it doesn't hold.
pub(crate) fn hold(holds: bool, what: &str) -> Result<(), Fail> {
    if holds {
        Ok(())
    } else {
        Err(Fail::new(format_args!("not so: {what}")))
    }
}
