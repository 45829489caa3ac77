//! How a scenario ends.
use test_support::Failure;

/// Prints the name of a scenario that went as the contracts say, and else says which one did not.
pub(crate) fn told(
    rt: &(impl Print + Eprint),
    name: &str,
    outcome: Result<(), Failure>,
) -> Result<(), Failure> {
    let said = match outcome {
        Ok(()) => println!(rt; "{name}"),
        Err(Failure::NoMemory) => eprintln!(rt;
            "wrong: {name}: a call was refused twice, or in vain"
        ),
        Err(Failure::Wrong) => eprintln!(rt; "wrong: {name}"),
    };
    match said {
        Ok(()) => outcome,
        Err(_) => Err(Failure::Wrong),
    }
}
