// How a program begins and ends: its options or its help, and its status.
ghost use Rattle.std.specs.Prelude.{◌≡◌, cond, Ok, Err, None, Some, IsErr};
ghost use Rattle.std.specs.Process.{exit_status};

use crate::fault::Fault;
use crate::flag::Flag;
use crate::options::{Asked, read_arguments};
use std::process::ExitCode;

/// What a program is asked to do, or nothing where it is asked for help, which is printed.
pub fn begin<T: Asked>(
    rt: &HostRuntime,
    usage: &str,
    allowed: &[Flag],
) -> Result<Option<T>, Fault> {
    let asked = read_arguments(rt, allowed)?;
    if asked.is_none() {
        println!(rt; "{usage}")?;
    }
    Ok(asked)
}

/// The status of a program whose answer is yes, 0, or no, 1; or that could not give one, which is 1 too, and is said on standard error.
pub fn end(rt: &HostRuntime, answer: Result<bool, Fault>) -> ExitCode
    ensures { exit_status result ≡ elim answer [ Ok holds ↦ cond holds 0 1 | Err fault ↦ 1 ] }
{
    match answer {
        Ok(true) => ExitCode::SUCCESS,
        Ok(false) => ExitCode::FAILURE,
        Err(fault) => {
            let _ = eprintln!(rt; "{fault}");
            ExitCode::FAILURE
        }
    }
}

/// Ends a program that has begun: help that was asked for is a yes, and what it is asked to do is answered by `tell`.
pub fn finish<T, F>(rt: &HostRuntime, begun: Result<Option<T>, Fault>, tell: F) -> ExitCode
where
    F: FnOnce(&HostRuntime, T) -> Result<bool, Fault> + Drop,
    requires { F.IsAlwaysCallable tell }
    ensures help { begun ≡ Ok None → exit_status result ≡ 0 }
    ensures fault { IsErr begun → exit_status result ≡ 1 }
    ensures told { (asked : T) → begun ≡ Ok (Some asked) → (answer : _) × F.post tell rt.entry asked answer × (exit_status result ≡ elim answer [ Ok holds ↦ cond holds 0 1 | Err fault ↦ 1 ]) }
{
    let answer = match begun {
        Ok(Some(asked)) => tell(rt, asked),
        Ok(None) => Ok(true),
        Err(fault) => Err(fault),
    };
    end(rt, answer)
}
