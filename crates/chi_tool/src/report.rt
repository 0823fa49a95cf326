ghost use Rattle.std.specs.Prelude.{◌≡◌};
ghost use Rattle.chi_tool.specs.Reported.{unpassed};

use chi_base::NoMemory;
use chi_engine::PassFault;

/// A report: the status, and what is to be written.
#[derive(Debug, Drop)]
pub struct Reported {
    pub status: u8,
    /// What isn't passed on yet.
    pub out: Vec<u8>,
    pub log: Vec<u8>,
}

/// The same, of which nothing was passed on while it was made.
pub fn unpassed(made: Result<Reported, NoMemory>) -> Result<Reported, PassFault>
    ensures { result ≡ unpassed made }
{
    match made {
        Ok(report) => Ok(report),
        Err(_) => Err(PassFault::NoMemory),
    }
}
