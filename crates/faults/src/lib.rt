// What every layer's checks share: an ordered list of verdicts, its first fault, and a fault's number.
// The vocabulary is in specs/, and the laws of loops and calls that cite it in proofs/.
#![tactic(auto)]

ghost use Rattle.std.specs.Prelude.{◌≡◌, ℕ};
ghost use Rattle.faults.specs.Faults.{answer, fault_if, first_of, FirstIn};

// A fault has a number in the rule book.
pub trait Fault {
    ghost number_of: { Self → ℕ };

    fn number(&self) -> u32
        ensures { result ≡ number_of self.now };
}

// The fault where the test passes.
pub fn refuse_if<E: Copy>(test: bool, fault: E) -> Result<(), E>
    ensures { result ≡ answer (fault_if test fault) tt }
{
    if test { Err(fault) } else { Ok(()) }
}

// The first fault of a list of verdicts: the one at some place before which no place has one, or none where no place has one.
pub fn first_fault<E: Copy>(verdicts: &[Option<E>]) -> Option<E>
    ensures value { result ≡ first_of verdicts.now }
    ensures first { FirstIn verdicts.now result }
{
    // A loop: no clause of the library says of a list what `find_map` finds in it.
    for verdict in verdicts {
        if let Some(fault) = verdict {
            return Some(*fault);
        }
    }
    None
}
