// Worked readings of the rules, as one theorem.
#![tactic(auto)]

ghost use Rattle.readings.specs.Readings.{Readings};

// The readings follow from the definitions that the contracts cite: the theorem is this call's contract.
pub fn readings_hold() -> bool
    ensures { Readings }
{
    true
}
