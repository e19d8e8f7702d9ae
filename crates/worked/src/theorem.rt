// The worked values, proved of the definitions that every contract cites.
ghost use Rattle.worked.specs.Worked.{WorkedValues};

pub fn worked_values_stand()
    ensures { WorkedValues }
{}
