ghost use Rattle.front.specs.Written.{ReadsAsWritten};

// The front reads a depth in just the texts that write it.
pub fn reads_as_written()
    ensures { ReadsAsWritten }
{}
