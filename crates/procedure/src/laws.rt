// What holds of procedure files as a whole.
ghost use Rattle.procedure.specs.Laws.{OneReading, OneVerdictEach};

// A list of words is said by one description at most.
pub fn one_reading() -> u8
    ensures { OneReading }
{
    0
}

// A file has one verdict.
pub fn one_verdict() -> u8
    ensures { OneVerdictEach }
{
    0
}
