//! The law that what is printed is read back.
ghost use Rattle.script_tasks.specs.PrintedScripts.{LineReadsBack, NumberReadsBack, SignedReadsBack, TableIsComments, TraceReadsBack};

/// What is printed of a trace is read back.
pub fn read_back()
    ensures number { NumberReadsBack }
    ensures signed { SignedReadsBack }
    ensures line { LineReadsBack }
    ensures table { TableIsComments }
    ensures trace { TraceReadsBack }
{}
