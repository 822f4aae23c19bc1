//! The laws of traces and their texts. A call does nothing: its contract is the law.
ghost use Rattle.trace_text.specs.TraceLaws.{TextsAreOfOneTrace, TextsAreOfValidTraces, TracesAreNoLonger};

/// Bytes are a text of one trace at most.
pub fn texts_are_of_one_trace()
    ensures { TextsAreOfOneTrace }
{}

/// The trace of a text is valid.
pub fn texts_are_of_valid_traces()
    ensures { TextsAreOfValidTraces }
{}

/// A trace has no more lines below its header than its text has bytes.
pub fn traces_are_no_longer()
    ensures { TracesAreNoLonger }
{}
