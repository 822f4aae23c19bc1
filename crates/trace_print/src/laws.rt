ghost use Rattle.trace_print.specs.TextLaws.{ValidTracesHaveTexts};

/// Each valid trace has a text: its canonical one is a text of it. The call does nothing: its contract is the law.
pub fn valid_traces_have_texts()
    ensures { ValidTracesHaveTexts }
{}
