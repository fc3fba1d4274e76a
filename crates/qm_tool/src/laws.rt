//! The laws of what is due for words and a text.
ghost use Rattle.qm_tool.specs.Due.{OneAnswer, OneCircuitLaw, OneText, SomeAnswer};
ghost use Rattle.qm_tool.specs.Lines.{SomeLine};

/// For words and all bytes that a source has, one status and one text alone is due: a text is read as the programs of one input or refused
/// for one reason, the command determines one schedule of the programs, it ends or stops in one way, and its circuit has one reduced form.
pub fn one_answer_law()
    ensures { OneAnswer }
{}

/// For all words, and all bytes that a source may have, some status and some bytes are due: the words are a command or not, a text that
/// isn't too long has a reading or a first fault, and each run, each circuit and each check of programs without a fault comes to an end.
pub fn some_answer_law()
    ensures { SomeAnswer }
{}

/// Programs have one text of their one circuit at most: one run always takes the lowest rank that can go on, and the circuit that it leaves
/// has one reduced form. So the headline says of a text which bytes they are.
pub fn one_text_law()
    ensures { OneText }
{}

/// Where a run of a text ends, its state text is the one that is due for the amplitudes of the one circuit, and the ideal run doesn't end
/// early.
pub fn one_circuit_law()
    ensures { OneCircuitLaw }
{}

/// Every state text with which a run ends has an amplitude line: the circuit of a complete schedule isn't zero, and its amplitudes are zero
/// wherever a wire that is in no slot is one.
pub fn some_line_law()
    ensures { SomeLine }
{}
